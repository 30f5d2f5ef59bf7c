//! Pictures of the X-ray mode and of the status bar, and runs in which the user locks a client out.

use crate::cases::assert_cases;

#[test]
fn modes(rt: HostRuntime) {
    assert_cases(&rt, rt.alloc(), CASES);
}

const CASES: &str = r#"

base xray
words turns, xray.toml
file xray.toml XRAY
file xa.nit XA
file xb.nit NARROW
file xray.in =phase\nphase\npress 70\nshot\n
ends 0 =nitpicker: clients 2 entries 9 frames 2\n
asked =xray.toml xa.nit xb.nit xray.in shot-1.ppm final.ppm events-ab.txt events-b.txt journal.txt
there =xray.toml xa.nit xb.nit xray.in shot-1.ppm final.ppm events-ab.txt events-b.txt journal.txt

case the first client's label fills what is seen of its view, and the second has no room for its own
with xray
picture shot-1.ppm 12 7 LABELLED
picture final.ppm 12 7 LABELLED

case neither label has room
with xray
file xb.nit WIDE
picture shot-1.ppm 12 7 UNLABELLED
picture final.ppm 12 7 UNLABELLED

case in kill mode the label stands there too, the rings are red, and the words are tinted
with xray
file xray.in =phase\nphase\npress 99\nshot\n
picture shot-1.ppm 12 7 TINTED
picture final.ppm 12 7 TINTED

case the view of the client with the focus has its own words, and a white ring
with xray
file xb.nit WIDE
file xray.in =phase\nphase\nmotion 9 3\npress 272\nrelease 272\npress 70\nshot\n
ends 0 =nitpicker: clients 2 entries 12 frames 2\n
picture shot-1.ppm 12 7 OWN_WORDS
picture final.ppm 12 7 OWN_WORDS

case a refresh shows its part of the words that are new, and the last picture all of them
with xray
file xa.nit REFRESHING
file xb.nit WIDE_AND_PHASES
file xray.in =phase\nphase\npress 70\nphase\nphase\nshot\n
ends 0 =nitpicker: clients 2 entries 10 frames 2\n
picture shot-1.ppm 12 7 REFRESHED
picture final.ppm 12 7 ALL_REFRESHED

base kill
words turns, kill.toml
file kill.toml KILL
file ka.nit LEFT
more ka.nit =take\nview\nclose\n
file kb.nit RIGHT
more kb.nit =take\n
file kill.in KILLING
asked =kill.toml ka.nit kb.nit kill.in final.ppm events-a.txt events-b.txt journal.txt
there =kill.toml ka.nit kb.nit kill.in final.ppm events-a.txt events-b.txt journal.txt
replies 1 REPLIES

case the first client is killed, and goes on
with kill
ends 0 =nitpicker: clients 2 entries 17 frames 1\n
picture final.ppm 8 4 KILLED
whole PLACED KILLED_ENTRIES

case behind a kill the focus is nobody's
with kill
file kill.in KILLING_AND_KEY
ends 0 =nitpicker: clients 2 entries 18 frames 1\n
whole PLACED KILLED_AND_KEY_ENTRIES

case where the first client does nothing, the second is answered the same
with kill
file ka.nit =phase\nphase\n
ends 0 =nitpicker: clients 2 entries 11 frames 1\n

case after a click the bar has `flat` and the label of the client with the focus, as `flat:a`
words turns, bar.toml
file bar.toml WIDE_BAR
file a.nit UNDER_WIDE
file bar.in =phase\nmotion 1 7\npress 272\n
ends 0 =nitpicker: clients 1 entries 6 frames 1\n
asked =bar.toml a.nit bar.in final.ppm events-a.txt journal.txt
there =bar.toml a.nit bar.in final.ppm events-a.txt journal.txt
picture final.ppm 25 8 FOCUSED

case the bar has as much of `flat` as there is room for, and hides what the client shows there
words turns, bar.toml
file bar.toml NARROW_BAR
file a.nit UNDER_NARROW
file no.in =
ends 0 =nitpicker: clients 1 entries 4 frames 1\n
asked =bar.toml a.nit no.in final.ppm events-a.txt journal.txt
there =bar.toml a.nit no.in final.ppm events-a.txt journal.txt
picture final.ppm 12 12 UNFOCUSED

text XRAY
| [screen]
| width = 12
| height = 7
|
| [input]
| script = "xray.in"
|
| [[client]]
| label = "ab"
| donation = 65536
| script = "xa.nit"
|
| [[client]]
| label = "b"
| donation = 65536
| script = "xb.nit"

text XA
| buffer 12 7
| fill 0 0 12 7 FF0000
| view
| place 1 0 0 12 7
| phase
| phase

text NARROW
| phase
| buffer 4 7
| fill 0 0 4 7 0000FF
| view
| place 1 0 0 3 7
| phase

text LABELLED
| MMMKKKKKKKKK
| MbMKKWKKWWKK
| MbMKWKWKWKWK
| MbMKWWWKWWKK
| MbMKWKWKWKWK
| MbMKWKWKWWKK
| MMMKKKKKKKKK

text WIDE
| phase
| buffer 4 7
| fill 0 0 4 7 0000FF
| view
| place 1 0 0 4 7
| phase

text UNLABELLED
| MMMMMMMMMMMM
| MbbMrrrrrrrM
| MbbMrrrrrrrM
| MbbMrrrrrrrM
| MbbMrrrrrrrM
| MbbMrrrrrrrM
| MMMMMMMMMMMM

text TINTED
| RRRKKKKKKKKK
| RtRKKWKKWWKK
| RtRKWKWKWKWK
| RtRKWWWKWWKK
| RtRKWKWKWKWK
| RtRKWKWKWWKK
| RRRKKKKKKKKK

text OWN_WORDS
| MMMMWWWWWWWW
| MbbMRRRRRRRW
| MbbMRRRRRRRW
| MbbMRRRRRRRW
| MbbMRRRRRRRW
| MbbMRRRRRRRW
| MMMMWWWWWWWW

text REFRESHING
| buffer 12 7
| fill 0 0 12 7 FF0000
| view
| place 1 0 0 12 7
| phase
| phase
| phase
| fill 0 0 12 7 00FF00
| refresh 1 2 7 2
| phase

text WIDE_AND_PHASES
| phase
| buffer 4 7
| fill 0 0 4 7 0000FF
| view
| place 1 0 0 4 7
| phase
| phase
| phase

text REFRESHED
| MMMMMMMMMMMM
| MbbMrrrrrrrM
| MbbMggggrrrM
| MbbMggggrrrM
| MbbMrrrrrrrM
| MbbMrrrrrrrM
| MMMMMMMMMMMM

text ALL_REFRESHED
| MMMMMMMMMMMM
| MbbMgggggggM
| MbbMgggggggM
| MbbMgggggggM
| MbbMgggggggM
| MbbMgggggggM
| MMMMMMMMMMMM

text KILL
| [screen]
| width = 8
| height = 4
|
| [input]
| script = "kill.in"
|
| [[client]]
| label = "a"
| donation = 65536
| script = "ka.nit"
|
| [[client]]
| label = "b"
| donation = 65536
| script = "kb.nit"

text KILLING_AND_KEY
| phase
| motion 1 1
| press 272
| release 272
| press 99
| press 272
| release 272
| press 30
| phase

text KILLED_AND_KEY_ENTRIES
| input motion 1 1 > 0 motion 1 1
| input press 272 > 0 focus-enter > 0 press 272
| input release 272 > 0 release 272
| input press 99 > 0 leave
| input press 272 > 0 kill
| input release 272
| input press 30
| call 0 killed < take
| call 1 no-event < take
| call 0 killed < view
| call 0 killed < close
| final

text KILLED
| ....BBBB
| ....BBBB
| ....BBBB
| ....BBBB

text REPLIES
| done
| handle 1
| done
| no-event

text WIDE_BAR
| [screen]
| width = 25
| height = 8
| bar = true
|
| [input]
| script = "bar.in"
|
| [[client]]
| label = "a"
| donation = 65536
| script = "a.nit"

text UNDER_WIDE
| buffer 25 8
| fill 0 0 25 8 FF0000
| view
| place 1 0 0 25 8
| phase

text FOCUSED
| KKKKKKKKKKKKKKKKKKKKKKKKK
| KWWWKWKKKKWKKWWWKKKKKKWKK
| KWKKKWKKKWKWKKWKKKWKKWKWK
| KWWKKWKKKWWWKKWKKKKKKWWWK
| KWKKKWKKKWKWKKWKKKWKKWKWK
| KWKKKWWWKWKWKKWKKKKKKWKWK
| KKKKKKKKKKKKKKKKKKKKKKKKK
| RRRRRRRRRRRRRRRRRRRRRRRRR

text NARROW_BAR
| [screen]
| width = 12
| height = 12
| bar = true
|
| [input]
| script = "no.in"
|
| [[client]]
| label = "a"
| donation = 65536
| script = "a.nit"

text UNDER_NARROW
| buffer 12 12
| fill 0 0 12 12 FF0000
| view
| place 1 0 0 12 12

text UNFOCUSED
| KKKKKKKKKKKK
| KWWWKWKKKKWK
| KWKKKWKKKWKW
| KWWKKWKKKWWW
| KWKKKWKKKWKW
| KWKKKWWWKWKW
| KKKKKKKKKKKK
| RRRRRRRRRRRR
| RRRRRRRRRRRR
| RRRRRRRRRRRR
| RRRRRRRRRRRR
| RRRRRRRRRRRR

"#;
