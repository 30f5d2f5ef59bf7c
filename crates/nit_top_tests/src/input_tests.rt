//! What the user's devices deliver, by whole runs.

use crate::cases::assert_cases;

#[test]
fn inputs(rt: HostRuntime) {
    assert_cases(&rt, rt.alloc(), CASES);
}

const CASES: &str = r#"

base pair
words turns, pair.toml
ends 0 =nitpicker: clients 2 entries 12 frames 1\n
asked =pair.toml pa.nit pb.nit pair.in final.ppm events-a.txt events-b.txt journal.txt
there =pair.toml pa.nit pb.nit pair.in final.ppm events-a.txt events-b.txt journal.txt

case a drag out of the first client, and then a motion over the second
with pair
file pair.toml PAIR
file pa.nit PA
file pb.nit PB
file pair.in DRAG
whole PLACED DRAG_ENTRIES

case the same drag, but the first client takes no focus
with pair
file pair.toml SHY
file pa.nit PA
file pb.nit PB
file pair.in DRAG
whole PLACED SHY_ENTRIES

case that it takes the focus by clicks may be said, and a key goes to it then
with pair
file pair.toml CLICKING
file pa.nit PA
file pb.nit PB
file pair.in DRAG
more pair.in =press 30\n
ends 0 =nitpicker: clients 2 entries 13 frames 1\n
whole PLACED DRAG_AND_KEY_ENTRIES

case where the first client takes no focus, a key goes to nobody
with pair
file pair.toml SHY
file pa.nit PA
file pb.nit PB
file pair.in DRAG
more pair.in =press 30\n
ends 0 =nitpicker: clients 2 entries 13 frames 1\n
whole PLACED SHY_AND_KEY_ENTRIES

case a key is held before the first click
with pair
file pair.toml PAIR
file pa.nit PA
file pb.nit PB
file pair.in HELD
ends 0 =nitpicker: clients 2 entries 13 frames 1\n
whole PLACED HELD_ENTRIES

case a mode key while another key is held, and after it
with pair
file pair.toml PAIR
file pa.nit PA
file pb.nit PB
file pair.in MODES
ends 0 =nitpicker: clients 2 entries 13 frames 1\n
picture final.ppm 8 4 XRAY
whole PLACED MODES_ENTRIES

case a session that closes gets nothing of what is still held, and has no focus then
with pair
file pair.toml PAIR
file pa.nit LEFT
more pa.nit =close\nphase\n
file pb.nit RIGHT
more pb.nit =phase\n
file pair.in =phase\npress 272\nphase\nphase\nrelease 272\npress 30\n
ends 0 =nitpicker: clients 2 entries 11 frames 1\n
whole PLACED CLOSED_ENTRIES

case the pointer stays on the screen, and where it is when the wheel turns
with pair
file pair.toml PAIR
file pa.nit PA
file pb.nit PB
file pair.in =phase\nmotion 65535 65535\nwheel 1\n
ends 0 =nitpicker: clients 2 entries 9 frames 1\n
whole PLACED EDGE_ENTRIES

case motions in the status bar and under it
with pair
words turns, bar.toml
file bar.toml BAR
file a.nit UNDER_BAR
file bar.in =phase\nmotion 1 1\nmotion 1 7\n
ends 0 =nitpicker: clients 1 entries 6 frames 1\n
asked =bar.toml a.nit bar.in final.ppm events-a.txt journal.txt
there =bar.toml a.nit bar.in final.ppm events-a.txt journal.txt
whole BAR_ENTRIES

text SHY
| [screen]
| width = 8
| height = 4
|
| [input]
| script = "pair.in"
|
| [[client]]
| label = "a"
| donation = 65536
| script = "pa.nit"
| focus = "none"
|
| [[client]]
| label = "b"
| donation = 65536
| script = "pb.nit"

text CLICKING
| [screen]
| width = 8
| height = 4
|
| [input]
| script = "pair.in"
|
| [[client]]
| label = "a"
| donation = 65536
| script = "pa.nit"
| layer = 0
| focus = "click"
|
| [[client]]
| label = "b"
| donation = 65536
| script = "pb.nit"

text HELD
| phase
| press 30
| motion 1 1
| press 272
| release 272
| release 30
| press 272

text MODES
| phase
| motion 1 1
| press 30
| press 70
| release 30
| press 70
| motion 1 1

text XRAY
| MMMMMMMM
| MrrMMbbM
| MrrMMbbM
| MMMMMMMM

text BAR
| [screen]
| width = 12
| height = 12
| bar = true
|
| [input]
| script = "bar.in"
|
| [[client]]
| label = "a"
| donation = 65536
| script = "a.nit"

text UNDER_BAR
| buffer 12 12
| fill 0 0 12 12 FF0000
| view
| place 1 0 0 12 12
| phase

text CLOSED_ENTRIES
| input press 272 > 0 focus-enter > 0 press 272
| call 0 done < close
| input release 272
| input press 30
| final

text EDGE_ENTRIES
| input motion 65535 65535 > 1 motion 7 3
| input wheel 1 > 1 wheel 1
| final

text DRAG_ENTRIES
| input motion 1 1 > 0 motion 1 1
| input press 272 > 0 focus-enter > 0 press 272
| input motion 5 1 > 0 motion 5 1
| input release 272 > 0 release 272
| input motion 6 1 > 0 leave > 1 motion 6 1
| final

text SHY_ENTRIES
| input motion 1 1 > 0 motion 1 1
| input press 272 > 0 press 272
| input motion 5 1 > 0 motion 5 1
| input release 272 > 0 release 272
| input motion 6 1 > 0 leave > 1 motion 6 1
| final

text DRAG_AND_KEY_ENTRIES
| input motion 1 1 > 0 motion 1 1
| input press 272 > 0 focus-enter > 0 press 272
| input motion 5 1 > 0 motion 5 1
| input release 272 > 0 release 272
| input motion 6 1 > 0 leave > 1 motion 6 1
| input press 30 > 0 press 30
| final

text SHY_AND_KEY_ENTRIES
| input motion 1 1 > 0 motion 1 1
| input press 272 > 0 press 272
| input motion 5 1 > 0 motion 5 1
| input release 272 > 0 release 272
| input motion 6 1 > 0 leave > 1 motion 6 1
| input press 30
| final

text HELD_ENTRIES
| input press 30
| input motion 1 1
| input press 272
| input release 272
| input release 30
| input press 272 > 0 focus-enter > 0 press 272
| final

text MODES_ENTRIES
| input motion 1 1 > 0 motion 1 1
| input press 30
| input press 70
| input release 30
| input press 70 > 0 leave
| input motion 1 1
| final

text BAR_ENTRIES
| call 0 done < buffer 12 12
| call 0 handle 1 < view
| call 0 done < place 1 0 0 12 12
| input motion 1 1
| input motion 1 7 > 0 motion 1 7
| final

"#;
