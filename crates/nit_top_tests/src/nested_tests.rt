//! A run within a client: the run of two clients, shown by one client of a screen of the same size.

use crate::cases::assert_cases;

#[test]
fn runs_within_a_client(rt: HostRuntime) {
    assert_cases(&rt, rt.alloc(), CASES);
}

const CASES: &str = r#"

base two
words nested, out.toml, two.toml
file out.toml OUTER
file o.nit OWN
file o.in =phase\n
file two.toml CONFIG
file a.nit A
file b.nit B
file two.in INPUT
asked NAMES
there =out.toml o.nit o.in two.toml a.nit b.nit two.in
entries 6

case the last picture is the one of the inner run, and the inner journal is its journal
with two
ends 0 =nitpicker: clients 1 entries 6 frames 1\n
there NAMES
picture final.ppm 8 4 FINAL
holds events-o.txt EVENTS
holds journal.txt OUTER_JOURNAL
holds inner-journal.txt JOURNAL

case the outer user turns X-ray on, which the inner run knows nothing of
with two
file o.in =phase\npress 70\n
ends 0 =nitpicker: clients 1 entries 7 frames 1\n
there NAMES
entries 7
picture final.ppm 8 4 XRAY
holds inner-journal.txt JOURNAL

case the outer configuration cannot be read
with two
fails 1
ends 3 =nitpicker: out.toml: read fault\n
asked =out.toml
entries 0

case the outer input script cannot be read
with two
fails 3
ends 3 =nitpicker: o.in: read fault\n
asked =out.toml o.nit o.in
entries 0

case the inner configuration cannot be read
with two
fails 4
ends 3 =nitpicker: two.toml: read fault\n
asked =out.toml o.nit o.in two.toml
entries 0

case the inner input script cannot be read
with two
fails 7
ends 3 =nitpicker: two.in: read fault\n
asked =out.toml o.nit o.in two.toml a.nit b.nit two.in
entries 0

case the last picture cannot be put
with two
fails 8
ends 4 =nitpicker: final.ppm: write fault\n
asked =out.toml o.nit o.in two.toml a.nit b.nit two.in final.ppm

case the outer journal cannot be put
with two
fails 10
ends 4 =nitpicker: journal.txt: write fault\n
asked =out.toml o.nit o.in two.toml a.nit b.nit two.in final.ppm events-o.txt journal.txt
there =out.toml o.nit o.in two.toml a.nit b.nit two.in final.ppm events-o.txt

case the inner journal cannot be put
with two
fails 11
ends 4 =nitpicker: inner-journal.txt: write fault\n
there =out.toml o.nit o.in two.toml a.nit b.nit two.in final.ppm events-o.txt journal.txt

case the line cannot be said
with two
fails 12
ends 4 =
there NAMES

case a configuration within itself: its client has no buffer in the inner run, so all is black
words nested, out.toml, out.toml
file out.toml OUTER
file o.nit OWN
file o.in =phase\nshot\n
ends 0 =nitpicker: clients 1 entries 7 frames 2\n
asked TWICE
there =out.toml o.nit o.in shot-1.ppm final.ppm events-o.txt journal.txt inner-journal.txt
entries 7
picture shot-1.ppm 8 4 BLACK
picture final.ppm 8 4 BLACK
holds inner-journal.txt =call 0 handle 1 < view\ncall 0 done < place 1 0 0 8 4\nshot 1\nfinal\n

base wide
words nested, out.toml, wide.toml
file out.toml OUTER
file o.nit =
file o.in =
file wide.toml WIDE
file w.nit WIDE_SCRIPT
file w.in =

case with the `buffer` line these are 65,536 lines, and no line more
with wide
ends 0 =nitpicker: clients 1 entries 3 frames 1\n
asked =out.toml o.nit o.in wide.toml w.nit w.in final.ppm events-o.txt journal.txt inner-journal.txt
there =out.toml o.nit o.in wide.toml w.nit w.in final.ppm events-o.txt journal.txt inner-journal.txt
entries 3
holds inner-journal.txt WIDE_JOURNAL

case one line more than a script may have
with wide
file o.nit =view\n
ends 11 =nitpicker: wide.toml: inner frames too long\n
asked =out.toml o.nit o.in wide.toml w.nit w.in
there =out.toml o.nit o.in wide.toml w.nit w.in
entries 0

base refused
words nested, out.toml, two.toml
file out.toml OUTER
file o.nit =
file o.in =phase\n
file two.toml CONFIG
file a.nit A
file b.nit B
file two.in INPUT
ends 6 =nitpicker: o.nit: phases differ\n
asked =out.toml o.nit
there =out.toml o.nit o.in two.toml a.nit b.nit two.in
entries 0

case a first script without phases
with refused
file o.nit =view\n
asked =out.toml o.nit o.in two.toml a.nit b.nit two.in

case a first script of two phases
with refused
file o.nit =phase\nphase\n
file o.in =
asked =out.toml o.nit o.in two.toml a.nit b.nit two.in

case an outer input script without phases
with refused
file o.nit OWN
file o.in =
ends 6 =nitpicker: o.in: phases differ\n
asked =out.toml o.nit o.in two.toml a.nit b.nit two.in

case a line that may not stand in the first script comes before any number of phases
with refused
file o.nit =buffer 8 4\n
ends 6 =nitpicker: o.nit: line 1: bad script\n

case a stroke comes before a `close` behind it
with refused
file o.nit =view\nfill 0 0 1 1 FF0000\nclose\n
file o.in =
ends 6 =nitpicker: o.nit: line 2: bad script\n

case a `close` comes before a `buffer` behind it
with refused
file o.nit =view\nphase\nclose\nbuffer 8 4\n
file o.in =
ends 6 =nitpicker: o.nit: line 3: bad script\n

case a `buffer` comes before a `close` behind it
with refused
file o.nit =view\nphase\nbuffer 1 1\nclose\n
ends 6 =nitpicker: o.nit: line 3: bad script\n

case a `close` in the first script
with refused
file o.nit =phase\nclose\n
ends 6 =nitpicker: o.nit: line 2: bad script\n

case a `fill` in the first script
with refused
file o.nit =fill 0 0 1 1 000000\n
ends 6 =nitpicker: o.nit: line 1: bad script\n

case a `check` in the first script
with refused
file o.nit =check 0 0 1 1 FF0000 0000FF\nphase\n
file o.in =
ends 6 =nitpicker: o.nit: line 1: bad script\n

case a line of the first script without a reading
with refused
file o.nit =view\nView\n
ends 6 =nitpicker: o.nit: line 2: bad script\n

case a line without a reading comes before one in front that may not stand there
with refused
file o.nit =buffer 8 4\nView\n
ends 6 =nitpicker: o.nit: line 2: bad script\n

case a line without a reading comes before one behind it that may not stand there
with refused
file o.nit =View\nbuffer 8 4\n
ends 6 =nitpicker: o.nit: line 1: bad script\n

case a client's line in the outer input script
with refused
file o.nit OWN
file o.in =phase\nview\n
ends 6 =nitpicker: o.in: line 2: bad script\n
asked =out.toml o.nit o.in

case inner files that are refused come behind the outer ones, and before any number of phases
with refused
file a.nit =buffer 4\n
ends 6 =nitpicker: a.nit: line 1: bad script\n
asked =out.toml o.nit o.in two.toml a.nit

case phases of an inner script that differ
with refused
file b.nit =phase\n
ends 6 =nitpicker: b.nit: phases differ\n
asked =out.toml o.nit o.in two.toml a.nit b.nit

case phases of the inner input script that differ
with refused
file two.in =
ends 6 =nitpicker: two.in: phases differ\n
asked =out.toml o.nit o.in two.toml a.nit b.nit two.in

case the inner configuration is refused behind the outer scripts
words nested, out.toml, two.toml
file out.toml OUTER
file o.nit =phase\nphase\n
file o.in =phase\n
file two.toml =
ends 5 =nitpicker: two.toml: bad configuration: missing\n
asked =out.toml o.nit o.in two.toml
there =out.toml o.nit o.in two.toml
entries 0

base both
words nested, out.toml, two.toml
file out.toml BOTH
file o.nit OWN
file p.nit =
file o.in =phase\n
file two.toml CONFIG
file a.nit A
file b.nit B
file two.in INPUT
ends 6 =nitpicker: p.nit: phases differ\n
asked =out.toml o.nit p.nit o.in two.toml a.nit b.nit two.in
there =out.toml o.nit p.nit o.in two.toml a.nit b.nit two.in
entries 0

case a second script without phases
with both

case a second script of two phases comes before the input script
with both
file p.nit =phase\nphase\n
file o.in =

case a first script without phases comes before the second
with both
file o.nit =
ends 6 =nitpicker: o.nit: phases differ\n

case a second script may have a `buffer` and a `close`
with both
file p.nit =buffer 1 1\nphase\nclose\n
file o.in =
ends 6 =nitpicker: o.in: phases differ\n

text OUTER
| [screen]
| width = 8
| height = 4
|
| [input]
| script = "o.in"
|
| [[client]]
| label = "o"
| donation = 65536
| script = "o.nit"

text OWN
| view
| place 1 0 0 8 4
| phase

text NAMES
=out.toml o.nit o.in two.toml a.nit b.nit two.in final.ppm events-o.txt journal.txt
= inner-journal.txt

text OUTER_JOURNAL
| call 0 done < buffer 8 4
| call 0 done < refresh 0 0 8 4
| call 0 handle 1 < view
| call 0 done < place 1 0 0 8 4
| call 0 done < refresh 0 0 8 4
| final

text XRAY
| MMMMMMMM
| MrrrnnnM
| MnnnbbbM
| MMMMMMMM

text TWICE
=out.toml o.nit o.in out.toml o.nit o.in shot-1.ppm final.ppm events-o.txt journal.txt
= inner-journal.txt

text BLACK
| KKKKKKKK
| KKKKKKKK
| KKKKKKKK
| KKKKKKKK

text WIDE
| [screen]
| width = 434
| height = 151
|
| [input]
| script = "w.in"
|
| [[client]]
| label = "w"
| donation = 1048576
| script = "w.nit"

text WIDE_SCRIPT
| buffer 434 151
| check 0 0 434 151 FF0000 0000FF
| view
| place 1 0 0 434 151

text WIDE_JOURNAL
| call 0 done < buffer 434 151
| call 0 handle 1 < view
| call 0 done < place 1 0 0 434 151
| final

text BOTH
| [screen]
| width = 8
| height = 4
|
| [input]
| script = "o.in"
|
| [[client]]
| label = "o"
| donation = 65536
| script = "o.nit"
|
| [[client]]
| label = "p"
| donation = 65536
| script = "p.nit"

"#;
