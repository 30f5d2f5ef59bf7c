//! Pictures of views: where the buffer lies in them, and which of them stands in front.

use crate::cases::assert_cases;

#[test]
fn views(rt: HostRuntime) {
    assert_cases(&rt, rt.alloc(), CASES);
}

const CASES: &str = r#"

base offset
words still, 8, 4, a.nit
file a.nit COLOURED
ends 0 =nitpicker: clients 1 entries 5 frames 1\n
asked =a.nit final.ppm
there =a.nit final.ppm

case the buffer lies where the view does
with offset
ends 0 =nitpicker: clients 1 entries 4 frames 1\n
picture final.ppm 8 4 =........\n.RGBW...\n.Mrbn...\n........

case a buffer moved by one column: the view's first column is black, and it shows three columns
with offset
more a.nit =offset 1 1 0\n
picture final.ppm 8 4 =........\n.KRGB...\n.KMrb...\n........

case a buffer moved up and to the left: its last row and its last three columns are shown
with offset
more a.nit =offset 1 -1 -1\n
picture final.ppm 8 4 =........\n.rbnK...\n.KKKK...\n........

case of three views the first comes above the last, above itself, and to the back
words turns, order.toml
file order.toml ORDER
file a.nit THREE_VIEWS
file order.in =phase\nshot\nphase\nphase\nshot\nphase\nphase\nshot\nphase\n
ends 0 =nitpicker: clients 1 entries 16 frames 4\n
asked =order.toml a.nit order.in shot-1.ppm shot-2.ppm shot-3.ppm final.ppm events-a.txt journal.txt
there =order.toml a.nit order.in shot-1.ppm shot-2.ppm shot-3.ppm final.ppm events-a.txt journal.txt
picture shot-1.ppm 5 1 =RGBBB
picture shot-2.ppm 5 1 =RRRBB
picture shot-3.ppm 5 1 =RRRBB
picture final.ppm 5 1 =RGBBB

case views of a layer behind and of one in front, at the front and at the back of their own
words turns, layers.toml
file layers.toml LAYERS
file a.nit BEHIND
file b.nit BEFORE
file layers.in =phase\nphase\nphase\nshot\nphase\nphase\nshot\nphase\n
ends 0 =nitpicker: clients 2 entries 17 frames 3\n
asked LAYERED
there LAYERED
picture shot-1.ppm 7 1 =RGGBBB.
picture shot-2.ppm 7 1 =RRRBBB.
picture final.ppm 7 1 =RRWBBBW

case a view of a layer behind comes to the front of its own layer alone
words turns, pair.toml
file pair.toml LAYER_PAIR
file pa.nit PA
more pa.nit =front 1\n
file pb.nit COVERING
file pair.in =phase\n
ends 0 =nitpicker: clients 2 entries 8 frames 1\n
asked =pair.toml pa.nit pb.nit pair.in final.ppm events-a.txt events-b.txt journal.txt
there =pair.toml pa.nit pb.nit pair.in final.ppm events-a.txt events-b.txt journal.txt
picture final.ppm 8 4 =BBBB....\nBBBB....\nBBBB....\nBBBB....

case a view of the last layer comes to the front of its own layer alone
words turns, pair.toml
file pair.toml SEVENTH
file pa.nit PA
more pa.nit =front 1\n
file pb.nit COVERING
file pair.in =phase\n
ends 0 =nitpicker: clients 2 entries 8 frames 1\n
asked =pair.toml pa.nit pb.nit pair.in final.ppm events-a.txt events-b.txt journal.txt
there =pair.toml pa.nit pb.nit pair.in final.ppm events-a.txt events-b.txt journal.txt
picture final.ppm 8 4 =BBBB....\nBBBB....\nBBBB....\nBBBB....

text COLOURED
| buffer 4 2
| fill 0 0 1 1 FF0000
| fill 1 0 1 1 00FF00
| fill 2 0 1 1 0000FF
| fill 3 0 1 1 FFFFFF
| fill 0 1 1 1 808080
| fill 1 1 1 1 7F0000
| fill 2 1 1 1 00007F
| fill 3 1 1 1 000010
| view
| place 1 1 1 4 2

text ORDER
| [screen]
| width = 5
| height = 1
|
| [input]
| script = "order.in"
|
| [[client]]
| label = "a"
| donation = 65536
| script = "a.nit"

text THREE_VIEWS
| buffer 15 1
| fill 0 0 5 1 FF0000
| fill 5 0 5 1 00FF00
| fill 10 0 5 1 0000FF
| view
| view
| view
| place 1 0 0 3 1
| place 2 1 0 3 1
| place 3 2 0 3 1
| offset 2 -5 0
| offset 3 -10 0
| phase
| phase
| above 1 3
| phase
| phase
| above 1 1
| phase
| phase
| back 1

text LAYERS
| [screen]
| width = 7
| height = 1
|
| [input]
| script = "layers.in"
|
| [[client]]
| label = "a"
| donation = 65536
| script = "a.nit"
| layer = 1
|
| [[client]]
| label = "b"
| donation = 65536
| script = "b.nit"

text LAYERED
=layers.toml a.nit b.nit layers.in shot-1.ppm shot-2.ppm final.ppm events-a.txt events-b.txt
= journal.txt

text BEHIND
| buffer 10 1
| fill 0 0 5 1 FF0000
| fill 5 0 5 1 00FF00
| view
| place 1 0 0 4 1
| phase
| phase
| view
| place 2 1 0 4 1
| offset 2 -5 0
| phase
| phase
| front 1
| phase
| phase

text BEFORE
| phase
| buffer 10 1
| fill 0 0 5 1 0000FF
| fill 5 0 5 1 FFFFFF
| view
| place 1 3 0 3 1
| phase
| phase
| phase
| phase
| phase
| view
| place 2 2 0 5 1
| offset 2 -5 0
| back 2

text LAYER_PAIR
| [screen]
| width = 8
| height = 4
|
| [input]
| script = "pair.in"
|
| [[client]]
| label = "a"
| donation = 65536
| script = "pa.nit"
| layer = 1
|
| [[client]]
| label = "b"
| donation = 65536
| script = "pb.nit"

text SEVENTH
| [screen]
| width = 8
| height = 4
|
| [input]
| script = "pair.in"
|
| [[client]]
| label = "a"
| donation = 65536
| script = "pa.nit"
| layer = 7
| focus = "none"
|
| [[client]]
| label = "b"
| donation = 65536
| script = "pb.nit"
| layer = 6

text COVERING
| buffer 4 4
| fill 0 0 4 4 0000FF
| view
| place 1 0 0 4 4
| phase

"#;
