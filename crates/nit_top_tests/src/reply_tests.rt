//! What a client's calls are answered, by whole runs.

use crate::cases::assert_cases;

#[test]
fn replies(rt: HostRuntime) {
    assert_cases(&rt, rt.alloc(), CASES);
}

const CASES: &str = r#"

base all
words still, 8, 4, a.nit
file a.nit =view\ndestroy 1\nview\nplace 1 0 0 1 1\n
ends 0 =nitpicker: clients 1 entries 6 frames 1\n
asked =a.nit final.ppm
there =a.nit final.ppm

case a handle is not given again
with all
ends 0 =nitpicker: clients 1 entries 5 frames 1\n
replies 0 =handle 1\ndone\nhandle 2\nno-such-view 1\n

case a title that is taken, two that are not, and one of no view
with all
file a.nit =view\ntitle 1 =log 2\ntitle 1 =Log\ntitle 1 =abcdefghijklm\ntitle 2 =\n
replies 0 =handle 1\ndone\nbad-title\nbad-title\nno-such-view 2\n

case views above others and to the back
with all
file a.nit =view\nview\nview\nabove 1 3\nabove 1 1\nabove 1 9\nback 1\n
ends 0 =nitpicker: clients 1 entries 8 frames 1\n
replies 0 =handle 1\nhandle 2\nhandle 3\ndone\ndone\nno-such-view 9\ndone\n

case rectangles and sizes out of range, and calls behind a close
with all
file a.nit A_NIT
ends 0 =nitpicker: clients 1 entries 10 frames 1\n
replies 0 =handle 1\ndone\nbad-rect\nbad-rect\nbad-size\nbad-size\ndone\nclosed\nclosed\n

case an upgrade without a reserve
with all
file a.nit =upgrade 1\n
ends 0 =nitpicker: clients 1 entries 2 frames 1\n
replies 0 =no-reserve 1 0\n

case no event waits
with all
file a.nit =take\nphase\ntake\n
ends 0 =nitpicker: clients 1 entries 3 frames 1\n
replies 0 =no-event\nno-event\n

case handles that no view has
with all
file a.nit =place 1 0 0 1 1\nview\nplace 0 0 0 1 1\n
ends 0 =nitpicker: clients 1 entries 4 frames 1\n
replies 0 =no-such-view 1\nhandle 1\nno-such-view 0\n

case rectangles and offsets just out of range, and an offset in it
with all
file a.nit A_NIT_2
replies 0 =handle 1\nbad-rect\nbad-rect\nbad-rect\ndone\n

case buffers with no column, of the most room, and of more
with all
file a.nit =buffer 1 0\nbuffer 4096 256\nbuffer 4096 257\nview\nfront 1\nbuffer 1001 1\n
ends 0 =nitpicker: clients 1 entries 7 frames 1\n
replies 0 =bad-size\ndone\nout-of-quota 8421376 8388608\nout-of-quota 256 0\nno-such-view 1\ndone\n

case as many views as there may be, and one more
with all
file a.nit VIEWS
ends 0 =nitpicker: clients 1 entries 66 frames 1\n
replies 0 HANDLES

case the views leave 16,384 units less than the whole donation, in which the whole has no room
with all
file a.nit VIEWS_AND_BUFFERS
ends 0 =nitpicker: clients 1 entries 67 frames 1\n
replies 0 ROOM_BESIDE_VIEWS

case titles that are taken, and titles that are not
with all
file a.nit TITLES
ends 0 =nitpicker: clients 1 entries 11 frames 1\n
replies 0 =handle 1\ndone\ndone\ndone\ndone\ndone\nbad-title\nbad-title\nbad-title\nbad-title\n

case a view that goes makes room for another one, which has a handle of its own
with all
file a.nit VIEWS_AGAIN
ends 0 =nitpicker: clients 1 entries 68 frames 1\n
replies 0 HANDLES_AGAIN

base few
words turns, small.toml
file small.toml SMALL
file a.nit =view\nview\nview\n
file no.in =
ends 0 =nitpicker: clients 1 entries 4 frames 1\n
asked =small.toml a.nit no.in final.ppm events-a.txt journal.txt
there =small.toml a.nit no.in final.ppm events-a.txt journal.txt

case as many views as the donation is for, and one more
with few
replies 0 =handle 1\nhandle 2\nout-of-quota 256 0\n

case a second buffer in the place of the first
with few
file a.nit =buffer 4 4\nbuffer 8 8\n
ends 0 =nitpicker: clients 1 entries 3 frames 1\n
replies 0 =done\ndone\n

case a buffer leaves nothing for a view
with few
file a.nit =buffer 4 4\nbuffer 8 8\nview\n
replies 0 =done\ndone\nout-of-quota 256 0\n

case the least donation
with few
file small.toml LEAST
file a.nit =view\nview\n
ends 0 =nitpicker: clients 1 entries 3 frames 1\n
replies 0 =handle 1\nout-of-quota 256 0\n

case the greatest donation
with few
file small.toml GREATEST
file a.nit =buffer 4096 256\nview\n
ends 0 =nitpicker: clients 1 entries 3 frames 1\n
replies 0 =done\nout-of-quota 256 0\n

case a view leaves too little for a second buffer
with few
file a.nit =buffer 4 4\nview\nbuffer 8 8\n
replies 0 =done\nhandle 1\nout-of-quota 512 256\n

case upgrades up to the reserve, and beyond it
with few
file a.nit =view\nview\nupgrade 256\nview\nupgrade 257\nupgrade 256\nupgrade 1\n
ends 0 =nitpicker: clients 1 entries 8 frames 1\n
replies 0 =handle 1\nhandle 2\ndone\nhandle 3\nno-reserve 257 256\ndone\nno-reserve 1 0\n

case a title with what parts a reply from a call and a delivery from a line
with few
file a.nit =view\nview\ntitle 2 =a < b > c\n
holds journal.txt MARKS
replies 0 =handle 1\nhandle 2\nbad-title\n

case a buffer that is refused leaves the one before it
with few
file a.nit =buffer 4 4\nfill 0 0 4 4 FF0000\nview\nplace 1 0 0 8 4\nbuffer 8 8\n
ends 0 =nitpicker: clients 1 entries 5 frames 1\n
picture final.ppm 8 4 HALF
replies 0 =done\nhandle 1\ndone\nout-of-quota 512 256\n

text A_NIT
| view
| place 1 32767 -32768 32767 32767
| place 1 32768 0 1 1
| refresh 0 0 32768 1
| buffer 4097 1
| buffer 0 1
| close
| close
| take

text A_NIT_2
| view
| place 1 0 -32769 1 1
| place 1 0 0 32768 1
| offset 1 -32769 0
| offset 1 32767 -32768

text VIEWS
65 =view\n

text HANDLES
64 =handle {1+1}\n
| too-many-views

text VIEWS_AND_BUFFERS
64 =view\n
| buffer 4096 256
| buffer 4096 255

text ROOM_BESIDE_VIEWS
64 =handle {1+1}\n
| out-of-quota 8388608 8372224
| done

text VIEWS_AGAIN
64 =view\n
| destroy 1
| view
| view

text HANDLES_AGAIN
64 =handle {1+1}\n
| done
| handle 65
| too-many-views

text LEAST
| [screen]
| width = 8
| height = 4
|
| [input]
| script = "no.in"
|
| [[client]]
| label = "a"
| donation = 256
| script = "a.nit"

text GREATEST
| [screen]
| width = 8
| height = 4
|
| [input]
| script = "no.in"
|
| [[client]]
| label = "a"
| donation = 8388608
| script = "a.nit"

text TITLES
| view
| title 1 =
| title 1 =log 2
| title 1 =abcdefghijkl
| title 1 =0-9._ z
| title 1 = 
| title 1 =Log
| title 1 =abcdefghijklm
| title 1 =a:b
| title 1 =a=b

text MARKS
| call 0 handle 1 < view
| call 0 handle 2 < view
| call 0 bad-title < title 2 =a < b > c
| final

text SMALL
| [screen]
| width = 8
| height = 4
|
| [input]
| script = "no.in"
|
| [[client]]
| label = "a"
| donation = 512
| script = "a.nit"

text HALF
| RRRRKKKK
| RRRRKKKK
| RRRRKKKK
| RRRRKKKK

"#;
