//! Configurations that are refused.

use crate::cases::assert_cases;

#[test]
fn configurations(rt: HostRuntime) {
    assert_cases(&rt, rt.alloc(), CASES);
}

const CASES: &str = r#"

base bad
words turns, two.toml
file two.toml =[screen\nwidth = 8\nheight = 4\n\n[input]\nscript = "two.in"\n\n
more two.toml CLIENTS
file a.nit A
file b.nit B
file two.in INPUT
ends 5 =nitpicker: two.toml: bad configuration: syntax\n
asked =two.toml
there =two.toml a.nit b.nit two.in
entries 0

case a bracket that is not closed
with bad

case a width that is a text
with bad
file two.toml =[screen]\nwidth = "8"\nheight = 4\n\n[input]\nscript = "two.in"\n\n
more two.toml CLIENTS
ends 5 =nitpicker: two.toml: bad configuration: kind\n

case no height
with bad
file two.toml =[screen]\nwidth = 8\n\n[input]\nscript = "two.in"\n\n
more two.toml CLIENTS
ends 5 =nitpicker: two.toml: bad configuration: missing\n

case a key that no table has
with bad
file two.toml =[screen]\ndepth = 24\nwidth = 8\nheight = 4\n\n[input]\nscript = "two.in"\n\n
more two.toml CLIENTS
ends 5 =nitpicker: two.toml: bad configuration: unknown\n

case a donation of 255
with bad
file two.toml SCREEN
more two.toml =[[client]]\nlabel = "a"\ndonation = 255\nscript = "a.nit"\n\n
more two.toml SECOND
ends 5 =nitpicker: two.toml: bad configuration: range\n

case a label with a capital letter
with bad
file two.toml SCREEN
more two.toml =[[client]]\nlabel = "A"\ndonation = 65536\nscript = "a.nit"\n\n
more two.toml SECOND
ends 5 =nitpicker: two.toml: bad configuration: label\n

case two clients of one label
with bad
file two.toml SCREEN
more two.toml =[[client]]\nlabel = "a"\ndonation = 65536\nscript = "a.nit"\n\n
more two.toml =[[client]]\nlabel = "a"\ndonation = 65536\nscript = "b.nit"\n
ends 5 =nitpicker: two.toml: bad configuration: twice\n

case a layer of 8
with bad
file two.toml SCREEN
more two.toml =[[client]]\nlabel = "a"\nlayer = 8\ndonation = 65536\nscript = "a.nit"\n\n
more two.toml SECOND
ends 5 =nitpicker: two.toml: bad configuration: range\n

case a layer of -1
with bad
file two.toml SCREEN
more two.toml =[[client]]\nlabel = "a"\nlayer = -1\ndonation = 65536\nscript = "a.nit"\n\n
more two.toml SECOND
ends 5 =nitpicker: two.toml: bad configuration: range\n

case a focus that is no word for it
with bad
file two.toml SCREEN
more two.toml =[[client]]\nlabel = "a"\nfocus = "always"\ndonation = 65536\nscript = "a.nit"\n\n
more two.toml SECOND
ends 5 =nitpicker: two.toml: bad configuration: range\n

case a layer that is a text
with bad
file two.toml SCREEN
more two.toml =[[client]]\nlabel = "a"\nlayer = "1"\ndonation = 65536\nscript = "a.nit"\n\n
more two.toml SECOND
ends 5 =nitpicker: two.toml: bad configuration: kind\n

case a focus that is no text
with bad
file two.toml SCREEN
more two.toml =[[client]]\nlabel = "a"\nfocus = true\ndonation = 65536\nscript = "a.nit"\n\n
more two.toml SECOND
ends 5 =nitpicker: two.toml: bad configuration: kind\n

case a bar that leaves no row
with bad
file two.toml =[screen]\nwidth = 8\nheight = 7\nbar = true\n\n[input]\nscript = "two.in"\n\n
more two.toml CLIENTS
ends 5 =nitpicker: two.toml: bad configuration: range\n

case a bar that is a number
with bad
file two.toml =[screen]\nwidth = 8\nheight = 8\nbar = 1\n\n[input]\nscript = "two.in"\n\n
more two.toml CLIENTS
ends 5 =nitpicker: two.toml: bad configuration: kind\n

case a width of 0
with bad
file two.toml =[screen]\nwidth = 0\nheight = 4\n\n[input]\nscript = "two.in"\n\n
more two.toml CLIENTS
ends 5 =nitpicker: two.toml: bad configuration: range\n

case a width of 1025
with bad
file two.toml =[screen]\nwidth = 1025\nheight = 4\n\n[input]\nscript = "two.in"\n\n
more two.toml CLIENTS
ends 5 =nitpicker: two.toml: bad configuration: range\n

case a height of 769
with bad
file two.toml =[screen]\nwidth = 8\nheight = 769\n\n[input]\nscript = "two.in"\n\n
more two.toml CLIENTS
ends 5 =nitpicker: two.toml: bad configuration: range\n

case a donation of 8388609
with bad
file two.toml SCREEN
more two.toml =[[client]]\nlabel = "a"\ndonation = 8388609\nscript = "a.nit"\n\n
more two.toml SECOND
ends 5 =nitpicker: two.toml: bad configuration: range\n

case an input script without a name
with bad
file two.toml =[screen]\nwidth = 8\nheight = 4\n\n[input]\nscript = ""\n\n
more two.toml CLIENTS
ends 5 =nitpicker: two.toml: bad configuration: range\n

case a script whose name has a letter outside of ASCII
with bad
file two.toml SCREEN
more two.toml =[[client]]\nlabel = "a"\ndonation = 65536\nscript = "\u00e9"\n\n
more two.toml SECOND
ends 5 =nitpicker: two.toml: bad configuration: range\n

case an empty label
with bad
file two.toml SCREEN
more two.toml =[[client]]\nlabel = ""\ndonation = 65536\nscript = "a.nit"\n\n
more two.toml SECOND
ends 5 =nitpicker: two.toml: bad configuration: label\n

case what is missing comes before a key that no table has, and not by place
with bad
file two.toml =[screen]\nwidth = 8\n\n[input]\nscrip = "two.in"\n\n
more two.toml CLIENTS
ends 5 =nitpicker: two.toml: bad configuration: missing\n

case what is out of range comes before a bad label, and not by place
with bad
file two.toml SCREEN
more two.toml =[[client]]\nlabel = "A"\ndonation = 255\nscript = "a.nit"\n\n
more two.toml SECOND
ends 5 =nitpicker: two.toml: bad configuration: range\n

case no input
with bad
file two.toml =[screen]\nwidth = 8\nheight = 4\n\n
more two.toml CLIENTS
ends 5 =nitpicker: two.toml: bad configuration: missing\n

case no clients
with bad
file two.toml SCREEN
ends 5 =nitpicker: two.toml: bad configuration: missing\n

case an empty file
with bad
file two.toml =
ends 5 =nitpicker: two.toml: bad configuration: missing\n

case a key that stands twice
with bad
file two.toml =[screen]\nwidth = 8\nwidth = 8\nheight = 4\n\n[input]\nscript = "two.in"\n\n
more two.toml CLIENTS

case a key without a value
with bad
file two.toml =[screen]\nwidth =\nheight = 4\n\n[input]\nscript = "two.in"\n\n
more two.toml CLIENTS

case clients that are a number
with bad
file two.toml =client = 3
ends 5 =nitpicker: two.toml: bad configuration: kind\n

case a screen alone
with bad
file two.toml =[screen]\nwidth = 8\nheight = 4\n
ends 5 =nitpicker: two.toml: bad configuration: missing\n

case cut off behind a key
with bad
file two.toml =[screen]\nwidth =

case fifteen clients more, which are seventeen
with bad
file two.toml CONFIG
more two.toml 15 =\n[[client]]\nlabel = "c{0+1}"\ndonation = 65536\nscript = "a.nit"\n
ends 5 =nitpicker: two.toml: bad configuration: too many\n

case a comment makes the file, of 173 bytes, one byte too long
with bad
file two.toml CONFIG
more two.toml =#xxx
more two.toml 65525 =xxxxxxxxxxxxxxxx
ends 5 =nitpicker: two.toml: bad configuration: too long\n

case what a client has where it says nothing may be said
words turns, two.toml
file two.toml =[screen]\nwidth = 8\nheight = 4\nbar = false\n\n[input]\nscript = "two.in"\n\n
more two.toml =[[client]]\nlabel = "a"\nlayer = 0\nfocus = "click"\n
more two.toml =donation = 65536\nscript = "a.nit"\n\n
more two.toml SECOND
file a.nit A
file b.nit B
file two.in INPUT
ends 0 =nitpicker: clients 2 entries 9 frames 2\n
asked =two.toml a.nit b.nit two.in shot-1.ppm final.ppm events-a.txt events-b.txt journal.txt
there =two.toml a.nit b.nit two.in shot-1.ppm final.ppm events-a.txt events-b.txt journal.txt
picture final.ppm 8 4 FINAL
whole JOURNAL

case a file just as long as it may be
words turns, two.toml
file two.toml CONFIG
more two.toml =#xx
more two.toml 65525 =xxxxxxxxxxxxxxxx
file a.nit A
file b.nit B
file two.in INPUT
ends 0 =nitpicker: clients 2 entries 9 frames 2\n
asked =two.toml a.nit b.nit two.in shot-1.ppm final.ppm events-a.txt events-b.txt journal.txt
there =two.toml a.nit b.nit two.in shot-1.ppm final.ppm events-a.txt events-b.txt journal.txt
is two.toml long 1048576
whole JOURNAL

text SCREEN
| [screen]
| width = 8
| height = 4
|
| [input]
| script = "two.in"
|

text CLIENTS
| [[client]]
| label = "a"
| donation = 65536
| script = "a.nit"
|
| [[client]]
| label = "b"
| donation = 65536
| script = "b.nit"

text SECOND
| [[client]]
| label = "b"
| donation = 65536
| script = "b.nit"

"#;
