//! What clients take of what the user's devices deliver, by whole runs.

use crate::cases::assert_cases;

#[test]
fn takes(rt: HostRuntime) {
    assert_cases(&rt, rt.alloc(), CASES);
}

const CASES: &str = r#"

base pair
words turns, pair.toml
asked =pair.toml pa.nit pb.nit pair.in final.ppm events-a.txt events-b.txt journal.txt
there =pair.toml pa.nit pb.nit pair.in final.ppm events-a.txt events-b.txt journal.txt

case each client takes what was delivered to it
with pair
file pair.toml PAIR
file pa.nit LEFT
more pa.nit 6 =take\n
file pb.nit RIGHT
more pb.nit 2 =take\n
file pair.in DRAG
more pair.in =phase\n
ends 0 =nitpicker: clients 2 entries 20 frames 1\n
holds events-a.txt TAKEN_A
holds events-b.txt TAKEN_B

case of six events it takes one, so five are left
with pair
file pair.toml PAIR
file pa.nit LEFT
more pa.nit =take\n
file pb.nit RIGHT
more pb.nit 2 =take\n
file pair.in DRAG
more pair.in =phase\n
ends 0 =nitpicker: clients 2 entries 15 frames 1\n
holds events-a.txt =motion 1 1\nlost 0\nleft 5\nstate live\n

case the queue keeps 64 of 65 motions
with pair
words turns, full.toml
file full.toml FULL
file fa.nit LEFT
more fa.nit 65 =take\n
file full.in FULL_INPUT
ends 0 =nitpicker: clients 1 entries 134 frames 1\n
asked =full.toml fa.nit full.in final.ppm events-a.txt journal.txt
there =full.toml fa.nit full.in final.ppm events-a.txt journal.txt
holds events-a.txt FULL_EVENTS
whole FULL_ENTRIES

text FULL
| [screen]
| width = 8
| height = 4
|
| [input]
| script = "full.in"
|
| [[client]]
| label = "a"
| donation = 65536
| script = "fa.nit"

text FULL_INPUT
| phase
65 =motion 1 1\n
| phase

text FULL_EVENTS
64 =motion 1 1\n
| lost 1
| left 0
| state live

text TAKEN_A
| motion 1 1
| focus-enter
| press 272
| motion 5 1
| release 272
| leave
| lost 0
| left 0
| state live

text TAKEN_B
| motion 6 1
| lost 0
| left 0
| state live

text FULL_ENTRIES
| call 0 done < buffer 4 4
| call 0 handle 1 < view
| call 0 done < place 1 0 0 4 4
65=input motion 1 1 > 0 motion 1 1\n
64=call 0 event motion 1 1 < take\n
| call 0 no-event < take
| final

"#;
