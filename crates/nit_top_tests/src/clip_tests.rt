//! Runs with clip scripts: the worked rows, clip scripts that are refused, and puts that are.

use crate::cases::assert_cases;

/// Whatever the threads do, it comes out so.
#[test]
fn two_clients_with_a_clipboard(rt: HostRuntime) {
    for _round in 0..20 {
        assert_cases(&rt, rt.alloc(), WORKED);
    }
}

#[test]
fn clips(rt: HostRuntime) {
    assert_cases(&rt, rt.alloc(), CASES);
}

const WORKED: &str = r#"

case a copy and two pastes beside each other come in one of twelve orders
words clip, pair.toml
file pair.toml CLIP_PAIR
file pa.nit LEFT
file pb.nit RIGHT
file clip.in CLICK
file pa.nit.clip COPIES
file pb.nit.clip PASTES
ends 0 =nitpicker: clients 2 entries 10 frames 1\n
asked CLIPPED
there CLIPPED
entries 10
is clip.txt one-of 3A 3B 3C 4A 4B 4C 5A 5B 5C 6A 6B 6C

text 3A
| clip 3 0 not-focused < paste
| clip 9 0 copied < copy =hi
| clip 9 0 pasted =hi < paste
| clip 9 1 not-focused < paste

text 3B
| clip 3 0 not-focused < paste
| clip 9 0 copied < copy =hi
| clip 9 1 not-focused < paste
| clip 9 0 pasted =hi < paste

text 3C
| clip 3 0 not-focused < paste
| clip 9 1 not-focused < paste
| clip 9 0 copied < copy =hi
| clip 9 0 pasted =hi < paste

text 4A
| clip 4 0 not-focused < paste
| clip 9 0 copied < copy =hi
| clip 9 0 pasted =hi < paste
| clip 9 1 not-focused < paste

text 4B
| clip 4 0 not-focused < paste
| clip 9 0 copied < copy =hi
| clip 9 1 not-focused < paste
| clip 9 0 pasted =hi < paste

text 4C
| clip 4 0 not-focused < paste
| clip 9 1 not-focused < paste
| clip 9 0 copied < copy =hi
| clip 9 0 pasted =hi < paste

text 5A
| clip 5 0 not-focused < paste
| clip 9 0 copied < copy =hi
| clip 9 0 pasted =hi < paste
| clip 9 1 not-focused < paste

text 5B
| clip 5 0 not-focused < paste
| clip 9 0 copied < copy =hi
| clip 9 1 not-focused < paste
| clip 9 0 pasted =hi < paste

text 5C
| clip 5 0 not-focused < paste
| clip 9 1 not-focused < paste
| clip 9 0 copied < copy =hi
| clip 9 0 pasted =hi < paste

text 6A
| clip 6 0 not-focused < paste
| clip 9 0 copied < copy =hi
| clip 9 0 pasted =hi < paste
| clip 9 1 not-focused < paste

text 6B
| clip 6 0 not-focused < paste
| clip 9 0 copied < copy =hi
| clip 9 1 not-focused < paste
| clip 9 0 pasted =hi < paste

text 6C
| clip 6 0 not-focused < paste
| clip 9 1 not-focused < paste
| clip 9 0 copied < copy =hi
| clip 9 0 pasted =hi < paste

"#;

const CASES: &str = r#"

base clip
words clip, pair.toml
entries 0

case a client alone that is focused by a click and only pastes
with clip
file pair.toml ONE
file pa.nit LEFT
file clip.in CLICK
file pa.nit.clip PASTES
ends 0 =nitpicker: clients 1 entries 7 frames 1\n
asked =pair.toml pa.nit clip.in pa.nit.clip final.ppm events-a.txt journal.txt clip.txt
there =pair.toml pa.nit clip.in pa.nit.clip final.ppm events-a.txt journal.txt clip.txt
entries 7
holds clip.txt =clip 6 0 empty < paste\n

base turn
words clip, pair.toml
file pair.toml CLIP_PAIR
file pa.nit FIRST_PHASE
file pb.nit SECOND_PHASE
file clip.in CLICK_IN_THIRD
ends 0 =nitpicker: clients 2 entries 10 frames 1\n
asked CLIPPED
there CLIPPED
entries 10

case in each phase one actor acts, so there is one order of the clip calls
with turn
file pa.nit.clip FIRST_IN_TURN
file pb.nit.clip SECOND_IN_TURN
holds clip.txt IN_TURN

case what a client copies without the focus is not there for the other one
with turn
file pa.nit.clip PASTING
file pb.nit.clip COPYING_UNFOCUSED
holds clip.txt NOTHING_COPIED

case a clip script that is not there
with clip
file pair.toml CLIP_PAIR
file pa.nit LEFT
file pb.nit RIGHT
file clip.in CLICK
file pa.nit.clip COPIES
ends 3 =nitpicker: pb.nit.clip: read fault\n
asked =pair.toml pa.nit pb.nit clip.in pa.nit.clip pb.nit.clip
there =pair.toml pa.nit pb.nit clip.in pa.nit.clip

case a clip script that cannot be read
with clip
file pair.toml CLIP_PAIR
file pa.nit LEFT
file pb.nit RIGHT
file clip.in CLICK
file pa.nit.clip COPIES
file pb.nit.clip PASTES
fails 5
ends 3 =nitpicker: pa.nit.clip: read fault\n
asked =pair.toml pa.nit pb.nit clip.in pa.nit.clip
there =pair.toml pa.nit pb.nit clip.in pa.nit.clip pb.nit.clip

case no clip list is put behind a put that was refused
with clip
file pair.toml CLIP_PAIR
file pa.nit LEFT
file pb.nit RIGHT
file clip.in CLICK
file pa.nit.clip COPIES
file pb.nit.clip PASTES
fails 10
ends 4 =nitpicker: journal.txt: write fault\n
asked NAMES
there =pair.toml pa.nit pb.nit clip.in pa.nit.clip pb.nit.clip final.ppm events-a.txt events-b.txt
entries 10

case where the clip list cannot be put, all else is there
with clip
file pair.toml CLIP_PAIR
file pa.nit LEFT
file pb.nit RIGHT
file clip.in CLICK
file pa.nit.clip COPIES
file pb.nit.clip PASTES
fails 11
ends 4 =nitpicker: clip.txt: write fault\n
asked CLIPPED
there NAMES
entries 10

text ONE
| [screen]
| width = 8
| height = 4
|
| [input]
| script = "clip.in"
|
| [[client]]
| label = "a"
| donation = 65536
| script = "pa.nit"

text NAMES
=pair.toml pa.nit pb.nit clip.in pa.nit.clip pb.nit.clip final.ppm events-a.txt events-b.txt
= journal.txt

text FIRST_PHASE
| buffer 4 4
| fill 0 0 4 4 FF0000
| view
| place 1 0 0 4 4
5 =phase\n

text SECOND_PHASE
| phase
| buffer 4 4
| fill 0 0 4 4 0000FF
| view
| place 1 4 0 4 4
4 =phase\n

text CLICK_IN_THIRD
| phase
| phase
| motion 1 1
| press 272
| release 272
| phase
| phase
| phase

text FIRST_IN_TURN
| paste
| phase
| phase
| phase
| copy =hi
| phase
| phase
| paste

text SECOND_IN_TURN
4 =phase\n
| paste
| phase

text IN_TURN
| clip 3 0 not-focused < paste
| clip 9 0 copied < copy =hi
| clip 9 1 not-focused < paste
| clip 9 0 pasted =hi < paste

text PASTING
3 =phase\n
| paste
| phase
| phase
| paste

text COPYING_UNFOCUSED
4 =phase\n
| copy =
| phase

text NOTHING_COPIED
| clip 9 0 empty < paste
| clip 9 1 not-focused < copy =
| clip 9 0 empty < paste

"#;
