//! The command `gen`: generated runs. Whatever the number, and whatever the threads do, they say
//! the same line.

use crate::cases::table::{Case, lines_of};
use crate::cases::{Files, assert_cases, assert_store, over, owned};
use nit_store::MemoryStore;
use std::alloc::Global;
use std::process::Abort;
use std::sync::Wait;
use std::thread::Threads;

#[test]
fn generated_runs(rt: HostRuntime) {
    assert_cases(&rt, rt.alloc(), CASES);
}

/// The files that were made are run as the files of any other configuration, which are asked for in
/// the same order.
#[test]
fn the_files_that_were_made(rt: HostRuntime) {
    let made = ran(&rt, rt.alloc(), "gen, 7", Vec::new(rt.alloc()));
    let files = made_files(&rt, rt.alloc(), &made);
    ran(&rt, rt.alloc(), "run, gen.toml", files);
}

const CASES: &str = r#"

base gen
words gen, 7
ends 0 =nitpicker: clients 8 entries 12260 frames 2\n
asked NAMES
there NAMES
entries 0

case the least number
with gen
words gen, 0
entries 12260
sessions 8

case a run between, of whose first client's lines at least one of each kind is here
with gen
is gen.toml marked 549 850A3D75
holds gen.toml CONFIGURATION
is final.ppm long 230415
is g0.nit marked 33078 669A12F7
is g1.nit marked 33113 8C94D15D
is g2.nit marked 33079 5818F908
is g3.nit marked 33040 D0906836
is g4.nit marked 33053 6E509156
is g5.nit marked 33049 DDBBC430
is g6.nit marked 33083 B7282874
is g7.nit marked 33103 FFD6B93D
is gen.in marked 2252 C21D1337
is g0.nit begins FIRST_LINES
is gen.in begins FIRST_INPUT
entries 12260

case the greatest number
with gen
words gen, 999999999
is g7.nit marked 33048 9752ED7A
is gen.in marked 2246 B044F24F
entries 12260
sessions 8

case where the configuration cannot be put, no run is begun
with gen
fails 1
ends 4 =nitpicker: gen.toml: write fault\n
asked =gen.toml
there =

case where the first script cannot be put, no run is begun
with gen
fails 2
ends 4 =nitpicker: g0.nit: write fault\n
asked =gen.toml g0.nit
there =gen.toml

case where the second script cannot be put, no run is begun
with gen
fails 3
ends 4 =nitpicker: g1.nit: write fault\n
asked =gen.toml g0.nit g1.nit
there =gen.toml g0.nit

case where the third script cannot be put, no run is begun
with gen
fails 4
ends 4 =nitpicker: g2.nit: write fault\n
asked =gen.toml g0.nit g1.nit g2.nit
there =gen.toml g0.nit g1.nit

case where the fourth script cannot be put, no run is begun
with gen
fails 5
ends 4 =nitpicker: g3.nit: write fault\n
asked =gen.toml g0.nit g1.nit g2.nit g3.nit
there =gen.toml g0.nit g1.nit g2.nit

case where the fifth script cannot be put, no run is begun
with gen
fails 6
ends 4 =nitpicker: g4.nit: write fault\n
asked =gen.toml g0.nit g1.nit g2.nit g3.nit g4.nit
there =gen.toml g0.nit g1.nit g2.nit g3.nit

case where the sixth script cannot be put, no run is begun
with gen
fails 7
ends 4 =nitpicker: g5.nit: write fault\n
asked =gen.toml g0.nit g1.nit g2.nit g3.nit g4.nit g5.nit
there =gen.toml g0.nit g1.nit g2.nit g3.nit g4.nit

case where the seventh script cannot be put, no run is begun
with gen
fails 8
ends 4 =nitpicker: g6.nit: write fault\n
asked =gen.toml g0.nit g1.nit g2.nit g3.nit g4.nit g5.nit g6.nit
there =gen.toml g0.nit g1.nit g2.nit g3.nit g4.nit g5.nit

case where the eighth script cannot be put, no run is begun
with gen
fails 9
ends 4 =nitpicker: g7.nit: write fault\n
asked =gen.toml g0.nit g1.nit g2.nit g3.nit g4.nit g5.nit g6.nit g7.nit
there =gen.toml g0.nit g1.nit g2.nit g3.nit g4.nit g5.nit g6.nit

case where the input script cannot be put, no run is begun
with gen
fails 10
ends 4 =nitpicker: gen.in: write fault\n
asked =gen.toml g0.nit g1.nit g2.nit g3.nit g4.nit g5.nit g6.nit g7.nit gen.in
there =gen.toml g0.nit g1.nit g2.nit g3.nit g4.nit g5.nit g6.nit g7.nit

case the eleventh put is that of the run's first picture
with gen
fails 11
ends 4 =nitpicker: shot-1.ppm: write fault\n
asked =gen.toml g0.nit g1.nit g2.nit g3.nit g4.nit g5.nit g6.nit g7.nit gen.in shot-1.ppm
there =gen.toml g0.nit g1.nit g2.nit g3.nit g4.nit g5.nit g6.nit g7.nit gen.in
entries 12260

text NAMES
=gen.toml g0.nit g1.nit g2.nit g3.nit g4.nit g5.nit g6.nit g7.nit gen.in shot-1.ppm final.ppm
= events-g0.txt events-g1.txt events-g2.txt events-g3.txt events-g4.txt events-g5.txt
= events-g6.txt events-g7.txt journal.txt

text CONFIGURATION
| [screen]
| width = 320
| height = 240
|
| [input]
| script = "gen.in"
|
| [[client]]
| label = "g0"
| donation = 262144
| script = "g0.nit"
|
| [[client]]
| label = "g1"
| donation = 262144
| script = "g1.nit"
|
| [[client]]
| label = "g2"
| donation = 262144
| script = "g2.nit"
|
| [[client]]
| label = "g3"
| donation = 262144
| script = "g3.nit"
|
| [[client]]
| label = "g4"
| donation = 262144
| script = "g4.nit"
|
| [[client]]
| label = "g5"
| donation = 262144
| script = "g5.nit"
|
| [[client]]
| label = "g6"
| donation = 262144
| script = "g6.nit"
|
| [[client]]
| label = "g7"
| donation = 262144
| script = "g7.nit"

text FIRST_LINES
| buffer 128 96
| fill 0 0 128 96 AF2EC6
| view
| view
| view
| view
| view
| view
| view
| view
| view
| view
| view
| view
| view
| view
| view
| view
| place 1 229 143 103 16
| place 2 300 72 96 48
| place 3 239 69 101 36
| place 4 109 200 68 57
| place 5 205 230 50 48
| place 6 126 229 43 42
| place 7 251 93 109 42
| place 8 51 -20 102 18
| place 9 48 138 31 18
| place 10 92 232 67 43
| place 11 161 176 116 26
| place 12 203 1 103 68
| place 13 82 172 94 17
| place 14 196 131 61 35
| place 15 31 195 93 25
| place 16 208 188 26 39
| title 1 =w1
| title 2 =w2
| title 3 =w3
| title 4 =w4
| title 5 =w5
| title 6 =w6
| title 7 =w7
| title 8 =w8
| title 9 =w9
| title 10 =w10
| title 11 =w11
| title 12 =w12
| title 13 =w13
| title 14 =w14
| title 15 =w15
| title 16 =w16
| phase
| fill 45 60 61 31 60311F
| check 0 75 5 43 D4F9B9 D1D32D
| place 13 5 63 66 38
| front 15
| back 14
| refresh 4 39 12 47
| take
| offset 11 8 -12

text FIRST_INPUT
| phase
| motion 314 49
| press 272
| release 272
| wheel 1
| motion 270 200

"#;

/// How many files are made.
const MADE: usize = 10;

/// The first files of a store, as many as are made.
fn made_files(rt: &impl Abort, alloc: Global, store: &MemoryStore) -> Files {
    let mut files = Vec::new(alloc);
    for (name, bytes) in store.files().iter().take(MADE) {
        let bytes = bytes.to_vec(alloc).expect(rt, "memory");
        let file = (owned(rt, alloc, name), bytes);
        files.push(file).expect(rt, "memory");
    }
    files
}

/// These words come out as the generated run does, over a store with these files.
fn ran<R: Abort + Threads + Wait + Sync>(
    rt: &R,
    alloc: Global,
    words: &str,
    files: Files,
) -> MemoryStore {
    let title = "the least number";
    let lines = lines_of(rt, alloc, CASES, title);
    let case = Case {
        table: CASES,
        title,
        lines: &lines,
    };
    let (done, store) = over(rt, alloc, &case, words, files);
    assert_store(rt, alloc, &case, &done, &store);
    store
}
