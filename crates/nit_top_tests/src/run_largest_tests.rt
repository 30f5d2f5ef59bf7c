//! The command `run` on the largest screen, of 1024 by 768, with three clients, each on a thread of
//! its own.

use crate::cases::table::{Case, lines_of};
use crate::cases::{assert_cases, bytes_of, files, over};
use crate::checks::{found, must, same};
use std::alloc::Global;
use std::process::Abort;
use std::sync::Wait;
use std::thread::Threads;

#[test]
fn three_clients(rt: HostRuntime) {
    assert_cases(&rt, rt.alloc(), CASES);
}

/// In layers no thread changes what stands in front, and the last picture is that of the run by
/// turns.
#[test]
fn three_clients_as_by_turns(rt: HostRuntime) {
    let beside = last_picture(&rt, rt.alloc(), "run, desk.toml");
    let by_turns = last_picture(&rt, rt.alloc(), "turns, desk.toml");
    must(&rt, "the same picture", beside == by_turns);
}

const CASES: &str = r#"

case all clients in one layer
words run, desk.toml
file desk.toml TOGETHER
file term.nit TERMINAL
file web.nit BROWSER
file stat.nit STATUS
file desk.in USER
ends 0 =nitpicker: clients 3 entries 245 frames 3\n
asked NAMES
there NAMES
entries 245
is final.ppm long 2359312
is final.ppm all 64 2236432
sessions 3

case each client in a layer of its own
words run, desk.toml
file desk.toml APART
file term.nit TERMINAL
file web.nit BROWSER
file stat.nit STATUS
file desk.in USER
ends 0 =nitpicker: clients 3 entries 245 frames 3\n
asked NAMES
there NAMES
entries 245
sessions 3

text TOGETHER
| [screen]
| width = 1024
| height = 768
|
| [input]
| script = "desk.in"
|
| [[client]]
| label = "terminal"
| donation = 4194304
| script = "term.nit"
| layer = 0
|
| [[client]]
| label = "browser"
| donation = 6815744
| script = "web.nit"
| layer = 0
|
| [[client]]
| label = "status"
| donation = 524288
| script = "stat.nit"
| layer = 0

text TERMINAL
| buffer 800 500
25 =fill 0 {0+20} 640 16 00FF00\n
5 =view\n
5 =place {1+1} {40+40} {30+30} 400 250\n
5 =title {1+1} =tab {1+1}\n
| refresh 0 0 800 500
| phase

text BROWSER
| buffer 1000 700
| fill 0 0 1000 700 FFFFFF
25 =fill 20 {0+28} 900 12 202020\n
5 =view\n
5 =place {1+1} {320+20} {140+40} 600 400\n
5 =title {1+1} =page {1+1}\n
| refresh 0 0 1000 700
| phase

text STATUS
| buffer 1024 40
| fill 0 0 1024 40 404040
| view
| view
| place 1 0 728 512 40
| place 2 512 728 512 40
| title 1 =left
| title 2 =right
| refresh 0 0 1024 40
| phase

text USER
| phase
49 =motion {0+20} {0+15}\npress 272\nrelease 272\nwheel 1\n
| press 70
| shot
| press 70
| press 99
| shot
| press 99

text NAMES
=desk.toml term.nit web.nit stat.nit desk.in shot-1.ppm shot-2.ppm final.ppm events-terminal.txt
= events-browser.txt events-status.txt journal.txt

text APART
| [screen]
| width = 1024
| height = 768
|
| [input]
| script = "desk.in"
|
| [[client]]
| label = "terminal"
| donation = 4194304
| script = "term.nit"
| layer = 2
|
| [[client]]
| label = "browser"
| donation = 6815744
| script = "web.nit"
| layer = 1
|
| [[client]]
| label = "status"
| donation = 524288
| script = "stat.nit"
| layer = 0

"#;

/// The last picture of this run, where each client has a layer of its own.
fn last_picture<R: Abort + Threads + Wait + Sync>(rt: &R, alloc: Global, words: &str) -> Vec<u8> {
    let title = "each client in a layer of its own";
    let lines = lines_of(rt, alloc, CASES, title);
    let case = Case {
        table: CASES,
        title,
        lines: &lines,
    };
    let files = files(rt, alloc, &case);
    let (done, store) = over(rt, alloc, &case, words, files);
    same(rt, words, &done.status, &0);
    let picture = found(rt, words, bytes_of(store.files(), "final.ppm"));
    picture.to_vec(alloc).expect(rt, "memory")
}
