//! How many words of each session a scene loads at each entry.

use crate::checks::same;
use crate::scenes::stage::{Counting, Loads, Stage, TWO, set_up, taken};
use std::alloc::Global;
use std::cell::Cell;
use std::process::Abort;

/// Each pixel that a call makes dirty and that shows a word is loaded once, and nothing else is.
/// The last picture loads all that is shown.
#[test]
fn loads_by_entry(rt: HostRuntime) {
    let alloc = rt.alloc();
    let loads = [Cell::new(0), Cell::new(0)];
    let mut stage = set_up(&rt, alloc, TWO, &loads);
    for line in LINES.lines() {
        assert_loads(&rt, alloc, &mut stage, &loads, line);
    }
    stage.finish(&rt, alloc);
    same(&rt, "last", &taken(&loads), b"88");
}

/// Lines of the clients, and a shot. In front of each stands how many words it loads of the first
/// session, and how many of the second.
const LINES: &str = "\
0 0 0 buffer 4 2
0 0 0 view
8 0 0 place 1 0 0 4 2
0 0 1 buffer 4 2
0 0 1 view
0 8 1 place 1 0 0 4 2
0 0 shot
8 8 1 place 1 4 2 4 2
0 2 1 refresh 1 0 2 1
0 0 1 place 1 40000 0 1 1
";

/// Serves a line, for which as many words are loaded as it says.
fn assert_loads(
    rt: &impl Abort,
    alloc: Global,
    stage: &mut Stage<Counting>,
    loads: &Loads,
    line: &str,
) {
    let [first, b' ', second, b' ', words @ ..] = line.as_bytes() else {
        panic!(rt; "no digits of loads");
    };
    if words == b"shot".as_slice() {
        stage.shoot(rt, alloc);
    } else {
        stage.serve(rt, words);
    }
    same(rt, line, &taken(loads), &[*first, *second]);
}
