//! The frame that a scene keeps, against the one that is made anew of the same state.

use crate::scenes::stage::{TWO, set_up};
use std::alloc::Global;
use std::cell::Cell;
use std::process::Abort;

#[test]
fn run_with_a_kill(rt: HostRuntime) {
    assert_run(&rt, rt.alloc(), TWO, KILL_STEPS);
}

#[test]
fn run_in_xray_mode(rt: HostRuntime) {
    assert_run(&rt, rt.alloc(), LABELS, XRAY_STEPS);
}

#[test]
fn run_with_the_bar(rt: HostRuntime) {
    assert_run(&rt, rt.alloc(), BAR, BAR_STEPS);
}

/// A client is locked out, and the other stays.
const KILL_STEPS: &str = "\
0 buffer 4 4
0 view
0 place 1 0 0 4 4
1 buffer 4 4
1 view
1 place 1 4 0 4 4
motion 1 1
press 272
release 272
press 99
press 272
release 272
0 take
0 view
0 close
1 take
";

/// Two views in X-ray mode, which change there.
const XRAY_STEPS: &str = "\
0 buffer 12 7
0 view
0 place 1 0 0 12 7
1 buffer 4 7
1 view
1 place 1 0 0 3 7
press 70
1 place 1 9 0 3 7
0 front 1
1 refresh 0 0 4 7
0 back 1
1 offset 1 1 1
1 buffer 2 2
1 destroy 1
press 70
0 offset 1 -3 2
";

/// The status bar in all three modes: a click on a view, a click in the bar, and the end of the
/// session that has the focus.
const BAR_STEPS: &str = "\
0 buffer 20 16
0 view
0 place 1 0 0 20 16
1 buffer 20 16
1 view
1 place 1 20 0 20 16
motion 1 9
press 272
release 272
motion 1 1
press 272
release 272
press 70
motion 30 9
press 272
release 272
motion 30 1
press 272
release 272
press 99
press 272
release 272
press 99
motion 1 9
press 272
release 272
0 close
motion 30 9
press 272
release 272
press 70
1 close
";

/// Two clients on a screen of 12 by 7.
const LABELS: &str = "[screen]\nwidth = 12\nheight = 7\n\n[input]\nscript = \"i\"\n\n\
                      [[client]]\nlabel = \"ab\"\ndonation = 65536\nscript = \"a\"\n\n\
                      [[client]]\nlabel = \"b\"\ndonation = 65536\nscript = \"b\"\n";

/// Two clients on a screen of 40 by 16 with the status bar.
const BAR: &str = "[screen]\nwidth = 40\nheight = 16\nbar = true\n\n[input]\nscript = \"i\"\n\n\
                   [[client]]\nlabel = \"ab\"\ndonation = 65536\nscript = \"a\"\n\n\
                   [[client]]\nlabel = \"b\"\ndonation = 65536\nscript = \"b\"\n";

/// It is so before the first step of a run and after each.
fn assert_run(rt: &impl Abort, alloc: Global, text: &str, steps: &str) {
    for count in 0..=steps.lines().count() {
        assert_steps(rt, alloc, text, steps, count);
    }
}

/// The frame that a scene keeps after so many steps is the one that is made anew.
fn assert_steps(rt: &impl Abort, alloc: Global, text: &str, steps: &str, count: usize) {
    let loads = [Cell::new(0), Cell::new(0)];
    let mut stage = set_up(rt, alloc, text, &loads);
    for step in steps.lines().take(count) {
        stage.serve(rt, step.as_bytes());
    }
    stage.finish(rt, alloc);
}
