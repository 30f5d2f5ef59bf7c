//! How many slots, views and sessions a scene has, and words that are drawn in its own glasses.

use crate::checks::{must, same};
use crate::scenes::glasses::glass;
use crate::scenes::stage::{TWO, set_up, set_up_drawn};
use nit_config::{read_config, run_is_configured};
use nit_events::Call;
use nit_scene::{Counts, Scene};
use std::alloc::Global;
use std::cell::Cell;
use std::process::Abort;

#[test]
fn slots_views_and_sessions(rt: HostRuntime) {
    let alloc = rt.alloc();
    let want = Counts {
        reserved: 4,
        used: 2,
        sessions: 1,
    };
    same(&rt, "one client", &counts_of_one(&rt, alloc), &want);
    let loads = [Cell::new(0), Cell::new(0)];
    let mut stage = set_up(&rt, alloc, TWO, &loads);
    for step in DRAG.lines() {
        stage.serve(&rt, step.as_bytes());
    }
    let want = Counts {
        reserved: 128,
        used: 2,
        sessions: 2,
    };
    same(&rt, "two clients", &stage.counts(), &want);
}

/// The uncovered row is loaded through the scene's own glass, in which one word was drawn.
#[test]
fn words_of_a_scene(rt: HostRuntime) {
    let loads = [Cell::new(0), Cell::new(0)];
    let mut stage = set_up_drawn(&rt, rt.alloc(), TWO, &loads);
    for step in COVERED.lines() {
        stage.serve(&rt, step.as_bytes());
    }
    #[rattlefmt::skip]
    let want = [
        0x000000, 0xFF0000, 0xFF0000, 0xFF0000, 0x000020, 0x000020, 0x000020, 0x000020,
        0xFF0000, 0xFF0000, 0xFF0000, 0xFF0000, 0x000020, 0x000020, 0x000020, 0x000020,
    ];
    same(
        &rt,
        "rows 0 and 1",
        &stage.frame().get(..16),
        &Some(want.as_slice()),
    );
}

/// A client whose donation is enough for two views, and could be raised to be enough for four.
const ONE: &str = "[screen]\nwidth = 8\nheight = 4\n\n[input]\nscript = \"i\"\n\n\
                   [[client]]\nlabel = \"a\"\ndonation = 512\nscript = \"a\"\n";

/// A view of each client, and a drag from the one to the other.
const DRAG: &str = "\
0 buffer 4 4
0 view
0 place 1 0 0 4 4
1 buffer 4 4
1 view
1 place 1 4 0 4 4
motion 1 1
press 272
motion 5 1
release 272
motion 6 1
";

/// The red view is covered by another one, which goes again.
const COVERED: &str = "\
0 buffer 4 2
0 view
0 place 1 0 0 4 2
1 view
1 place 1 0 0 4 1
1 destroy 1
";

/// The counts of a scene with one client, after it has asked for a third view.
fn counts_of_one(rt: &impl Abort, alloc: Global) -> Counts {
    run_is_configured();
    let config = read_config(alloc, ONE.as_bytes()).expect(rt, "a configuration");
    must(rt, ONE, config.clients.len() == 1);
    let mut all = Vec::with_capacity(alloc, 1).expect(rt, "memory for a glass");
    all.push_reserved(glass(rt, alloc, &config, 0, 0xFF0000));
    let mut scene = Scene::new(alloc, &config, all, 3).expect(rt, "memory for a scene");
    let mut own = glass(rt, alloc, &config, 0, 0xFF0000);
    let _first = scene.call(0, &Call::View, &mut own);
    let mut own = glass(rt, alloc, &config, 0, 0xFF0000);
    let _second = scene.call(0, &Call::View, &mut own);
    let mut own = glass(rt, alloc, &config, 0, 0xFF0000);
    let _refused = scene.call(0, &Call::View, &mut own);
    scene.counts()
}
