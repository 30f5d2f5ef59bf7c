//! Where labels stand.

ghost use Rattle.std.specs.Prelude.{◌≡◌, true};
ghost use Rattle.nit_stack.specs.Stack.{has_slot};

use crate::checks::same;
use crate::parts::screens::{Numbers, three_views, within};
use nit_place::place_label;
use nit_rect::Point;
use nit_stack::{Stack, ViewRef};
use std::alloc::Global;
use std::process::Abort;

#[test]
fn places(rt: HostRuntime) {
    for of in CASES {
        assert_places(&rt, rt.alloc(), of);
    }
}

/// A label stands with its corner there.
macro_rules! at {
    ($x:expr, $y:expr) => {
        Some(Point { x: $x, y: $y })
    };
}

const CASES: &[Case] = &[
    // The label of nine columns fills the free part of its view exactly.
    Case {
        name: "free part filled",
        size: [12, 7, 0],
        views: [(0, 0, 12, 7), (0, 0, 3, 7), NOTHING],
        rows: &[
            (BACK, [9, 7], at!(3, 0)),
            (LEFT, [5, 7], None),
            (LEFT, [3, 7], at!(0, 0)),
        ],
    },
    Case {
        name: "too narrow",
        size: [12, 7, 0],
        views: [(0, 0, 12, 7), (0, 0, 4, 7), NOTHING],
        rows: &[(BACK, [9, 7], None), (LEFT, [5, 7], None)],
    },
    // A view that begins left of the screen and above it shows six columns and seven rows of it.
    Case {
        name: "view beyond the corner",
        size: [12, 7, 0],
        views: [(-5, -3, 11, 20), NOTHING, NOTHING],
        rows: &[
            (BACK, [5, 7], at!(0, 0)),
            (BACK, [6, 7], at!(0, 0)),
            (BACK, [7, 7], None),
            (BACK, [6, 8], None),
        ],
    },
    Case {
        name: "view left of the screen",
        size: [12, 7, 0],
        views: [(-5, -3, 5, 20), NOTHING, NOTHING],
        rows: &[(BACK, [1, 1], None)],
    },
    Case {
        name: "view beyond the right edge",
        size: [12, 7, 0],
        views: [(8, 0, 20, 7), NOTHING, NOTHING],
        rows: &[(BACK, [4, 7], at!(8, 0)), (BACK, [5, 7], None)],
    },
    // Below the bar.
    Case {
        name: "view below the bar",
        size: [12, 20, 7],
        views: [(2, 3, 8, 12), NOTHING, NOTHING],
        rows: &[
            (BACK, [5, 7], at!(2, 7)),
            (BACK, [8, 8], at!(2, 7)),
            (BACK, [5, 9], None),
        ],
    },
    Case {
        name: "view under the bar",
        size: [12, 20, 7],
        views: [(0, 0, 12, 7), NOTHING, NOTHING],
        rows: &[(BACK, [1, 1], None)],
    },
    Case {
        name: "view that fits below the bar",
        size: [12, 20, 7],
        views: [(2, 9, 8, 7), NOTHING, NOTHING],
        rows: &[(BACK, [5, 7], at!(2, 9))],
    },
    // Two views in front leave the columns 6 to 10.
    Case {
        name: "between two views",
        size: [20, 10, 0],
        views: [(0, 0, 20, 10), (0, 0, 6, 10), (11, 0, 9, 10)],
        rows: &[
            (BACK, [5, 7], at!(6, 0)),
            (BACK, [6, 7], None),
            (RIGHT, [9, 7], at!(11, 0)),
        ],
    },
    // The row above counts before the column further left.
    Case {
        name: "row above first",
        size: [20, 10, 0],
        views: [(0, 0, 20, 10), (0, 0, 10, 2), NOTHING],
        rows: &[
            (BACK, [10, 7], at!(10, 0)),
            (BACK, [11, 7], at!(0, 2)),
            (BACK, [11, 9], None),
        ],
    },
    Case {
        name: "row below first",
        size: [20, 10, 0],
        views: [(0, 0, 20, 10), (0, 0, 20, 2), (0, 2, 15, 2)],
        rows: &[(BACK, [5, 5], at!(15, 2)), (BACK, [6, 5], at!(0, 4))],
    },
    // A view in front without columns or rows covers nothing, and neither does a view behind.
    Case {
        name: "nothing in front",
        size: [12, 7, 0],
        views: [(0, 0, 12, 7), (3, 2, 0, 5), (3, 2, 5, 0)],
        rows: &[
            (BACK, [9, 7], at!(0, 0)),
            (LEFT, [1, 1], None),
            (RIGHT, [1, 1], None),
        ],
    },
    Case {
        name: "all covered",
        size: [12, 7, 0],
        views: [(0, 0, 12, 7), (0, 0, 12, 7), (0, 0, 12, 7)],
        rows: &[
            (RIGHT, [12, 7], at!(0, 0)),
            (LEFT, [1, 1], None),
            (BACK, [1, 1], None),
        ],
    },
];

/// The width, the height and the bar of a screen, its views from the back to the front, and where
/// labels stand.
struct Case {
    name: &'static str,
    size: [u32; 3],
    views: [Numbers; 3],
    rows: &'static [Row],
}

/// A view, the width and the height of a label, and its place.
type Row = (ViewRef, [u32; 2], Option<Point>);

const BACK: ViewRef = ViewRef(0);

const LEFT: ViewRef = ViewRef(1);

const RIGHT: ViewRef = ViewRef(2);

/// A view without columns and rows.
const NOTHING: Numbers = (0, 0, 0, 0);

/// Each label of a screen stands where it is to.
fn assert_places(rt: &impl Abort, alloc: Global, of: &Case) {
    let stack = three_views(rt, alloc, of.size, of.views);
    for (view, size, want) in of.rows {
        same(rt, of.name, &place(rt, &stack, *view, *size), want);
    }
}

/// Where the label of a view stands, which is one of the three.
fn place(rt: &impl Abort, stack: &Stack, view: ViewRef, size: [u32; 2]) -> Option<Point>
    requires back { has_slot 0 stack.now.views ≡ true }
    requires left { has_slot 1 stack.now.views ≡ true }
    requires right { has_slot 2 stack.now.views ≡ true }
{
    let (w, h) = (within(rt, size[0], 133), within(rt, size[1], 133));
    match view {
        BACK => place_label(stack, BACK, w, h),
        LEFT => place_label(stack, LEFT, w, h),
        _ => place_label(stack, RIGHT, w, h),
    }
}
