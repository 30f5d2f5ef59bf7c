//! Rectangles inside others, and the order of a stack.

use crate::checks::same;
use crate::parts::screens::{Numbers, rect, three_views};
use nit_stack::ViewRef;
use std::process::Abort;

#[test]
fn rectangles_inside_others(rt: HostRuntime) {
    for row in &ROWS {
        assert_inside(&rt, row);
    }
}

/// Three views, of which each was put in front of all before it.
#[test]
fn from_the_front_to_the_back(rt: HostRuntime) {
    let all = (0, 0, 12, 7);
    let stack = three_views(&rt, rt.alloc(), [12, 7, 0], [all, all, all]);
    let found = [
        stack.first(),
        stack.next(ViewRef(2)),
        stack.next(ViewRef(1)),
        stack.next(ViewRef(0)),
    ];
    let want = [Some(ViewRef(2)), Some(ViewRef(1)), Some(ViewRef(0)), None];
    same(&rt, "first and next", &found, &want);
}

/// A title, a rectangle, another one, and whether that covers all of it.
type Row = (&'static str, Numbers, Numbers, bool);

const ROWS: [Row; 8] = [
    ("in the middle", (1, 1, 2, 2), (0, 0, 4, 4), true),
    ("the same", (0, 0, 4, 4), (0, 0, 4, 4), true),
    ("around it", (0, 0, 4, 4), (1, 1, 2, 2), false),
    ("beyond the right edge", (3, 1, 2, 2), (0, 0, 4, 4), false),
    ("beyond the lower edge", (1, 3, 2, 2), (0, 0, 4, 4), false),
    ("beyond the left edge", (-1, 0, 2, 2), (0, 0, 4, 4), false),
    ("beyond the upper edge", (0, -1, 2, 2), (0, 0, 4, 4), false),
    ("without columns", (9, 9, 0, 5), (0, 0, 4, 4), true),
];

fn assert_inside(rt: &impl Abort, row: &Row) {
    let (title, inner, outer, want) = *row;
    let found = rect(rt, inner).inside(&rect(rt, outer));
    same(rt, title, &found, &want);
}
