//! Areas that are added one after the other. What they become was worked out by hand.

use crate::checks::must;
use nit_look::{Area, Parts};
use std::process::Abort;
use std::rt::HostRuntime;

#[test]
fn areas_that_meet_become_one(rt: HostRuntime) {
    let two = [area(0, 0, 2, 2), area(2, 0, 4, 2)];
    expect(&rt, "side by side", &two, &two);
    let corner = [area(0, 0, 2, 2), area(1, 1, 3, 4)];
    expect(&rt, "at a corner", &corner, &[area(0, 0, 3, 4)]);
    let inside = [area(0, 0, 4, 4), area(1, 1, 2, 2)];
    expect(&rt, "inside", &inside, &[area(0, 0, 4, 4)]);
    let bridge = [area(0, 0, 2, 10), area(5, 8, 6, 9), area(1, 0, 7, 1)];
    expect(
        &rt,
        "with the area round both",
        &bridge,
        &[area(0, 0, 7, 10)],
    );
    let none = [area(3, 3, 3, 9), area(5, 5, 9, 5)];
    expect(&rt, "without pixels", &none, &[]);
}

#[test]
fn the_seventeenth_joins_the_nearest(rt: HostRuntime) {
    let mut parts = Parts::none();
    for i in 0..16 {
        parts.add(&area(4 * i, 0, 4 * i + 1, 1));
    }
    must(&rt, "sixteen", parts.as_slice().len() == 16);
    parts.add(&area(10, 0, 11, 2));
    must(&rt, "no more", parts.as_slice().len() == 16);
    must(
        &rt,
        "the last",
        parts.as_slice().last() == Some(&area(8, 0, 11, 2)),
    );
    let all = parts.around();
    must(&rt, "round all", all == area(0, 0, 61, 2));
}

/// Adds areas one after the other, and looks at what they become.
fn expect(rt: &impl Abort, title: &str, added: &[Area], want: &[Area]) {
    let mut parts = Parts::none();
    for area in added {
        parts.add(area);
    }
    must(rt, title, parts.as_slice() == want);
}

/// The columns from `left` to before `right`, in the rows from `top` to before `bottom`.
fn area(left: u32, top: u32, right: u32, bottom: u32) -> Area {
    Area {
        left,
        top,
        right,
        bottom,
    }
}
