//! Pictures of four columns and three rows. The rectangles were found by hand.

ghost use Rattle.nit_rect.specs.Rectangle.{rectangle};
ghost use Rattle.nit_look.specs.Look.{LiesOn};

use crate::checks::must;
use nit_look::look;
use nit_rect::Rect;
use std::process::Abort;
use std::rt::HostRuntime;

#[test]
fn the_least_rectangle_is_found(rt: HostRuntime) {
    let all = part(&rt, 0, 0, 4, 3);
    let two = (Rect::new(1, 1, 3, 2), &TWO);
    expect(&rt, "two pixels in two rows", &TWO, &all, two);
    let corners = (Rect::new(0, 0, 4, 3), &CORNERS);
    expect(&rt, "two corners", &CORNERS, &all, corners);
    expect(&rt, "nothing differs", &BEFORE, &all, (None, &BEFORE));
}

#[test]
fn a_part_alone_is_looked_at(rt: HostRuntime) {
    let corner = part(&rt, 2, 1, 2, 2);
    let last = (Rect::new(3, 2, 1, 1), &LAST);
    expect(&rt, "one of two corners", &CORNERS, &corner, last);
    let middle = part(&rt, 1, 0, 2, 3);
    expect(&rt, "neither corner", &CORNERS, &middle, (None, &BEFORE));
}

const BEFORE: [u32; 12] = [
    1, 1, 1, 1, //
    1, 1, 1, 1, //
    1, 1, 1, 1,
];

/// Two pixels differ, in rows that follow each other.
const TWO: [u32; 12] = [
    1, 1, 1, 1, //
    1, 1, 1, 7, //
    1, 5, 1, 1,
];

/// The first and the last pixel differ.
const CORNERS: [u32; 12] = [
    2, 1, 1, 1, //
    1, 1, 1, 1, //
    1, 1, 1, 2,
];

/// The last pixel alone differs.
const LAST: [u32; 12] = [
    1, 1, 1, 1, //
    1, 1, 1, 1, //
    1, 1, 1, 2,
];

/// What a look finds, and what it leaves.
type Want<'a> = (Option<Rect>, &'a [u32; 12]);

/// Looks twice at the part of a picture. The second time nothing differs.
fn expect(rt: &impl Abort, title: &str, now: &[u32; 12], part: &Rect, want: Want)
    requires { LiesOn 4 3 part.now }
{
    let (rect, left) = want;
    let mut out = BEFORE;
    let found = look(now, 4, 3, part, &mut out);
    must(rt, title, found == rect);
    let again = look(now, 4, 3, part, &mut out);
    must(rt, title, again.is_none());
    must(rt, title, out == *left);
}

/// A part of a picture.
fn part(rt: &impl Abort, x: i32, y: i32, w: u32, h: u32) -> Rect
    requires { LiesOn 4 3 (rectangle x y w h) }
    ensures { LiesOn 4 3 result }
{
    Rect::new(x, y, w, h).expect(rt, "numbers in range")
}
