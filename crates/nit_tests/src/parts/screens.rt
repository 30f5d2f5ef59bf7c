//! Screens with three views.

ghost use Rattle.std.specs.Prelude.{◌≡◌, ◌≤◌, true};
ghost use Rattle.nit_stack.specs.Stack.{empty_stack, has_slot};

use crate::checks::must;
use nit_rect::Rect;
use nit_stack::{Stack, ViewRef};
use std::alloc::Global;
use std::process::Abort;

/// The column, the row, the width and the height of a rectangle.
pub type Numbers = (i32, i32, u32, u32);

/// The rectangle of these numbers.
pub fn rect(rt: &impl Abort, numbers: Numbers) -> Rect {
    let (x, y, w, h) = numbers;
    Rect::new(x, y, w, h).expect(rt, "in range")
}

/// The number, which is from 1 to the most that it may be.
pub fn within(rt: &impl Abort, number: u32, most: u32) -> u32
    ensures same { result ≡ number }
    ensures least { 1 ≤ result }
    ensures most { result ≤ most }
{
    must(rt, "none", 1 <= number);
    must(rt, "too many", number <= most);
    number
}

/// A screen of this width, height and bar, with a view at the back, and two views of another
/// session in front of it.
pub fn three_views(rt: &impl Abort, alloc: Global, size: [u32; 3], views: [Numbers; 3]) -> Stack
    ensures back { has_slot 0 result.views ≡ true }
    ensures middle { has_slot 1 result.views ≡ true }
    ensures front { has_slot 2 result.views ≡ true }
{
    let [width, height, bar] = size;
    let (width, height) = (within(rt, width, 1024), within(rt, height, 768));
    assert!(rt; (bar == 0 || bar == 7) && bar < height);
    let mut stack = Stack::new(alloc, width, height, 2, 3).expect(rt, "memory");
    stack.set_bar(bar);
    put_views(rt, &mut stack, width, height, bar, views);
    stack
}

/// Puts the views on the screen.
fn put_views(
    rt: &impl Abort,
    stack: &mut Stack,
    width: u32,
    height: u32,
    bar: u32,
    views: [Numbers; 3],
)
    requires empty { stack.old ≡ record (empty_stack width height 2 3) { bar = bar } }
    ensures back { has_slot 0 stack.new.views ≡ true }
    ensures middle { has_slot 1 stack.new.views ≡ true }
    ensures front { has_slot 2 stack.new.views ≡ true }
{
    let [back, middle, front] = views;
    stack.push_front(ViewRef(0), 0, 1);
    stack.push_front(ViewRef(1), 1, 1);
    stack.push_front(ViewRef(2), 1, 2);
    stack.place(ViewRef(0), rect(rt, back));
    stack.place(ViewRef(1), rect(rt, middle));
    stack.place(ViewRef(2), rect(rt, front));
}
