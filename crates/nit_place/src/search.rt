//! The search for the least free place.

ghost use Rattle.std.specs.Prelude.{◌≡◌, ◌+◌, ◌<◌, ◌≤◌, ◌^◌, length};
ghost use Rattle.nit_place.specs.Terms.{IsBlocking, IsRowSearched, IsSearched, further, most_edge};
ghost use Rattle.nit_place.specs.Terms.{most_tag, nearer, part_at, views_of};

use crate::part::ScreenPart;
use nit_rect::Point;
use nit_stack::Stack;

/// What a row has for a label.
#[derive(Clone, Copy)]
pub(crate) enum Row {
    /// The least column at which the label is free.
    Free(u32),
    /// The label is free neither there nor in the rows below before this one. With none, in no row
    /// below.
    Full(Option<u32>),
}

/// Whichever part has its right edge further right.
fn further(found: Option<ScreenPart>, part: ScreenPart) -> ScreenPart
    ensures { result ≡ further found part }
{
    match found {
        None => part,
        Some(other) => if other.right < part.right {
            part
        } else {
            other
        },
    }
}

/// The row that is nearer.
fn nearer(found: Option<u32>, row: u32) -> u32
    ensures { result ≡ nearer found row }
{
    match found {
        None => row,
        Some(other) => other.min(row),
    }
}

/// The part of one of the first `front` views that the rectangle of `w` by `h` at (x, y) meets. Of
/// several it is the one that reaches furthest right.
fn blocking(stack: &Stack, front: u32, x: u32, y: u32, w: u32, h: u32) -> Option<ScreenPart>
    requires front { front ≤ length stack.now.views }
    requires across { x + w < 2 ^ 32 }
    requires down { y + h < 2 ^ 32 }
    ensures { IsBlocking (part_at (views_of stack.now.views)) front x y w h result }
{
    let mut found: Option<ScreenPart> = None;
    'views: for i in 0..front {
        let part = ScreenPart::at(stack, i);
        if !part.meets(x, y, w, h) {
            continue;
        }
        found = Some(further(found, part));
    }
    found
}

/// The least column at which the rectangle of `w` by `h` lies free in the row `y` of the area, or
/// how far down it is free nowhere.
fn place_in_row(stack: &Stack, front: u32, area: &ScreenPart, w: u32, h: u32, y: u32) -> Row
    requires front { front ≤ length stack.now.views }
    requires left { area.now.left ≤ most_edge }
    requires from_top { area.now.top ≤ y }
    requires to_bottom { y + h ≤ area.now.bottom }
    requires width { w ≤ most_tag }
    ensures { IsRowSearched (part_at (views_of stack.now.views)) front area.now w h y result }
{
    let mut x = area.left;
    let mut next: Option<u32> = None;
    'places: while x + w <= area.right {
        match blocking(stack, front, x, y, w, h) {
            None => return Row::Free(x),
            Some(part) => {
                next = Some(nearer(next, part.bottom));
                x = part.right;
            }
        }
    }
    Row::Full(next)
}

/// The least place, by row and then by column, at which the rectangle of `w` by `h` lies free in
/// the area.
pub(crate) fn search(stack: &Stack, front: u32, area: &ScreenPart, w: u32, h: u32) -> Option<Point>
    requires front { front ≤ length stack.now.views }
    requires left { area.now.left ≤ most_edge }
    requires top { area.now.top ≤ most_edge }
    requires width { w ≤ most_tag }
    requires height { h ≤ most_tag }
    ensures { IsSearched (part_at (views_of stack.now.views)) front area.now w h result }
{
    let mut y = area.top;
    'rows: while y + h <= area.bottom {
        match place_in_row(stack, front, area, w, h, y) {
            Row::Free(x) => return Some(Point {
                x: x as i32,
                y: y as i32,
            }),
            Row::Full(None) => return None,
            Row::Full(Some(next)) => y = next,
        }
    }
    None
}
