//! What is left of a rectangle round a part of it.

ghost use Rattle.std.specs.Prelude.{◌≡◌, ◌≤◌, ◌+◌, pos};
ghost use Rattle.nit_damage.specs.Terms.{HasPixels, IsDivided, IsScreenRectangle, LiesIn};
ghost use Rattle.nit_damage.specs.Terms.{most_height, most_width, rectangle, rectangle_of};

use nit_rect::{Rect, Strips};

/// The first column and row of a rectangle of the screen, and the first ones after it.
#[derive(Clone, Copy)]
pub(crate) struct Edges {
    pub left: u32,
    pub top: u32,
    pub right: u32,
    pub bottom: u32,
}

/// What is left of a rectangle of the screen round a part of it, as four strips. Two of them go
/// along the longer sides of the part, from edge to edge of the rectangle. So the cuts of many
/// narrow views leave few pieces, and those of many flat ones too.
pub(crate) fn rest_of(rect: &Rect, part: &Rect) -> Strips
    requires screen { IsScreenRectangle rect.now }
    requires inside { LiesIn part.now rect.now }
    requires pixels { HasPixels part.now }
    ensures { IsDivided rect.now part.now result }
{
    if part.w() < part.h() {
        upright(rect, part)
    } else {
        rect.strips(part)
    }
}

/// What is left, where the strips at the left and at the right are as tall as the rectangle.
fn upright(rect: &Rect, part: &Rect) -> Strips
    requires screen { IsScreenRectangle rect.now }
    requires inside { LiesIn part.now rect.now }
    requires pixels { HasPixels part.now }
    ensures { IsDivided rect.now part.now result }
{
    strips_of(edges_of(rect), edges_of(part))
}

/// The edges of a rectangle of the screen.
fn edges_of(r: &Rect) -> Edges
    requires { IsScreenRectangle r.now }
    ensures left { r.now.x ≡ pos result.left }
    ensures top { r.now.y ≡ pos result.top }
    ensures right { result.right ≡ result.left + r.now.w }
    ensures bottom { result.bottom ≡ result.top + r.now.h }
    ensures columns { result.right ≤ most_width }
    ensures rows { result.bottom ≤ most_height }
{
    let left = r.x() as u32;
    let top = r.y() as u32;
    Edges {
        left,
        top,
        right: left + r.w(),
        bottom: top + r.h(),
    }
}

/// The strips round a cut, of which those at the left and at the right go from top to bottom.
fn strips_of(all: Edges, cut: Edges) -> Strips
    requires left { all.left ≤ cut.left }
    requires wide { cut.left ≤ cut.right }
    requires right { cut.right ≤ all.right }
    requires columns { all.right ≤ most_width }
    requires top { all.top ≤ cut.top }
    requires tall { cut.top ≤ cut.bottom }
    requires bottom { cut.bottom ≤ all.bottom }
    requires rows { all.bottom ≤ most_height }
    ensures { IsDivided (rectangle_of all) (rectangle_of cut) result }
{
    Strips {
        top: between(cut.left, all.top, cut.right, cut.top),
        left: between(all.left, all.top, cut.left, all.bottom),
        right: between(cut.right, all.top, all.right, all.bottom),
        bottom: between(cut.left, cut.bottom, cut.right, all.bottom),
    }
}

/// The rectangle of these edges.
fn between(left: u32, top: u32, right: u32, bottom: u32) -> Rect
    requires columns { left ≤ right }
    requires within { right ≤ most_width }
    requires rows { top ≤ bottom }
    requires down { bottom ≤ most_height }
    ensures { result ≡ rectangle_of (record {
      left = left;
      top = top;
      right = right;
      bottom = bottom;
    }) }
{
    let Some(rect) = Rect::new(left as i32, top as i32, right - left, bottom - top) else {
        unreachable!()
    };
    rect
}
