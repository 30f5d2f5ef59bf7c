//! What of a view lies on the screen, by its edges.

ghost use Rattle.std.specs.Prelude.{◌≡◌, ℕ, ◌+◌, ◌<◌, ◌≤◌, ◌^◌, length, pos, ◌≤ℤ◌};
ghost use Rattle.nit_place.specs.Terms.{meets, most_edge, on_screen, part_at, part_of, views_of};

use nit_rect::Rect;
use nit_stack::Stack;

/// The pixels from `left` to before `right` and from `top` to before `bottom`.
#[derive(Clone, Copy)]
pub(crate) struct ScreenPart {
    pub left: u32,
    pub top: u32,
    pub right: u32,
    pub bottom: u32,
}

impl ScreenPart {
    /// What of a rectangle has columns and rows from 0 on.
    pub(crate) fn of(r: Rect) -> ScreenPart
        ensures part { result ≡ part_of r }
        ensures left { result.left ≤ most_edge }
        ensures top { result.top ≤ most_edge }
        ensures right { result.right ≤ most_edge }
        ensures bottom { result.bottom ≤ most_edge }
    {
        ScreenPart {
            left: on_screen(r.x()),
            top: on_screen(r.y()),
            right: on_screen(r.x() + r.w() as i32),
            bottom: on_screen(r.y() + r.h() as i32),
        }
    }

    /// The part of the view at place `i` from the front.
    pub(crate) fn at(stack: &Stack, i: u32) -> ScreenPart
        requires { i < length stack.now.views }
        ensures part { result ≡ part_at (views_of stack.now.views) i }
        ensures right { result.right ≤ most_edge }
        ensures bottom { result.bottom ≤ most_edge }
    {
        let view = stack.view(stack.at(i));
        ScreenPart::of(view.rect)
    }

    /// Whether the part shares a pixel with the rectangle of `w` by `h` at (x, y).
    pub(crate) fn meets(&self, x: u32, y: u32, w: u32, h: u32) -> bool
        requires across { x + w < 2 ^ 32 }
        requires down { y + h < 2 ^ 32 }
        ensures { result ≡ meets x y w h self.now }
    {
        self.left < x + w
            && (x < self.right
                && (self.top < y + h
                    && (y < self.bottom && (self.left < self.right && self.top < self.bottom))))
    }
}

/// A column or row of the screen. 0 where it is left of the screen or above it.
fn on_screen(at: i32) -> u32
    requires { at ≤ℤ pos most_edge }
    ensures place { result ≡ on_screen at }
    ensures range { result ≤ most_edge }
{
    if at < 0 { 0 } else { at as u32 }
}
