//! The part of a screen that a rectangle covers.

ghost use Rattle.std.specs.Prelude.{◌≡◌, ℕ, ◌<◌, ◌≤◌, ◌&&◌, nat_le, nat_lt};
ghost use Rattle.nit_overlay.specs.Terms.{IsArea, covers, in_area, point, span_has};

use crate::row_part::RowPart;
use crate::span::{SHIFT, Span, span_of};
use nit_rect::Rect;

/// The pixels of the columns from `left` to before `right`, in the rows from `top` to before
/// `bottom`.
#[derive(Clone, Copy)]
pub(crate) struct Area {
    pub left: u32,
    pub top: u32,
    pub right: u32,
    pub bottom: u32,
}

impl Area {
    /// Its pixels in the row y.
    pub fn row(&self, y: u32) -> RowPart
        ensures { result ≡ record { y = y; from = self.now.left; to = self.now.right } }
    {
        RowPart {
            y,
            from: self.left,
            to: self.right,
        }
    }
}

/// The first of these columns or rows that the screen has, of `most`, and the first one after
/// them.
fn on_screen(places: Span, most: u32) -> (u32, u32)
    ensures in_order { result.0 ≤ result.1 }
    ensures within { result.1 ≤ most }
    ensures same { (at : ℕ) → at < most
        → (nat_le result.0 at && nat_lt at result.1) ≡ span_has places at }
{
    let end = places.to.saturating_sub(SHIFT).min(most);
    let start = places.from.saturating_sub(SHIFT).min(end);
    (start, end)
}

/// The pixels that the rectangle covers of a screen of `width` by `height`.
pub(crate) fn area_of(rect: &Rect, width: u32, height: u32) -> Area
    ensures area { IsArea width height result }
    ensures same { (x y : ℕ) → x < width → y < height
        → in_area result x y ≡ covers rect.now (point x y) }
{
    let (left, right) = on_screen(span_of(rect.x(), rect.w()), width);
    let (top, bottom) = on_screen(span_of(rect.y(), rect.h()), height);
    Area {
        left,
        top,
        right,
        bottom,
    }
}
