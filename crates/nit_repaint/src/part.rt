//! Where a view shows a part of its session's buffer.

ghost use Rattle.std.specs.Prelude.{◌≡◌, ℕ, ◌+◌, ◌<◌, ◌≤◌, nat_le, int_le, pos};
ghost use Rattle.nit_repaint.specs.Terms.{IsOnScreen, IsPlace, IsScreenSize, Point, buffer_place};
ghost use Rattle.nit_repaint.specs.Terms.{covers, is_index_in, most_length, most_side, rectangle};
ghost use Rattle.nit_repaint.specs.Terms.{shown_index, spans};

use nit_rect::Rect;
use nit_stack::View;

/// The first place of a screen of `most` that is not in front of this one. `most` where there is
/// none.
fn first_on_screen(place: i32, most: u32) -> u32
    ensures within { result ≤ most }
    ensures same { (c : ℕ) → c < most → nat_le result c ≡ int_le place (pos c) }
{
    if place < 0 {
        0
    } else {
        (place as u32).min(most)
    }
}

/// The places of a screen of `most` at which a view shows the `long` places of a buffer from `from`
/// on: the first, and how many.
fn shown_run(from: i32, long: u32, corner: i32, offset: i32, most: u32) -> (u32, u32)
    requires places { IsPlace from × IsPlace corner × IsPlace offset }
    requires long { long ≤ most_length }
    requires most { most ≤ most_length }
    ensures within { result.0 + result.1 ≤ most }
    ensures same { (c : ℕ) → c < most
        → spans (pos result.0) result.1 (pos c)
        ≡ spans from long (buffer_place (pos c) corner offset) }
{
    let first = from + corner + offset;
    let left = first_on_screen(first, most);
    let right = first_on_screen(first + long as i32, most);
    if right <= left {
        return (0, 0);
    }
    (left, right - left)
}

/// The pixels of the screen at which a view shows a part of its session's buffer, were no view in
/// front of it. `size` is that of the buffer, each side at most 4096.
pub(crate) fn shown_part(
    view: &View,
    part: &Rect,
    size: (u32, u32),
    width: u32,
    height: u32,
) -> Rect
    requires screen { IsScreenSize width height }
    requires size { (size.0 ≤ most_side) × (size.1 ≤ most_side) }
    requires offset { IsPlace view.now.ox × IsPlace view.now.oy }
    ensures same { (p : Point) → IsOnScreen width height p
        → covers result p
        ≡ is_index_in part.now size.0 (shown_index (record { w = size.0; h = size.1 }) view.now p) }
{
    let whole = Rect::of(0, 0, size.0, size.1);
    let part = part.meet(&whole);
    let (left, wide) = shown_run(part.x(), part.w(), view.rect.x(), view.ox, width);
    let (top, tall) = shown_run(part.y(), part.h(), view.rect.y(), view.oy, height);
    screen_part(left, top, wide, tall)
}

/// A rectangle of the screen.
fn screen_part(left: u32, top: u32, wide: u32, tall: u32) -> Rect
    requires { (left + wide ≤ most_length) × (top + tall ≤ most_length) }
    ensures { result ≡ rectangle (pos left) (pos top) wide tall }
{
    Rect::of(left as i32, top as i32, wide, tall)
}
