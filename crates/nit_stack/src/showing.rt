//! Which word of its session's buffer a view shows at a pixel.

ghost use Rattle.std.specs.Prelude.{◌≡◌, ◌≤◌, ◌<◌, ◌*◌, ◌-ℤ◌, IfSome};
ghost use Rattle.nit_stack.specs.Terms.{IsPlace, among, buffer_place, most_side, shown_index};

use crate::view::View;
use nit_rect::Point;

/// The index of the word that the view shows at a pixel of the screen, where its session's buffer
/// is
/// `w` by `h` and reaches so far.
pub fn shown_index(view: &View, w: u32, h: u32, p: Point) -> Option<u32>
    requires size { (w ≤ most_side) × (h ≤ most_side) }
    requires offset { IsPlace view.now.ox × IsPlace view.now.oy }
    requires pixel { IsPlace p.x × IsPlace p.y }
    ensures index { result ≡ shown_index (record { w = w; h = h }) view.now p }
    ensures below { IfSome result (λ i. i < w * h) }
{
    let x = place(p.x, view.rect.x(), view.ox, w)?;
    let y = place(p.y, view.rect.y(), view.oy, h)?;
    Some(y * w + x)
}

/// A column or row of the screen as one of a buffer that has `most`.
fn place(at: i32, corner: i32, offset: i32, most: u32) -> Option<u32>
    requires { IsPlace at × IsPlace corner × IsPlace offset }
    ensures place { result ≡ among (buffer_place at corner offset) most }
    ensures below { IfSome result (λ n. n < most) }
{
    among(at - corner - offset, most)
}

fn among(at: i32, most: u32) -> Option<u32>
    ensures place { result ≡ among at most }
    ensures below { IfSome result (λ n. n < most) }
{
    if at < 0 {
        return None;
    }
    let place = at as u32;
    if place < most { Some(place) } else { None }
}
