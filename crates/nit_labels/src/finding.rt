//! The places of all labels.

ghost use Rattle.std.specs.Prelude.{◌≡◌, ℕ, ◌*◌, ◌<◌, ◌≤◌, length, None};
ghost use Rattle.nit_labels.specs.Terms.{IsLeastPlace, OwnsArea, most_edge, owner_at};
ghost use Rattle.nit_labels.specs.Terms.{slice_index_or};

use crate::down::count_down;
use crate::map::is_again_above;
use crate::row::place_row;
use nit_rect::Point;

/// The first place, row by row from the top, at which the rectangle of each owner's width by `tall`
/// lies in pixels that it owns. None exactly where there is no such place.
///
/// The map has the number of each pixel's owner, row by row; a number past the widths is an owner
/// without a label. `down` is room for the work, and what it has before does not matter.
pub fn places(
    own: &[u16],
    width: usize,
    height: usize,
    widths: &[u32],
    tall: u8,
    found: &mut [Option<Point>],
    down: &mut [u8],
)
    requires map { length own.now ≡ height * width }
    requires width { width ≤ most_edge }
    requires height { height ≤ most_edge }
    requires tall { 1 ≤ tall }
    requires found { length found.old ≡ length widths.now }
    requires down { length down.old ≡ width }
    ensures { (o : ℕ) → o < length widths.now → 1 ≤ slice_index_or widths.now o 0
        → IsLeastPlace
        (OwnsArea (owner_at own.now width) width height o (slice_index_or widths.now o 0) tall)
        (slice_index_or found.new o None) }
{
    found.fill(None);
    down.fill(0);
    let mut y = height;
    'rows: while y > 0 {
        y -= 1;
        count_down(own, width, height, y, tall, down);
        if is_again_above(own, width, height, y) {
            continue;
        }
        place_row(own, width, height, y, widths, tall, down, found);
    }
}
