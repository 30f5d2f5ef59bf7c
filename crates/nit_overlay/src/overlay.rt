//! Rectangles of the screen, and whole frames.

ghost use Rattle.std.specs.Prelude.{◌≡◌, ◌+◌, All};
ghost use Rattle.nit_overlay.specs.Terms.{AreScreenWords, IsAreaToShow, IsRectShown, IsShownIn};
ghost use Rattle.nit_overlay.specs.Terms.{IsWord, frame, plain_look, scenery};

use crate::area::{Area, area_of};
use crate::look::{LetteredLook, Look};
use crate::owner::piece_at;
use crate::piece::overlay_owned;
use nit_rect::Rect;

/// Sets the words of the screen's pixels that lie in the rectangle to what is shown there; all
/// other words stay. `raw` and `out` have a word for each pixel of the screen, row by row from the
/// top, and each of `raw` is below 2^24. The rectangle may reach past the screen. No memory is
/// taken.
pub fn overlay_rect(look: &Look, raw: &[u32], r: Rect, out: &mut [u32])
    requires { AreScreenWords (plain_look look.now) raw.now out.old }
    ensures { IsRectShown r (plain_look look.now) raw.now out.old out.new }
{
    rect_into(&LetteredLook::plain(*look), raw, &r, out);
}

/// Sets `out` to the frame: the words that the screen shows, row by row from the top, each below
/// 2^24. `raw` and `out` have a word for each pixel of the screen, and each of `raw` is below 2^24.
/// No memory is taken.
pub fn frame_into(look: &Look, raw: &[u32], out: &mut [u32])
    requires { AreScreenWords (plain_look look.now) raw.now out.old }
    ensures frame { out.new ≡ frame (scenery (plain_look look.now)) raw.now }
    ensures words { All IsWord out.new }
{
    whole_into(&LetteredLook::plain(*look), raw, out);
}

/// Sets the words of the screen's pixels that lie in the rectangle to what is shown there.
fn rect_into(lettered: &LetteredLook, raw: &[u32], rect: &Rect, out: &mut [u32])
    requires { AreScreenWords lettered.now raw.now out.old }
    ensures { IsRectShown rect.now lettered.now raw.now out.old out.new }
{
    let (width, height) = lettered.look.stack.size();
    let area = area_of(rect, width, height);
    overlay_area(lettered, raw, &area, out);
}

/// Sets `out` to the frame.
fn whole_into(lettered: &LetteredLook, raw: &[u32], out: &mut [u32])
    requires { AreScreenWords lettered.now raw.now out.old }
    ensures frame { out.new ≡ frame (scenery lettered.now) raw.now }
    ensures words { All IsWord out.new }
{
    let (width, height) = lettered.look.stack.size();
    let area = Area {
        left: 0,
        top: 0,
        right: width,
        bottom: height,
    };
    overlay_area(lettered, raw, &area, out);
}

/// Sets the words of the pixels of the area to what is shown there, row by row.
fn overlay_area(lettered: &LetteredLook, raw: &[u32], area: &Area, out: &mut [u32])
    requires { IsAreaToShow lettered.now area.now raw.now out.old }
    ensures { IsShownIn area.now lettered.now raw.now out.old out.new }
{
    'rows: for y in area.top..area.bottom {
        let row = Area {
            top: y,
            bottom: y + 1,
            ..*area
        };
        overlay_row(lettered, raw, &row, out);
    }
}

/// Sets the words of the pixels of an area of one row to what is shown there, piece by piece.
fn overlay_row(lettered: &LetteredLook, raw: &[u32], row: &Area, out: &mut [u32])
    requires area { IsAreaToShow lettered.now row.now raw.now out.old }
    requires one { row.now.bottom ≡ row.now.top + 1 }
    ensures { IsShownIn row.now lettered.now raw.now out.old out.new }
{
    let mut x = row.left;
    'pieces: while x < row.right {
        let piece = piece_at(lettered, x, row.top, row.right);
        let here = Area {
            left: x,
            right: piece.end,
            ..*row
        };
        overlay_owned(lettered, piece.owner, raw, &here, out);
        x = piece.end;
    }
}
