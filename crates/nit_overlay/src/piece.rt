//! Pieces of the screen, each of which has one owner or none.

ghost use Rattle.std.specs.Prelude.{◌≡◌, ℕ, ◌<◌, ◌≤◌, length, IfSome, IsTrue, true};
ghost use Rattle.nit_overlay.specs.Terms.{AreScreenWords, HasOwner, IsAreaBy, IsAreaToPaint};
ghost use Rattle.nit_overlay.specs.Terms.{IsAreaToShow, IsOwner, IsPainted, IsRectShown};
ghost use Rattle.nit_overlay.specs.Terms.{IsRowOfTag, IsRowToShow, IsShownIn, IsTagged, Point};
ghost use Rattle.nit_overlay.specs.Terms.{covers, has_slot, in_area, option_map, point, scenery};
ghost use Rattle.nit_overlay.specs.Terms.{seat_owner, stripe_rule, unowned_word, view_ref};
ghost use Rattle.nit_overlay.specs.Terms.{view_word, word_by};

use crate::area::{Area, area_of};
use crate::bar::{is_bar_row, overlay_bar};
use crate::look::LetteredLook;
use crate::owner::{Owner, owner_of};
use crate::paint::{Rule, paint_part};
use crate::row_part::RowPart;
use crate::stripe::{Stripe, band_at, run_at};
use nit_stack::Piece;
use nit_word::BARE;

/// Sets the words of a piece's pixels to what is shown there; all other words stay. Each pixel of
/// the piece has the owner that it names, or none where it names none, so no other view is looked
/// at. `raw` and `out` have a word for each pixel of the screen, row by row from the top, and each
/// of `raw` is below 2^24. No memory is taken.
pub fn overlay_piece(lettered: &LetteredLook, raw: &[u32], piece: &Piece, out: &mut [u32])
    requires words { AreScreenWords lettered.now raw.now out.old }
    requires owner { (p : Point) → IsTrue (covers piece.now.rect p) → piece.now.owner
        ≡ option_map view_ref
        (seat_owner lettered.now.look.stack.now.bar lettered.now.look.stack.now.views p) }
    requires stands { IfSome piece.now.owner
        (λ v. has_slot v.0 lettered.now.look.stack.now.views ≡ true) }
    ensures { IsRectShown piece.now.rect lettered.now raw.now out.old out.new }
{
    let (width, height) = lettered.look.stack.size();
    let area = area_of(&piece.rect, width, height);
    let owner = owner_of(lettered, piece.owner);
    overlay_owned(lettered, owner, raw, &area, out);
}

/// Sets the words of the pixels of an area, which have this owner or none, to what is shown there.
pub(crate) fn overlay_owned(
    lettered: &LetteredLook,
    owner: Option<Owner>,
    raw: &[u32],
    area: &Area,
    out: &mut [u32],
)
    requires owner { (x y : ℕ) → in_area area.now x y ≡ true
        → HasOwner lettered.now (point x y) owner }
    requires placed { IfSome owner (IsOwner lettered.now) }
    requires area { IsAreaToShow lettered.now area.now raw.now out.old }
    ensures { IsShownIn area.now lettered.now raw.now out.old out.new }
{
    match owner {
        Some(owner) => overlay_view(lettered, &owner, raw, area, out),
        None => overlay_unowned(lettered, raw, area, out),
    }
}

/// Paints an area as pixels of this view, one band of rows after the other.
fn overlay_view(lettered: &LetteredLook, owner: &Owner, raw: &[u32], area: &Area, out: &mut [u32])
    requires owner { IsOwner lettered.now owner.now }
    requires area { IsAreaToShow lettered.now area.now raw.now out.old }
    ensures { IsAreaBy
        (λ x y w. view_word lettered.now.look.mode (scenery lettered.now) owner.now.view
        (point x y) w)
        area.now lettered.now.look.stack.now.width raw.now out.old out.new (length raw.now) }
{
    let (width, _height) = lettered.look.stack.size();
    let mut y = area.top;
    'bands: while y < area.bottom {
        let band = band_at(lettered, owner, y, area.bottom);
        let rows = Area {
            left: area.left,
            top: y,
            right: area.right,
            bottom: band.end,
        };
        overlay_band(&band.stripe, raw, &rows, width, out);
        y = band.end;
    }
}

/// Paints an area by a row of a view, run by run. All its rows are painted as this one is.
fn overlay_band(stripe: &Stripe, raw: &[u32], area: &Area, width: u32, out: &mut [u32])
    requires met { (y : ℕ) → area.now.top ≤ y → y < area.now.bottom
        → IfSome stripe.now.tag (IsRowOfTag y) }
    requires rows { area.now.top < area.now.bottom }
    requires area { IsAreaToPaint width area.now raw.now out.old }
    ensures { IsAreaBy (λ x y w. word_by (stripe_rule stripe.now x) x y w)
        area.now width raw.now out.old out.new (length raw.now) }
{
    let mut x = area.left;
    'runs: while x < area.right {
        let run = run_at(stripe, x, area.top, area.right);
        let block = Area {
            left: x,
            top: area.top,
            right: run.end,
            bottom: area.bottom,
        };
        overlay_block(&run.rule, raw, &block, width, out);
        x = run.end;
    }
}

/// Paints an area by one rule.
fn overlay_block(rule: &Rule, raw: &[u32], area: &Area, width: u32, out: &mut [u32])
    requires tagged { (y : ℕ) → area.now.top ≤ y → y < area.now.bottom
        → IsTagged rule.now area.now.left area.now.right y }
    requires area { IsAreaToPaint width area.now raw.now out.old }
    ensures { IsAreaBy (λ x y w. word_by rule.now x y w)
        area.now width raw.now out.old out.new (length raw.now) }
{
    'rows: for y in area.top..area.bottom {
        let at = y as usize * width as usize;
        let end = at + width as usize;
        paint_part(rule, area.row(y), &raw[at..end], &mut out[at..end]);
    }
}

/// Paints an area as pixels that no view owns.
fn overlay_unowned(lettered: &LetteredLook, raw: &[u32], area: &Area, out: &mut [u32])
    requires { IsAreaToShow lettered.now area.now raw.now out.old }
    ensures { IsAreaBy (λ x y w. unowned_word (scenery lettered.now) (point x y))
        area.now lettered.now.look.stack.now.width raw.now out.old out.new (length raw.now) }
{
    let (width, _height) = lettered.look.stack.size();
    'rows: for y in area.top..area.bottom {
        let at = y as usize * width as usize;
        let end = at + width as usize;
        bare_row(lettered, area.row(y), &raw[at..end], &mut out[at..end]);
    }
}

/// Paints these pixels of a row, which no view owns.
fn bare_row(lettered: &LetteredLook, part: RowPart, raw: &[u32], out: &mut [u32])
    requires { IsRowToShow lettered.now part raw.now out.old }
    ensures { IsPainted (λ x w. unowned_word (scenery lettered.now) (point x part.y))
        raw.now out.old out.new part.from part.to }
{
    if is_bar_row(lettered, part.y) {
        overlay_bar(lettered, part, out);
    } else {
        paint_part(&Rule::Fill(BARE), part, raw, out);
    }
}
