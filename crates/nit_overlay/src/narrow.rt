//! Runs of pixels of one owner in a row. Narrow ones are painted pixel by pixel.

ghost use Rattle.std.specs.Prelude.{◌≡◌, ℕ, ◌+◌, ◌<◌, ◌≤◌, ◌||◌, IfSome, List, None, Option};
ghost use Rattle.std.specs.Prelude.{Some, false, length, option_map, true};
ghost use Rattle.nit_overlay.specs.Below.{IsLettering, most_height, most_width};
ghost use Rattle.nit_overlay.specs.Terms.{HasSlot, IsAreaBy, IsAreaToPaint, IsAreaToShow, IsClear};
ghost use Rattle.nit_overlay.specs.Terms.{IsLook, IsPainted, IsRowToPaint, IsShownIn, IsWord};
ghost use Rattle.nit_overlay.specs.Terms.{StandsIn, View, draws_labels, has_at_end, has_slot};
ghost use Rattle.nit_overlay.specs.Terms.{in_area, is_in_text, label_place_of, mode_rule, pixel_at};
ghost use Rattle.nit_overlay.specs.Terms.{point, scenery, shown, stripe_rule, word_by};

use crate::area::Area;
use crate::look::LetteredLook;
use crate::owner::{owner_of, place_at};
use crate::piece::overlay_owned;
use crate::row_part::RowPart;
use crate::stripe::{GREY, RED, Stripe, WHITE, is_focused, ring_at};
use nit_events::Mode;
use nit_glyph::{Lettering, text_size};
use nit_rect::Point;
use nit_stack::ViewRef;
use nit_word::{dim, tint};

/// Up to so many pixels, to paint each by itself takes less time than to set up a run.
const NARROW: u32 = 16;

/// Sets the words of the pixels of an area of one row, which the view in this slot owns or none, to
/// what is shown there.
pub(crate) fn overlay_run(
    lettered: &LetteredLook,
    slot: Option<ViewRef>,
    raw: &[u32],
    row: &Area,
    out: &mut [u32],
)
    requires owner { (x y : ℕ) → in_area row.now x y ≡ true
        → HasSlot lettered.now (point x y) slot }
    requires stands { IfSome slot (λ v. has_slot v.0 lettered.now.look.stack.now.views ≡ true) }
    requires area { IsAreaToShow lettered.now row.now raw.now out.old }
    requires one { row.now.bottom ≡ row.now.top + 1 }
    ensures { IsShownIn row.now lettered.now raw.now out.old out.new }
{
    match slot {
        Some(v) => view_run(lettered, v, raw, row, out),
        None => overlay_owned(lettered, None, raw, row, out),
    }
}

/// Does so where the pixels are a view's.
fn view_run(lettered: &LetteredLook, v: ViewRef, raw: &[u32], row: &Area, out: &mut [u32])
    requires owner { (x y : ℕ) → in_area row.now x y ≡ true
        → HasSlot lettered.now (point x y) (Some v) }
    requires stands { has_slot v.0 lettered.now.look.stack.now.views ≡ true }
    requires area { IsAreaToShow lettered.now row.now raw.now out.old }
    requires one { row.now.bottom ≡ row.now.top + 1 }
    ensures { IsShownIn row.now lettered.now raw.now out.old out.new }
{
    if !is_narrow(lettered, v, row) {
        let owner = owner_of(lettered, Some(v));
        overlay_owned(lettered, owner, raw, row, out);
        return;
    }
    let (width, _height) = lettered.look.stack.size();
    let stripe = plain_stripe(lettered, v, row.top);
    paint_narrow(&stripe, raw, row, width, out);
}

/// Whether an area of one row has few pixels, and none of them may lie in the label of the view
/// in this slot.
fn is_narrow(lettered: &LetteredLook, v: ViewRef, row: &Area) -> bool
    requires look { IsLook lettered.now }
    requires stands { has_slot v.0 lettered.now.look.stack.now.views ≡ true }
    ensures { result ≡ true → IsClear lettered.now v row.now.top row.now.right }
{
    row.right.saturating_sub(row.left) <= NARROW && is_clear_of(lettered, v, row.top, row.right)
}

/// What is shown at the pixel in column x and row y, which the view in this slot owns, by its raw
/// word. None where it may lie in the label.
pub(crate) fn plain_pixel(
    lettered: &LetteredLook,
    v: ViewRef,
    x: u32,
    y: u32,
    raw: u32,
) -> Option<u32>
    requires look { IsLook lettered.now }
    requires stands { has_slot v.0 lettered.now.look.stack.now.views ≡ true }
    requires place { (x < most_width) × (y < most_height) }
    requires word { IsWord raw }
    ensures { HasSlot lettered.now (point x y) (Some v)
        → IfSome result (λ w. w ≡ shown (scenery lettered.now) (point x y) raw) }
{
    if !is_clear_of(lettered, v, y, x + 1) {
        return None;
    }
    let stripe = plain_stripe(lettered, v, y);
    let is_ring = is_ring(&stripe, x);
    Some(plain_word(stripe.mode, is_ring, stripe.focused, raw))
}

/// Whether no pixel of the row y in front of the column `to` may lie in the label of the view in
/// this slot.
fn is_clear_of(lettered: &LetteredLook, v: ViewRef, y: u32, to: u32) -> bool
    requires look { IsLook lettered.now }
    requires stands { has_slot v.0 lettered.now.look.stack.now.views ≡ true }
    ensures { result ≡ true → IsClear lettered.now v y to }
{
    is_clear(lettered.lettering, place_at(lettered, v), y, to)
}

/// Whether no pixel of the row y in front of the column `to` lies in a label that is drawn so and
/// stands at this place.
fn is_clear(lettering: Lettering, place: Option<Point>, y: u32, to: u32) -> bool
    requires { IsLettering lettering }
    ensures { result ≡ true → (text : List ℕ) (q : Option (ℕ × ℕ)) → place ≡ option_map pixel_at q
        → (x : ℕ) → x < to → is_in_text lettering text q (point x y) ≡ false }
{
    let Some(place) = place else {
        return true;
    };
    let (_, tall) = text_size(lettering, 1);
    let y = y as i64;
    y < place.y as i64 || place.y as i64 + tall as i64 <= y || to as i64 <= place.x as i64
}

/// The row y of the view in this slot, outside its label.
fn plain_stripe(lettered: &LetteredLook, v: ViewRef, y: u32) -> Stripe
    requires row { y < most_height }
    requires stands { has_slot v.0 lettered.now.look.stack.now.views ≡ true }
    ensures untagged { result.tag ≡ None }
    ensures words { (x w to : ℕ) → HasSlot lettered.now (point x y) (Some v) → x < to
        → IsClear lettered.now v y to
        → word_by (stripe_rule result x) x y w ≡ shown (scenery lettered.now) (point x y) w }
{
    let rect = lettered.look.stack.rect(v);
    let (edge, columns, _end) = ring_at(&rect, y, y + 1);
    Stripe {
        mode: lettered.look.mode,
        focused: is_focused(lettered.look.focus, lettered.look.stack.session(v)),
        edge,
        columns,
        tag: None,
    }
}

/// Paints an area by a row of a view outside its label, pixel by pixel.
fn paint_narrow(stripe: &Stripe, raw: &[u32], area: &Area, width: u32, out: &mut [u32])
    requires untagged { stripe.now.tag ≡ None }
    requires area { IsAreaToPaint width area.now raw.now out.old }
    ensures { IsAreaBy (λ x y w. word_by (stripe_rule stripe.now x) x y w)
        area.now width raw.now out.old out.new (length raw.now) }
{
    'rows: for y in area.top..area.bottom {
        let at = y as usize * width as usize;
        let end = at + width as usize;
        paint_pixels(stripe, area.row(y), &raw[at..end], &mut out[at..end]);
    }
}

/// The word of a mode outside the label.
fn plain_word(mode: Mode, is_ring: bool, is_focused: bool, raw: u32) -> u32
    requires { IsWord raw }
    ensures { (x y : ℕ) → result ≡ word_by (mode_rule mode is_ring is_focused) x y raw }
{
    match (mode, is_ring, is_focused) {
        (Mode::Flat, _, _) => raw,
        (Mode::Xray, true, true) => WHITE,
        (Mode::Xray, true, false) => GREY,
        (Mode::Xray, false, true) => raw,
        (Mode::Xray, false, false) => dim(raw),
        (Mode::Kill, true, _) => RED,
        (Mode::Kill, false, _) => tint(raw),
    }
}

/// Whether the pixel in this column of the row is on the ring.
fn is_ring(stripe: &Stripe, x: u32) -> bool
    requires { x ≤ most_width }
    ensures { result ≡ (has_at_end stripe.now.columns x || stripe.now.edge) }
{
    stripe.edge || stripe.columns.has_at_end(x)
}

/// Paints these pixels of a row.
fn paint_pixels(stripe: &Stripe, part: RowPart, raw: &[u32], out: &mut [u32])
    requires untagged { stripe.now.tag ≡ None }
    requires row { IsRowToPaint part raw.now out.old }
    ensures { IsPainted (λ x w. word_by (stripe_rule stripe.now x) x part.y w) raw.now out.old
        out.new part.from part.to }
{
    'pixels: for x in part.from..part.to {
        let is_ring = is_ring(stripe, x);
        out[x as usize] = plain_word(stripe.mode, is_ring, stripe.focused, raw[x as usize]);
    }
}
