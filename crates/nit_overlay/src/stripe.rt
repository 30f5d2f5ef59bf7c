//! A row of a view.

ghost use Rattle.std.specs.Prelude.{◌≡◌, ℕ, ◌+◌, ◌<◌, ◌≤◌, ◌||◌, ◌==◌, true, false, length, Option};
ghost use Rattle.std.specs.Prelude.{Some, None, IfSome};
ghost use Rattle.nit_overlay.specs.Terms.{AreColumns, AreRows, AreRowsOf, HoldsUpTo, IsRowOfTag};
ghost use Rattle.nit_overlay.specs.Terms.{IsLettering, most_picture_height, most_picture_width};
ghost use Rattle.nit_overlay.specs.Terms.{picture_height};
ghost use Rattle.nit_overlay.specs.Terms.{IsTagged, Rule, by_label, draws_labels, has_at_end};
ghost use Rattle.nit_overlay.specs.Terms.{is_on_ring, is_same, label_place_of, mode_rule};
ghost use Rattle.nit_overlay.specs.Terms.{picture_width, point, scenery, stripe_rule, tag_rule};
ghost use Rattle.nit_overlay.specs.Terms.{view_text, view_word, word_by};

use crate::look::LetteredLook;
use crate::owner::Owner;
use crate::paint::{Rule, Tag};
use crate::span::{SHIFT, Span, span_of, up_to};
use nit_events::Mode;
use nit_glyph::{LabelText, Lettering, label_text, text_size};
use nit_rect::Rect;

pub(crate) const WHITE: u32 = 0xFFFFFF;

pub(crate) const GREY: u32 = 0x808080;

pub(crate) const RED: u32 = 0xFF0000;

/// What a row of a view is painted by.
#[derive(Clone, Copy)]
pub(crate) struct Stripe {
    pub mode: Mode,
    /// Whether the view's session has the focus.
    pub focused: bool,
    /// Whether the row is the first or the last one of the view.
    pub edge: bool,
    /// The columns of the view.
    pub columns: Span,
    /// The label of the view, where the row meets it.
    pub tag: Option<Tag>,
}

/// Rows of a view that follow one another and are painted alike, up to before the row `end`.
#[derive(Clone, Copy)]
pub(crate) struct Band {
    pub stripe: Stripe,
    pub end: u32,
}

/// Pixels that follow one another in a row and have one rule, up to before the column `end`.
#[derive(Clone, Copy)]
pub(crate) struct Run {
    pub rule: Rule,
    pub end: u32,
}

fn draws_labels(mode: Mode) -> bool
    ensures { result ≡ draws_labels mode }
{
    match mode {
        Mode::Flat => false,
        _ => true,
    }
}

pub(crate) fn is_focused(focus: Option<u32>, sid: u32) -> bool
    ensures { result ≡ is_same focus (Some sid) }
{
    match focus {
        Some(session) => session == sid,
        None => false,
    }
}

/// The number of columns of the picture of a text.
pub(crate) fn width_of(lettering: Lettering, text: &LabelText) -> u32
    requires { IsLettering lettering }
    ensures width { result ≡ picture_width lettering (length text.now) }
    ensures short { result ≤ most_picture_width }
{
    text_size(lettering, text.as_bytes().len() as u32).0
}

/// The number of rows of the picture of any text.
pub(crate) fn height_of(lettering: Lettering) -> u32
    requires { IsLettering lettering }
    ensures height { result ≡ picture_height lettering }
    ensures low { result ≤ most_picture_height }
{
    text_size(lettering, 1).1
}

/// The label of a view, where labels are drawn and the row y meets it, and the row, at most `to`,
/// up to which it is the same.
fn tag_at(lettered: &LetteredLook, owner: &Owner, y: u32, to: u32) -> (Option<Tag>, u32)
    requires { AreRowsOf lettered.now owner.now y to }
    ensures after { y < result.1 }
    ensures within { result.1 ≤ to }
    ensures undrawn { draws_labels lettered.now.look.mode ≡ false → result.0 ≡ None }
    ensures drawn { draws_labels lettered.now.look.mode ≡ true → (rule : Rule) (x z w : ℕ)
        → y ≤ z → z < result.1 → word_by (tag_rule result.0 x rule) x z w
        ≡ by_label lettered.now.lettering (view_text (scenery lettered.now) owner.now.view)
        (label_place_of (scenery lettered.now) owner.now.view) (point x z) (word_by rule x z w) }
    ensures met { (z : ℕ) → y ≤ z → z < result.1 → IfSome result.0 (IsRowOfTag z) }
{
    if !draws_labels(lettered.look.mode) {
        return (None, to);
    }
    let Some(place) = owner.place else {
        return (None, to);
    };
    let (left, top) = (place.x as u32, place.y as u32);
    if y < top {
        return (None, to.min(top));
    }
    let lettering = lettered.lettering;
    let end = top + height_of(lettering);
    if end <= y {
        return (None, to);
    }
    let label = &lettered.look.labels[owner.view.sid as usize];
    let text = label_text(label, &owner.view.title);
    let tag = Tag {
        text,
        lettering,
        left,
        top,
    };
    (Some(tag), to.min(end))
}

/// Whether the row y is the first or the last one of a rectangle, the rectangle's columns, and the
/// row, at most `to`, up to which the rows are so as well.
pub(crate) fn ring_at(rect: &Rect, y: u32, to: u32) -> (bool, Span, u32)
    requires { AreRows y to }
    ensures after { y < result.2 }
    ensures within { result.2 ≤ to }
    ensures same { (x z : ℕ) → y ≤ z → z < result.2
        → (has_at_end result.1 x || result.0) ≡ is_on_ring rect.now (point x z) }
{
    let rows = span_of(rect.y(), rect.h());
    let columns = span_of(rect.x(), rect.w());
    (rows.has_at_end(y), columns, side_end(rows, y, to))
}

/// The row y of a view, and the row, at most `to`, up to which the rows are painted as it is.
pub(crate) fn band_at(lettered: &LetteredLook, owner: &Owner, y: u32, to: u32) -> Band
    requires { AreRowsOf lettered.now owner.now y to }
    ensures after { y < result.end }
    ensures within { result.end ≤ to }
    ensures words { (x z w : ℕ) → y ≤ z → z < result.end
        → word_by (stripe_rule result.stripe x) x z w
        ≡ view_word lettered.now.look.mode (scenery lettered.now) owner.now.view (point x z) w }
    ensures met { (z : ℕ) → y ≤ z → z < result.end → IfSome result.stripe.tag (IsRowOfTag z) }
{
    let (edge, columns, alike) = ring_at(&owner.view.rect, y, to);
    let (tag, end) = tag_at(lettered, owner, y, alike);
    let stripe = Stripe {
        mode: lettered.look.mode,
        focused: is_focused(lettered.look.focus, owner.view.sid),
        edge,
        columns,
        tag,
    };
    Band { stripe, end }
}

/// The rule of a mode outside the label.
fn mode_rule(mode: Mode, is_ring: bool, is_focused: bool) -> Rule
    ensures { result ≡ mode_rule mode is_ring is_focused }
{
    match (mode, is_ring, is_focused) {
        (Mode::Flat, _, _) => Rule::Raw,
        (Mode::Xray, true, true) => Rule::Fill(WHITE),
        (Mode::Xray, true, false) => Rule::Fill(GREY),
        (Mode::Xray, false, true) => Rule::Raw,
        (Mode::Xray, false, false) => Rule::Dim,
        (Mode::Kill, true, _) => Rule::Fill(RED),
        (Mode::Kill, false, _) => Rule::Tint,
    }
}

/// The column or row, at most `to`, up to which those from x on are the first or the last one of
/// the view as x is.
fn side_end(side: Span, x: u32, to: u32) -> u32
    requires { AreColumns x to }
    ensures { HoldsUpTo (λ z. has_at_end side z ≡ has_at_end side x) x to result }
{
    if side.has_at_end(x) {
        return x + 1;
    }
    let end = up_to(x, to, side.from);
    up_to(x, end, side.to.saturating_sub(1))
}

/// The rule of the pixel in column x outside the label, and how far to the right it is the rule.
fn run_outside(stripe: &Stripe, x: u32, to: u32) -> Run
    requires { AreColumns x to }
    ensures { HoldsUpTo
        (λ z. mode_rule stripe.now.mode (has_at_end stripe.now.columns z || stripe.now.edge)
        stripe.now.focused
        ≡ result.rule)
        x to result.end }
{
    let is_ring = stripe.edge || stripe.columns.has_at_end(x);
    let rule = mode_rule(stripe.mode, is_ring, stripe.focused);
    let end = if stripe.edge {
        to
    } else {
        side_end(stripe.columns, x, to)
    };
    Run { rule, end }
}

/// The rule of the pixel in column x of the row y, and how far to the right it is the rule.
pub(crate) fn run_at(stripe: &Stripe, x: u32, y: u32, to: u32) -> Run
    requires columns { AreColumns x to }
    requires met { IfSome stripe.now.tag (IsRowOfTag y) }
    ensures rule { HoldsUpTo (λ z. stripe_rule stripe.now z ≡ result.rule) x to result.end }
    ensures tagged { (z : ℕ) → IfSome stripe.now.tag (IsRowOfTag z)
        → IsTagged result.rule x result.end z }
{
    let Some(tag) = stripe.tag else {
        return run_outside(stripe, x, to);
    };
    let right = tag.left + width_of(tag.lettering, &tag.text);
    if tag.left <= x && x < right {
        return Run {
            rule: Rule::Text(tag),
            end: up_to(x, to, right + SHIFT),
        };
    }
    let end = up_to(x, to, tag.left + SHIFT);
    run_outside(stripe, x, end)
}
