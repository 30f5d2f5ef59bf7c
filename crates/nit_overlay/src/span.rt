//! Columns or rows of a rectangle, counted so that none is below 0.

ghost use Rattle.std.specs.Prelude.{◌≡◌, ℕ, ◌+◌, ◌<◌, ◌≤◌, ◌==◌, pos, negsuc, ◌+ℤ◌, ◌-ℤ◌, ◌≤ℤ◌};
ghost use Rattle.nit_overlay.specs.Terms.{AreOnRow, HoldsUpTo, IsPlace, covers, has_at_end, int_eq};
ghost use Rattle.nit_overlay.specs.Terms.{most_edge, most_length, most_width, moved_of, point};
ghost use Rattle.nit_overlay.specs.Terms.{span_has, spans};

use nit_rect::Rect;

/// How far columns and rows are moved, so that those left of the screen and above it count from 0
/// on.
pub(crate) const SHIFT: u32 = 32768;

/// The columns or rows of a rectangle from `from` to before `to`, each moved by 32768.
#[derive(Clone, Copy)]
pub(crate) struct Span {
    pub from: u32,
    pub to: u32,
}

impl Span {
    /// Whether this column or row of the screen is one of them.
    fn has(&self, at: u32) -> bool
        requires { at ≤ most_width }
        ensures { result ≡ span_has self.now at }
    {
        self.from <= at + SHIFT && at + SHIFT < self.to
    }

    /// Whether this column or row of the screen is the first or the last one.
    pub fn has_at_end(&self, at: u32) -> bool
        requires { at ≤ most_width }
        ensures { result ≡ has_at_end self.now at }
    {
        at + SHIFT == self.from || at + SHIFT + 1 == self.to
    }
}

fn moved(z: i32) -> u32
    requires from { negsuc most_length ≤ℤ z }
    requires to { z ≤ℤ pos most_edge }
    ensures { result ≡ moved_of z }
{
    (z + 32768) as u32
}

/// The `long` places from `from` on.
pub(crate) fn span_of(from: i32, long: u32) -> Span
    requires place { IsPlace from }
    requires length { long ≤ most_length }
    ensures within { (at : ℕ) → span_has result at ≡ spans from long (pos at) }
    ensures first { (at : ℕ) → ((at + 32768) == result.from) ≡ int_eq (pos at) from }
    ensures last { (at : ℕ)
        → ((at + 32769) == result.to) ≡ int_eq (pos at) ((from +ℤ pos long) -ℤ pos 1) }
{
    Span {
        from: moved(from),
        to: moved(from + long as i32),
    }
}

/// The cut, a moved column, as a column of the screen where it lies between x and `to`, and `to`
/// elsewhere.
pub(crate) fn up_to(x: u32, to: u32, cut: u32) -> u32
    requires { x < to }
    ensures after { x < result }
    ensures within { result ≤ to }
    ensures uncut { x + 32768 < cut → result + 32768 ≤ cut }
{
    let end = cut.saturating_sub(SHIFT);
    if x < end && end < to { end } else { to }
}

/// Whether a rectangle covers a pixel, and the column, at most `to`, up to which the same holds of
/// the pixels to the right.
pub(crate) fn reach(rect: &Rect, x: u32, y: u32, to: u32) -> (bool, u32)
    requires { AreOnRow x y to }
    ensures { HoldsUpTo (λ z. covers rect.now (point z y) ≡ result.0) x to result.1 }
{
    let rows = span_of(rect.y(), rect.h());
    if !rows.has(y) {
        return (false, to);
    }
    let columns = span_of(rect.x(), rect.w());
    if columns.has(x) {
        (true, up_to(x, to, columns.to))
    } else {
        (false, up_to(x, to, columns.from))
    }
}
