//! How far a buffer reaches along a row of pixels and down a column of them.

ghost use Rattle.std.specs.Prelude.{◌≡◌, ℕ, ◌+◌, ◌*◌, ◌<◌, ◌≤◌, pos, ◌+ℤ◌, ◌≤ℤ◌, IfSome};
ghost use Rattle.nit_paint.specs.Below.{IsPlace, among, buffer_place, most_side, most_width};
ghost use Rattle.nit_paint.specs.Below.{option_map};
ghost use Rattle.nit_paint.specs.Ranges.{least_place, most_place};

/// A row of pixels against a buffer's columns: first pixels that the buffer does not reach, then
/// those that show its columns from `from` on, then again pixels that it does not reach.
#[derive(Clone, Copy)]
pub(crate) struct Reach {
    pub before: u32,
    pub from: u32,
    pub words: u32,
    pub after: u32,
    ghost short: { before + words + after ≤ most_width },
}

impl Reach {
    ghost use Rattle.nit_paint.specs.Runs.{long, reached};

    /// How far a buffer of `w` columns reaches along `count` pixels, the first of which would show
    /// `column`.
    pub fn new(column: i32, count: u32, w: u32) -> Reach
        requires column { (least_place ≤ℤ column) × (column ≤ℤ most_place) }
        requires count { count ≤ most_width }
        requires columns { w ≤ most_side }
        ensures long { long result ≡ count }
        ensures within { result.from + result.words ≤ w }
        ensures places { (j : ℕ) → j < count → reached result j ≡ among (column +ℤ pos j) w }
    {
        if column < 0 {
            let before = ((-column) as u32).min(count);
            let words = (count - before).min(w);
            Reach {
                before,
                from: 0,
                words,
                after: count - before - words,
            }
        } else {
            let from = (column as u32).min(w);
            let words = count.min(w - from);
            Reach {
                before: 0,
                from,
                words,
                after: count - words,
            }
        }
    }
}

/// The buffer's column or row that a column or row of the screen would show, by the view's corner
/// and offset.
pub(crate) fn buffer_place(at: i32, corner: i32, offset: i32) -> i32
    requires at { IsPlace at }
    requires corner { IsPlace corner }
    requires offset { IsPlace offset }
    ensures place { result ≡ buffer_place at corner offset }
    ensures range { (least_place ≤ℤ result) × (result ≤ℤ most_place) }
{
    at - corner - offset
}

/// The index of the first word of a buffer's row. None where the buffer has no such row.
pub(crate) fn row_start(row: i32, w: u32, h: u32) -> Option<u32>
    requires { (w ≤ most_side) × (h ≤ most_side) }
    ensures start { result ≡ option_map (λ y. y * w) (among row h) }
    ensures within { IfSome result (λ start. start + w ≤ w * h) }
{
    if row < 0 || h <= row as u32 {
        return None;
    }
    Some(row as u32 * w)
}
