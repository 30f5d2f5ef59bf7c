//! Rows of the map of owners, by the patches that the views cover.

ghost use Rattle.std.specs.Prelude.{◌≡◌, ℕ, ◌<◌, ◌≤◌, ◌+◌, ◌*◌, Bool, length, slice_index};
ghost use Rattle.nit_screen.specs.Terms.{AreNumbered, ArePatches, AreSkips, IsBegun, IsPatch};
ghost use Rattle.nit_screen.specs.Terms.{IsRowOfMap, SkipsFilled, is_between, is_filled, most_width};
ghost use Rattle.nit_screen.specs.Terms.{number_in};

use crate::screen::free::{begin_row, fill_free};
use crate::screen::patches::{Patch, has_rows, is_row, row_end};

/// Gives the pixels of a row that a patch has and that have no number the number of the patch.
fn fill_patch(patch: &Patch, row: &mut [u16], next: &mut [u16])
    requires row { IsRowOfMap (length row.old) row.old next.old }
    requires width { length row.old ≤ most_width }
    requires patch { IsPatch (length row.old) patch.now }
    requires skips { AreSkips (is_filled row.old) next.old }
    ensures row { IsRowOfMap (length row.old) row.new next.new }
    ensures filled { AreNumbered (is_between patch.now.left patch.now.right) patch.now.number
        row.old row.new }
    ensures skips { AreSkips (is_filled row.new) next.new }
{
    fill_free(
        row,
        next,
        patch.left as usize,
        patch.right as usize,
        patch.number,
    );
}

/// Begins the rows from `from` to before `to`: gives the pixels of a row the numbers of the patches
/// in front that have all these rows. Gives how many these patches are.
pub(crate) fn begin_rows(
    patches: &[Patch],
    from: usize,
    to: usize,
    row: &mut [u16],
    next: &mut [u16],
) -> usize
    requires row { IsRowOfMap (length row.old) row.old next.old }
    requires width { length row.old ≤ most_width }
    requires patches { ArePatches (length row.old) patches.now }
    ensures begun { IsBegun patches.now (length row.old) from to result row.new next.new }
    ensures few { result ≤ length patches.now }
{
    begin_row(row, next);
    let mut i = 0;
    'patches: while i < patches.len() && has_rows(&patches[i], from, to) {
        fill_patch(&patches[i], row, next);
        i += 1;
    }
    i
}

/// A column, from this one on, up to which all pixels from this one on have a number.
fn go_on(next: &[u16], x: usize) -> usize
    requires { x ≤ length next.now }
    ensures { (filled : ℕ → Bool) → AreSkips filled next.now
        → SkipsFilled filled (length next.now) x result }
{
    if x < next.len() { next[x] as usize } else { x }
}

/// Gives the pixels of the row y, which has the numbers of the first patches, those of the others.
/// Gives the row, at most `to`, up to which the rows below it have the same.
pub(crate) fn paint_row(
    patches: &[Patch],
    begun: usize,
    y: usize,
    to: usize,
    row: &mut [u16],
    next: &mut [u16],
) -> usize
    requires width { length row.old ≤ most_width }
    requires patches { ArePatches (length row.old) patches.now }
    requires rows { y < to }
    requires few { begun ≤ length patches.now }
    requires begun { IsBegun patches.now (length row.old) y to begun row.old next.old }
    ensures within { (y < result) × (result ≤ to) }
    ensures row { IsRowOfMap (length row.old) row.new next.new }
    ensures mapped { (x z : ℕ) → x < length row.old → y ≤ z → z < result
        → slice_index row.new x ≡ number_in patches.now x z }
{
    let mut end = to;
    let mut first = 0;
    'patches: for i in begun..patches.len() {
        end = row_end(&patches[i], y, end);
        if !is_row(&patches[i], y) {
            continue;
        }
        fill_patch(&patches[i], row, next);
        first = go_on(next, first);
        if first == row.len() {
            return end;
        }
    }
    end
}
