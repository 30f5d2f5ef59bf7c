//! The pixels of a row of the map that have no number yet.

ghost use Rattle.std.specs.Prelude.{◌≡◌, ℕ, ◌*◌, ◌<◌, ◌≤◌, length, slice_index, true};
ghost use Rattle.nit_screen.specs.Terms.{AreNumbered, AreSkips, IsRowOfMap, SkipsFilled, is_between};
ghost use Rattle.nit_screen.specs.Terms.{is_filled, most_width, no_slot, numbered};

use nit_overlay::NO_SLOT;

/// Begins a row: no pixel has a number, and each column is the one to go on at.
pub(crate) fn begin_row(row: &mut [u16], next: &mut [u16])
    requires row { IsRowOfMap (length row.old) row.old next.old }
    requires width { length row.old ≤ most_width }
    ensures row { IsRowOfMap (length row.old) row.new next.new }
    ensures none { (x : ℕ) → x < length row.old → slice_index row.new x ≡ no_slot }
    ensures skips { AreSkips (is_filled row.new) next.new }
{
    row.fill(NO_SLOT);
    'columns: for x in 0..next.len() {
        next[x] = x as u16;
    }
}

/// The end of the pixels from the column `x` on, before `to`, that have no number.
fn free_end(row: &[u16], x: usize, to: usize) -> usize
    requires columns { (x < to) × (to ≤ length row.now) }
    requires free { slice_index row.now x ≡ no_slot }
    ensures within { (x < result) × (result ≤ to) }
    ensures free { (k : ℕ) → x ≤ k → k < result → slice_index row.now k ≡ no_slot }
{
    let mut end = x + 1;
    'columns: while end < to && row[end] == NO_SLOT {
        end += 1;
    }
    end
}

/// Gives this number to the pixels from the column `x` on, before `to`, up to one that has one.
/// Gives the column to go on at: where `x` has a number already, `skip`, to which all have.
fn fill_run(row: &mut [u16], x: usize, to: usize, skip: usize, number: u16) -> usize
    requires columns { (x < to) × (to ≤ length row.old) }
    requires skip { SkipsFilled (is_filled row.old) (length row.old) x skip }
    ensures within { (x < result) × (result ≤ length row.old) }
    ensures words { (k : ℕ) → k < result
        → slice_index row.new k ≡ numbered (is_between x to k) number (slice_index row.old k) }
    ensures ahead { (k : ℕ) → result ≤ k → slice_index row.new k ≡ slice_index row.old k }
    ensures past { (k : ℕ) → to ≤ k → k < result → is_filled row.old k ≡ true }
    ensures count { length row.new ≡ length row.old }
{
    if row[x] == NO_SLOT {
        let end = free_end(row, x, to);
        row[x..end].fill(number);
        return end;
    }
    skip.max(x + 1)
}

/// Gives the pixels from the column `from` to before `to` that have none this number. From each
/// column `next` has one, to which all pixels between have a number, and it goes on there: so what
/// lies in front is not gone over pixel by pixel, and pixels side by side are filled at once.
pub(crate) fn fill_free(row: &mut [u16], next: &mut [u16], from: usize, to: usize, number: u16)
    requires row { IsRowOfMap (length row.old) row.old next.old }
    requires width { length row.old ≤ most_width }
    requires columns { (from ≤ length row.old) × (to ≤ length row.old) }
    requires number { number < no_slot }
    requires skips { AreSkips (is_filled row.old) next.old }
    ensures row { IsRowOfMap (length row.old) row.new next.new }
    ensures filled { AreNumbered (is_between from to) number row.old row.new }
    ensures skips { AreSkips (is_filled row.new) next.new }
{
    let mut x = from;
    'columns: while x < to {
        let end = fill_run(row, x, to, next[x] as usize, number);
        next[x] = end.max(to) as u16;
        x = end;
    }
}
