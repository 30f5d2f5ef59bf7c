//! How far down the pixels of a row go on with the same owner.

ghost use Rattle.std.specs.Prelude.{◌≡◌, ℕ, ◌+◌, ◌*◌, ◌<◌, ◌≤◌, ◌==◌, length};
ghost use Rattle.nit_labels.specs.Terms.{AreDown, counted, owner_at, slice_index_or};

use crate::map::{row_below, row_of};

/// One more row on top of these, up to `tall`; or the row alone, where the next one has another
/// owner.
fn counted(goes_on: bool, rows: u8, tall: u8) -> u8
    requires tall { 1 ≤ tall }
    ensures { result ≡ counted goes_on rows tall }
{
    let below = if goes_on { rows } else { 0 };
    below.min(tall - 1) + 1
}

/// From the counts of a row to those of the row above it. It takes the rows as slices of one
/// length, which are compared many pixels at a time.
#[inline(never)]
fn count_row(row: &[u16], below: &[u16], tall: u8, down: &mut [u8])
    requires tall { 1 ≤ tall }
    requires row { length row.now ≡ length down.old }
    requires below { length below.now ≡ length down.old }
    ensures { (x : ℕ) → x < length down.old → slice_index_or down.new x 0
        ≡ counted (slice_index_or below.now x 0 == slice_index_or row.now x 0)
        (slice_index_or down.old x 0) tall }
{
    'columns: for x in 0..row.len() {
        down[x] = counted(below[x] == row[x], down[x], tall);
    }
}

/// From the counts of the row below to those of the row `y`. Below the last row they are 0, so it
/// does not matter with which row that one is compared.
pub(crate) fn count_down(
    own: &[u16],
    width: usize,
    height: usize,
    y: usize,
    tall: u8,
    down: &mut [u8],
)
    requires map { length own.now ≡ height * width }
    requires row { y < height }
    requires tall { 1 ≤ tall }
    requires length { length down.old ≡ width }
    requires below { AreDown (owner_at own.now width) width height tall (y + 1) down.old }
    ensures { AreDown (owner_at own.now width) width height tall y down.new }
{
    let row = row_of(own, width, height, y);
    let below = row_of(own, width, height, row_below(y, height));
    count_row(row, below, tall, down);
}
