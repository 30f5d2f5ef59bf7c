//! Words that a client hands in.

ghost use Rattle.std.specs.Prelude.{◌≡◌, ◌*◌, ◌<◌, ◌≤◌, ℕ, int_le, length, nat_le, pos};
ghost use Rattle.nit_host.specs.Terms.{CanTakeWords, IsHandedIn, IsInReach, after_handing};
ghost use Rattle.nit_host.specs.Terms.{is_between, is_in_rows, low_bytes, most_length, set_where};
ghost use Rattle.nit_host.specs.Terms.{spans};

use crate::sheet::Sheet;
use nit_rect::Rect;

/// Takes over the part of a buffer of so many columns and rows into the sheet of its client, where
/// there is a part: of the words that lie in it the low three bytes.
pub(crate) fn hand_in(sheet: &mut Sheet, buffer: (u32, u32), part: &Option<Rect>, words: &[u32])
    requires words { buffer.0 * buffer.1 ≤ length words.now }
    requires places { buffer.0 * buffer.1 ≤ sheet.old.sight.size }
    requires sheet { CanTakeWords sheet.old }
    ensures { IsHandedIn (after_handing buffer.0 buffer.1 part.now words.now) sheet.old sheet.new }
{
    if let Some(part) = part {
        let columns = clip(part.x(), part.w(), buffer.0);
        let rows = clip(part.y(), part.h(), buffer.1);
        hand_in_rows(sheet, buffer.0, columns, rows, words);
    }
}

/// Takes over some columns of some rows of a buffer that has so many columns.
fn hand_in_rows(sheet: &mut Sheet, width: u32, columns: (u32, u32), rows: (u32, u32), words: &[u32])
    requires columns { (columns.0 ≤ columns.1) × (columns.1 ≤ width) }
    requires rows { rows.0 ≤ rows.1 }
    requires words { width * rows.1 ≤ length words.now }
    requires places { width * rows.1 ≤ sheet.old.sight.size }
    requires sheet { CanTakeWords sheet.old }
    ensures { IsHandedIn (set_where (is_in_rows width columns.0 columns.1 rows.0 rows.1)
        (low_bytes words.now)) sheet.old sheet.new }
{
    'rows: for row in rows.0..rows.1 {
        let start = row as usize * width as usize;
        sheet.hand_in(
            start + columns.0 as usize,
            start + columns.1 as usize,
            words,
        );
    }
}

/// Those of the `long` places from `from` on that are among the first so many: from the first of
/// these numbers to before the second.
pub(crate) fn clip(from: i32, long: u32, most: u32) -> (u32, u32)
    requires from { IsInReach from }
    requires long { long ≤ most_length }
    ensures order { result.0 ≤ result.1 }
    ensures most { result.1 ≤ most }
    ensures same { (n : ℕ) → n < most → spans from long (pos n) ≡ is_between result.0 result.1 n }
{
    let end = from + long as i32;
    (first_from(from, most), first_from(end, most))
}

/// The first of so many places that is not before this one. Their number where there is none.
fn first_from(place: i32, most: u32) -> u32
    ensures most { result ≤ most }
    ensures place { (n : ℕ) → n < most → int_le place (pos n) ≡ nat_le result n }
{
    if place <= 0 {
        0
    } else {
        most.min(place as u32)
    }
}
