//! The map of the screen's owners.

ghost use Rattle.std.specs.Prelude.{◌≡◌, ℕ, ◌+◌, ◌*◌, ◌<◌, ◌≤◌, length, slice_index};
ghost use Rattle.nit_screen.specs.Terms.{ArePatches, IsMap, IsRowOfMap, most_width, no_slot};
ghost use Rattle.nit_screen.specs.Terms.{number_in};

use crate::screen::patches::{Patch, collect, select};
use crate::screen::rows::{begin_rows, paint_row};
use nit_overlay::NO_SLOT;
use nit_stack::Stack;

/// How many rows have one list of the patches that meet them.
const BAND: usize = 32;

/// Gives each pixel of the map the number of its owner, row by row from the top. `patches`, `kept`
/// and `work` are room for the work, and what they have before does not matter.
///
/// For each band of rows only those patches are looked at that meet it.
pub(crate) fn map_owners(
    stack: &Stack,
    patches: &mut [Patch],
    kept: &mut [Patch],
    map: &mut [u16],
    work: &mut [u16],
)
    requires patches { stack.now.most ≤ length patches.old }
    requires kept { length kept.old ≡ length patches.old }
    requires map { length map.old ≡ stack.now.width * stack.now.height }
    requires work { length work.old ≡ stack.now.width * 3 }
    ensures count { length map.new ≡ length map.old }
    ensures mapped { IsMap stack.now map.new }
{
    let (width, height) = stack.size();
    let (width, height) = (width as usize, height as usize);
    let count = collect(stack, patches);
    let mut y = stack.bar() as usize;
    map[..y * width].fill(NO_SLOT);
    'bands: while y < height {
        let end = height.min(y + BAND);
        let some = select(&patches[..count], y, end, kept);
        map_band(&kept[..some], y, end, width, map, work);
        y = end;
    }
}

/// Gives the pixels of the rows from `from` to before `to` the numbers of the patches. Each row
/// begins as a copy of what the patches in front that have all these rows make of it, and rows that
/// have the same owners are copies of the first of them.
fn map_band(
    patches: &[Patch],
    from: usize,
    to: usize,
    width: usize,
    map: &mut [u16],
    work: &mut [u16],
)
    requires patches { ArePatches width patches.now }
    requires width { width ≤ most_width }
    requires rows { to * width ≤ length map.old }
    requires work { length work.old ≡ width * 3 }
    ensures count { length map.new ≡ length map.old }
    ensures room { length work.new ≡ length work.old }
    ensures above { (k : ℕ) → k < from * width → slice_index map.new k ≡ slice_index map.old k }
    ensures rows { (x z : ℕ) → x < width → from ≤ z → z < to
        → slice_index map.new (z * width + x) ≡ number_in patches.now x z }
{
    let (begun, rest) = work.split_at_mut(width);
    let (begun_next, next) = rest.split_at_mut(width);
    let count = begin_rows(patches, from, to, begun, begun_next);
    let mut y = from;
    'rows: while y < to {
        let at = y * width;
        let row = &mut map[at..at + width];
        row.copy_from_slice(begun);
        next.copy_from_slice(begun_next);
        let end = paint_row(patches, count, y, to, row, next);
        repeat_row(map, width, y, end);
        y = end;
    }
}

/// Copies a row of the map into the rows below it, up to before `end`.
fn repeat_row(map: &mut [u16], width: usize, y: usize, end: usize)
    requires rows { (y < end) × (end * width ≤ length map.old) }
    ensures above { (k : ℕ) → k < (y + 1) * width → slice_index map.new k ≡ slice_index map.old k }
    ensures rows { (x z : ℕ) → x < width → y ≤ z → z < end
        → slice_index map.new (z * width + x) ≡ slice_index map.old (y * width + x) }
    ensures count { length map.new ≡ length map.old }
{
    let at = y * width;
    'rows: for z in y + 1..end {
        map.copy_within(at..at + width, z * width);
    }
}
