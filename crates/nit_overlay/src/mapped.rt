//! Whole frames by a map of owners.

ghost use Rattle.std.specs.Prelude.{◌≡◌, ◌+◌, ◌<◌, ◌≤◌, ◌==◌, ◌&&◌, IfSome, Option, length};
ghost use Rattle.std.specs.Prelude.{nat_lt, option_map, slice_index, true};
ghost use Rattle.nit_overlay.specs.OwnerMap.{IsMapOf, no_slot, number_of};
ghost use Rattle.nit_overlay.specs.Terms.{AreOnScreen, AreScreenWords, HasSlot, HoldsUpTo};
ghost use Rattle.nit_overlay.specs.Terms.{IsAreaToShow, IsShownIn, IsWord, SlotView, frame};
ghost use Rattle.nit_overlay.specs.Terms.{has_slot, point, scenery, shown, view_ref};

use crate::area::Area;
use crate::look::LetteredLook;
use crate::narrow::{overlay_run, plain_pixel};
use nit_stack::ViewRef;

/// The number of a pixel that no view owns, in a map of owners. It is no slot.
pub const NO_SLOT: u16 = u16::MAX;

/// What pixels that follow one another in a row have in common: the slot of their owner, and the
/// column after the last.
#[derive(Clone, Copy)]
struct SlotColumns {
    slot: Option<ViewRef>,
    end: u32,
}

/// Sets `out` to the frame, as [`frame_into`](crate::frame_into) does. `map` has for each pixel,
/// row by row from the top, the slot of the view that owns it, and 65535 where none does. So no
/// view is searched for, and the time does not grow with the number of views. No memory is taken.
pub fn frame_by_map(lettered: &LetteredLook, map: &[u16], raw: &[u32], out: &mut [u32])
    requires words { AreScreenWords lettered.now raw.now out.old }
    requires map { IsMapOf lettered.now.look.stack.now map.now }
    ensures { out.new ≡ frame (scenery lettered.now) raw.now }
{
    let (width, height) = lettered.look.stack.size();
    'rows: for y in 0..height {
        let row = Area {
            left: 0,
            top: y,
            right: width,
            bottom: y + 1,
        };
        mapped_row(lettered, map, raw, &row, out);
    }
}

/// Sets the words of the pixels of an area of one row to what is shown there.
fn mapped_row(lettered: &LetteredLook, map: &[u16], raw: &[u32], row: &Area, out: &mut [u32])
    requires area { IsAreaToShow lettered.now row.now raw.now out.old }
    requires one { row.now.bottom ≡ row.now.top + 1 }
    requires map { IsMapOf lettered.now.look.stack.now map.now }
    ensures { IsShownIn row.now lettered.now raw.now out.old out.new }
{
    let mut x = row.left;
    'runs: while x < row.right {
        let rest = Area { left: x, ..*row };
        x = first_run(lettered, map, raw, &rest, out);
    }
}

/// Does so with the first pixels, those of short runs or those of one run, and gives the column
/// after them.
fn first_run(lettered: &LetteredLook, map: &[u16], raw: &[u32], row: &Area, out: &mut [u32]) -> u32
    requires area { IsAreaToShow lettered.now row.now raw.now out.old }
    requires some { row.now.left < row.now.right }
    requires one { row.now.bottom ≡ row.now.top + 1 }
    requires map { IsMapOf lettered.now.look.stack.now map.now }
    ensures after { row.now.left < result }
    ensures within { result ≤ row.now.right }
    ensures shown { IsShownIn (record row.now { right = result }) lettered.now raw.now
        out.old out.new }
{
    let end = short_runs(lettered, map, raw, row, out);
    if row.left < end {
        return end;
    }
    let run = run_of(lettered, map, row.left, row.top, row.right);
    let here = Area {
        right: run.end,
        ..*row
    };
    overlay_run(lettered, run.slot, raw, &here, out);
    run.end
}

/// Does so with the first pixels, as far as views own them, runs are short and no label is near,
/// pixel by pixel. Gives the column after them.
fn short_runs(lettered: &LetteredLook, map: &[u16], raw: &[u32], row: &Area, out: &mut [u32]) -> u32
    requires area { IsAreaToShow lettered.now row.now raw.now out.old }
    requires one { row.now.bottom ≡ row.now.top + 1 }
    requires map { IsMapOf lettered.now.look.stack.now map.now }
    ensures after { row.now.left ≤ result }
    ensures within { result ≤ row.now.right }
    ensures shown { IsShownIn (record row.now { right = result }) lettered.now raw.now
        out.old out.new }
{
    let (width, _height) = lettered.look.stack.size();
    let start = row.top as usize * width as usize;
    let mut x = row.left;
    'pixels: while x < row.right {
        let at = start + x as usize;
        let Some(word) = word_at(lettered, map, x, row.top, raw[at]) else {
            return x;
        };
        out[at] = word;
        x += 1;
    }
    x
}

/// The word that is shown at the pixel in column x and row y, by its raw word. None where a long
/// run may begin, where no view owns the pixel, and where a label may be near.
fn word_at(lettered: &LetteredLook, map: &[u16], x: u32, y: u32, raw: u32) -> Option<u32>
    requires column { AreOnScreen lettered.now x y (x + 1) }
    requires map { IsMapOf lettered.now.look.stack.now map.now }
    requires word { IsWord raw }
    ensures { IfSome result (λ w. w ≡ shown (scenery lettered.now) (point x y) raw) }
{
    let (width, _height) = lettered.look.stack.size();
    let _standing = lettered.look.stack.len();
    let at = y as usize * width as usize + x as usize;
    if may_be_long(map, at) {
        return None;
    }
    let Some(v) = slot_of(map[at]) else {
        return None;
    };
    plain_pixel(lettered, v, x, y, raw)
}

/// Whether the next pixel of the map and the fourth one from here have the number of this one, as
/// in a run of more than four.
fn may_be_long(map: &[u16], at: usize) -> bool
    requires { at < length map.now }
    ensures { result ≡ (nat_lt (at + 4) (length map.now)
        && slice_index map.now (at + 1) == slice_index map.now at
        && slice_index map.now (at + 4) == slice_index map.now at) }
{
    at + 4 < map.len() && map[at + 1] == map[at] && map[at + 4] == map[at]
}

/// The slot of the pixel in column x of the row y, and the column, at most `to`, up to which the
/// pixels to the right have the same.
fn run_of(lettered: &LetteredLook, map: &[u16], x: u32, y: u32, to: u32) -> SlotColumns
    requires columns { AreOnScreen lettered.now x y to }
    requires map { IsMapOf lettered.now.look.stack.now map.now }
    ensures slot { HoldsUpTo (λ z. HasSlot lettered.now (point z y) result.slot) x to result.end }
    ensures stands { IfSome result.slot
        (λ v. has_slot v.0 lettered.now.look.stack.now.views ≡ true) }
{
    let (width, _height) = lettered.look.stack.size();
    let _standing = lettered.look.stack.len();
    let row = y as usize * width as usize;
    let at = row + x as usize;
    let end = same_number(map, at, row + to as usize);
    SlotColumns {
        slot: slot_of(map[at]),
        end: (end - row) as u32,
    }
}

/// The pixel, at most `end`, up to which those from `at` on have the same number.
fn same_number(map: &[u16], at: usize, end: usize) -> usize
    requires { (at < end) × (end ≤ length map.now) }
    ensures { HoldsUpTo (λ k. slice_index map.now k ≡ slice_index map.now at) at end result }
{
    let number = map[at];
    let mut k = at + 1;
    'pixels: while k < end {
        if map[k] != number {
            return k;
        }
        k += 1;
    }
    end
}

/// The slot of a number, and none for pixels without an owner.
fn slot_of(number: u16) -> Option<ViewRef>
    ensures { (o : Option SlotView) → number ≡ number_of o → IfSome o (λ s. s.slot < no_slot)
        → result ≡ option_map view_ref o }
{
    if number == NO_SLOT {
        None
    } else {
        Some(ViewRef(number as u32))
    }
}
