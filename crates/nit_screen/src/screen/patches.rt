//! Patches: the part of the screen that a view covers, with the number of the view.

ghost use Rattle.std.specs.Prelude.{◌≡◌, ℕ, ◌+◌, ◌<◌, ◌≤◌, ◌&&◌, false, int_le, length, nat_le};
ghost use Rattle.std.specs.Prelude.{nat_lt, pos, take, true};
ghost use Rattle.nit_screen.specs.Terms.{AreOfViews, ArePatches, IsPatch, IsStack, covers};
ghost use Rattle.nit_screen.specs.Terms.{first_at, has, has_slot, is_between, most_height};
ghost use Rattle.nit_screen.specs.Terms.{most_width, no_slot, point, spans};

use nit_rect::Rect;
use nit_stack::{Stack, ViewRef};

/// The part of the screen that a view covers, and the view's number. It has few bytes, since each
/// is looked at in many rows.
#[derive(Clone, Copy, Drop)]
pub(crate) struct Patch {
    pub(crate) left: u16,
    pub(crate) right: u16,
    pub(crate) top: u16,
    pub(crate) bottom: u16,
    pub(crate) number: u16,
}

impl Patch {
    /// A patch of no pixels.
    pub(crate) fn nothing() -> Patch {
        Patch {
            left: 0,
            right: 0,
            top: 0,
            bottom: 0,
            number: 0,
        }
    }
}

/// Whether the row y is one of a patch's.
pub(crate) fn is_row(patch: &Patch, y: usize) -> bool
    ensures { result ≡ is_between patch.now.top patch.now.bottom y }
{
    patch.top as usize <= y && y < patch.bottom as usize
}

/// The row, at most `to`, up to which a patch covers the rows as it covers y.
pub(crate) fn row_end(patch: &Patch, y: usize, to: usize) -> usize
    requires { y < to }
    ensures within { (y < result) × (result ≤ to) }
    ensures same { (z : ℕ) → y ≤ z → z < result
        → is_between patch.now.top patch.now.bottom z
        ≡ is_between patch.now.top patch.now.bottom y }
{
    if y < patch.top as usize {
        to.min(patch.top as usize)
    } else if y < patch.bottom as usize {
        to.min(patch.bottom as usize)
    } else {
        to
    }
}

/// Whether a patch has each of the rows from `from` to before `to`.
pub(crate) fn has_rows(patch: &Patch, from: usize, to: usize) -> bool
    ensures { result ≡ true → (z : ℕ) → from ≤ z → z < to
        → is_between patch.now.top patch.now.bottom z ≡ true }
{
    patch.top as usize <= from && to <= patch.bottom as usize
}

/// Whether a patch has any of the rows from `from` to before `to`.
pub(crate) fn meets(patch: &Patch, from: usize, to: usize) -> bool
    ensures { result ≡ false → (z : ℕ) → from ≤ z → z < to
        → is_between patch.now.top patch.now.bottom z ≡ false }
{
    (patch.top as usize) < to && from < patch.bottom as usize
}

/// The number of a view: its slot.
fn number_of(stack: &Stack, v: ViewRef) -> u16
    requires { has_slot v.0 stack.now.views ≡ true }
    ensures number { result ≡ v.0 }
    ensures some { result < no_slot }
{
    let _standing = stack.len();
    v.0 as u16
}

/// The first of `width` columns or rows of the screen that is not in front of this one; `width`
/// where there is none.
fn clip(column: i32, width: usize) -> usize
    ensures within { result ≤ width }
    ensures same { (x : ℕ) → x < width → nat_le result x ≡ int_le column (pos x) }
{
    if column < 0 {
        0
    } else {
        (column as usize).min(width)
    }
}

/// The columns of a screen of `width` that a rectangle has: the first, and the one after the last.
fn columns_of(rect: &Rect, width: usize) -> (usize, usize)
    ensures within { (result.0 ≤ width) × (result.1 ≤ width) }
    ensures same { (x : ℕ) → x < width
        → is_between result.0 result.1 x ≡ spans rect.now.x rect.now.w (pos x) }
{
    let left = clip(rect.x(), width);
    let right = clip(rect.x() + rect.w() as i32, width);
    (left, right)
}

/// The rows of a screen of `height` that a rectangle has: the first, and the one after the last.
fn rows_of(rect: &Rect, height: usize) -> (usize, usize)
    ensures within { (result.0 ≤ height) × (result.1 ≤ height) }
    ensures same { (y : ℕ) → y < height
        → is_between result.0 result.1 y ≡ spans rect.now.y rect.now.h (pos y) }
{
    let top = clip(rect.y(), height);
    let bottom = clip(rect.y() + rect.h() as i32, height);
    (top, bottom)
}

/// The patch that a rectangle covers of a screen of this size.
fn patch_of(rect: &Rect, number: u16, width: usize, height: usize) -> Patch
    requires screen { (width ≤ most_width) × (height ≤ most_height) }
    requires number { number < no_slot }
    ensures patch { IsPatch width result }
    ensures number { result.number ≡ number }
    ensures same { (x y : ℕ) → x < width → y < height
        → has result x y ≡ covers rect.now (point x y) }
{
    let (left, right) = columns_of(rect, width);
    let (top, bottom) = rows_of(rect, height);
    Patch {
        left: left as u16,
        right: right as u16,
        top: top as u16,
        bottom: bottom as u16,
        number,
    }
}

/// Sets `patches` to those of the views, front first. Gives how many they are.
pub(crate) fn collect(stack: &Stack, patches: &mut [Patch]) -> usize
    requires { stack.now.most ≤ length patches.old }
    ensures standing { IsStack stack.now }
    ensures few { result ≤ length patches.new }
    ensures views { result ≡ length stack.now.views }
    ensures count { length patches.new ≡ length patches.old }
    ensures patches { ArePatches stack.now.width (take result patches.new) }
    ensures same { AreOfViews stack.now result (take result patches.new) }
{
    let (width, height) = stack.size();
    'views: for i in 0..stack.len() {
        let v = stack.at(i);
        let rect = stack.rect(v);
        let number = number_of(stack, v);
        patches[i as usize] = patch_of(&rect, number, width as usize, height as usize);
    }
    stack.len() as usize
}

/// Sets `kept` to the patches that have any of the rows from `from` to before `to`. Gives how many
/// they are.
pub(crate) fn select(patches: &[Patch], from: usize, to: usize, kept: &mut [Patch]) -> usize
    requires { length patches.now ≤ length kept.old }
    ensures few { result ≤ length kept.old }
    ensures count { length kept.new ≡ length kept.old }
    ensures patches { (width : ℕ) → ArePatches width patches.now
        → ArePatches width (take result kept.new) }
    ensures same { (x z : ℕ) → from ≤ z → z < to
        → first_at (take result kept.new) x z ≡ first_at patches.now x z }
{
    let mut count = 0;
    'patches: for i in 0..patches.len() {
        let patch = patches[i];
        if !meets(&patch, from, to) {
            continue;
        }
        kept[count] = patch;
        count += 1;
    }
    count
}
