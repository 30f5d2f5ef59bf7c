//! Areas of the screen, and those that may have changed.

ghost use Rattle.std.specs.Prelude.{◌≡◌, ◌<◌, All, true, ℕ};
ghost use Rattle.nit_host.specs.Terms.{HoldsUnless, HoldsWhere, IsAreaOf, covers, has_any, point};

use crate::host::handing::clip;
use nit_look::{Area, Parts};
use nit_rect::Rect;

/// What the rectangle covers of a screen of this size.
pub(crate) fn of_rect(rect: &Rect, size: (u32, u32)) -> Area
    ensures { HoldsWhere size.0 size.1 (λ x y. covers rect.now (point x y)) result }
{
    let (left, right) = clip(rect.x(), rect.w(), size.0);
    let (top, bottom) = clip(rect.y(), rect.h(), size.1);
    Area {
        left,
        top,
        right,
        bottom,
    }
}

/// All of a screen of this size.
pub(crate) fn whole(width: u32, height: u32) -> Parts
    ensures screen { All (IsAreaOf width height) result }
    ensures all { (x y : ℕ) → x < width → y < height → has_any result x y ≡ true }
{
    let mut parts = Parts::none();
    parts.add(&Area::of_rows(width, height));
    parts
}

/// Adds both areas, unless nothing changed.
pub(crate) fn add_unless(parts: &mut Parts, is_same: bool, before: &Area, after: &Area)
    ensures { HoldsUnless is_same parts.old before.now after.now parts.new }
{
    if !is_same {
        parts.add(before);
        parts.add(after);
    }
}
