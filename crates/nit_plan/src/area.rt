//! Places of a buffer that are set together.
ghost use Rattle.std.specs.Prelude.{◌≡◌, ℕ, ◌+◌, ◌^◌, ◌<◌, ◌≤◌, ◌&&◌, nat_lt};
ghost use Rattle.nit_plan.specs.Terms.{FitsLine, FitsStroke, is_in_area, is_set_by, is_stroked};

use crate::plan::Step;
use crate::stroking::accepts;
use nit_events::Call;
use nit_script::{Line, Stroke};

/// Places of a buffer: `w` columns from `x` on, in `h` rows from `y` on.
#[derive(Clone, Copy, Debug, PartialEq, Eq)]
pub struct BufferArea {
    /// The first column, counted from 0.
    pub x: u32,
    /// The first row, counted from 0.
    pub y: u32,
    /// How many columns there are.
    pub w: u32,
    /// How many rows there are.
    pub h: u32,
}

/// The places of the buffer whose words the line sets, by its step: all of a new buffer, those that
/// a stroke's rectangle and the buffer both have, and none at any other line. The buffer has all of
/// them.
pub fn area_set(line: &Line, step: Step) -> BufferArea
    requires { FitsLine line.now }
    ensures places { (i j : ℕ) → is_in_area result i j ≡ is_set_by line.now step i j }
    ensures inside { (result.x + result.w ≤ step.w) × (result.y + result.h ≤ step.h) }
{
    match line {
        Line::Call(Call::Buffer(..)) if accepts(step.expect) => BufferArea {
            x: 0,
            y: 0,
            w: step.w,
            h: step.h,
        },
        Line::Stroke(stroke) => within(stroke_area(stroke), step.w, step.h),
        Line::Call(_) | Line::Phase => BufferArea {
            x: 0,
            y: 0,
            w: 0,
            h: 0,
        },
    }
}

/// The places that the area and a buffer of `w` columns and `h` rows both have. The area's numbers
/// are below 10^9.
fn within(area: BufferArea, w: u32, h: u32) -> BufferArea
    requires { (area.x < 10 ^ 9) × (area.y < 10 ^ 9) × (area.w < 10 ^ 9) × (area.h < 10 ^ 9) }
    ensures places { (i j : ℕ)
        → is_in_area result i j ≡ (nat_lt i w && nat_lt j h && is_in_area area i j) }
    ensures inside { (result.x + result.w ≤ w) × (result.y + result.h ≤ h) }
{
    let x = area.x.min(w);
    let y = area.y.min(h);
    BufferArea {
        x,
        y,
        w: (area.x + area.w).min(w) - x,
        h: (area.y + area.h).min(h) - y,
    }
}

/// The places of the stroke's rectangle. Each number has at most nine digits.
pub(crate) fn stroke_area(stroke: &Stroke) -> BufferArea
    requires { FitsStroke stroke.now }
    ensures places { (i j : ℕ) → is_stroked stroke.now i j ≡ is_in_area result i j }
    ensures fits { (result.x < 10 ^ 9) × (result.y < 10 ^ 9) × (result.w < 10 ^ 9)
        × (result.h < 10 ^ 9) }
{
    match *stroke {
        Stroke::Fill { x, y, w, h, .. } | Stroke::Check { x, y, w, h, .. } => BufferArea {
            x,
            y,
            w,
            h,
        },
    }
}
