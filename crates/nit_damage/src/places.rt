//! Rectangles of the screen.

ghost use Rattle.std.specs.Prelude.{◌≡◌, ◌≤◌};
ghost use Rattle.nit_damage.specs.Terms.{CoversBoth, IsScreenSize, bar_part, part_below_bar};

use nit_rect::Rect;
use nit_stack::Stack;

/// The pixels of the bar.
pub(crate) fn bar_part(stack: &Stack) -> Rect
    ensures value { result ≡ bar_part stack.now }
    ensures screen { IsScreenSize stack.now.width stack.now.height }
    ensures fits { stack.now.bar ≤ stack.now.height }
{
    let (width, _height) = stack.size();
    Rect::of(0, 0, width, stack.bar())
}

/// The pixels of the screen below the bar.
pub(crate) fn part_below_bar(stack: &Stack) -> Rect
    ensures value { result ≡ part_below_bar stack.now }
    ensures fits { stack.now.bar ≤ stack.now.height }
{
    let (width, height) = stack.size();
    let bar = stack.bar();
    Rect::of(0, bar as i32, width, height - bar)
}

/// The rectangle of the pixels below the bar that a rectangle covers.
pub(crate) fn below_bar(stack: &Stack, r: &Rect) -> Rect
    ensures both { CoversBoth r.now (part_below_bar stack.now) result }
    ensures fits { stack.now.bar ≤ stack.now.height }
{
    r.meet(&part_below_bar(stack))
}
