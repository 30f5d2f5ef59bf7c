//! The place of a label.

ghost use Rattle.std.specs.Prelude.{◌≡◌, ◌≤◌, true, length, option_map, IfSome, Some};
ghost use Rattle.nit_place.specs.Terms.{IsAtEdges, IsStack, IsWithinScreen, SlotView, area_of};
ghost use Rattle.nit_place.specs.Terms.{has_slot, is_slot, label_place, most_edge, most_tag, point};
ghost use Rattle.nit_place.specs.Terms.{position_or_len, slot_view_in, views_of};

use crate::part::ScreenPart;
use crate::search::search;
use nit_rect::Point;
use nit_stack::{Stack, ViewRef};

/// The first place, row by row from the top, at which a label of `w` by `h` lies in pixels that the
/// view owns. None exactly where there is no such place. The width and the height are 1..=1592.
pub fn place_label(stack: &Stack, v: ViewRef, w: u32, h: u32) -> Option<Point>
    requires view { has_slot v.0 stack.now.views ≡ true }
    requires width { (1 ≤ w) × (w ≤ most_tag) }
    requires height { (1 ≤ h) × (h ≤ most_tag) }
    ensures place { (s : SlotView) → slot_view_in v.0 stack.now.views ≡ Some s
        → result
        ≡ option_map (λ q. point q.0 q.1)
        (label_place stack.now.width stack.now.height stack.now.bar (views_of stack.now.views)
        s.view w h) }
    ensures edges { (s : SlotView) → slot_view_in v.0 stack.now.views ≡ Some s
        → IfSome result (IsAtEdges stack.now.bar (views_of stack.now.views) s.view) }
    ensures within { IfSome result (IsWithinScreen stack.now.width stack.now.height w h) }
{
    let area = area(stack, v);
    search(stack, views_in_front(stack, v), &area, w, h)
}

/// What of the view lies on the screen below the bar.
fn area(stack: &Stack, v: ViewRef) -> ScreenPart
    requires { has_slot v.0 stack.now.views ≡ true }
    ensures area { (s : SlotView) → slot_view_in v.0 stack.now.views ≡ Some s
        → result ≡ area_of stack.now.width stack.now.height stack.now.bar s.view.rect }
    ensures left { result.left ≤ most_edge }
    ensures top { result.top ≤ most_edge }
    ensures right { result.right ≤ stack.now.width }
    ensures bottom { result.bottom ≤ stack.now.height }
{
    let (width, height) = stack.size();
    let part = ScreenPart::of(stack.view(v).rect);
    ScreenPart {
        left: part.left,
        top: part.top.max(stack.bar()),
        right: part.right.min(width),
        bottom: part.bottom.min(height),
    }
}

/// How many views stand in front of the view.
fn views_in_front(stack: &Stack, v: ViewRef) -> u32
    requires { has_slot v.0 stack.now.views ≡ true }
    ensures count { result ≡ position_or_len (is_slot v.0) stack.now.views }
    ensures within { result ≤ length stack.now.views }
    ensures standing { IsStack stack.now }
{
    let count = stack.len();
    'views: for i in 0..count {
        if stack.at(i).0 == v.0 {
            return i;
        }
    }
    count
}
