//! Who owns the pixels of a row.

ghost use Rattle.std.specs.Prelude.{◌≡◌, ◌<◌, true, length, option_map, slice_get, Some, IfSome};
ghost use Rattle.std.specs.Prelude.{IsTrue};
ghost use Rattle.nit_overlay.specs.Terms.{AreOnScreen, HasOwner, HoldsUpTo, IsLook, IsOwner};
ghost use Rattle.nit_overlay.specs.Terms.{IsStack, Point, StandsIn, View, draws_labels, has_slot};
ghost use Rattle.nit_overlay.specs.Terms.{label_place_of, pixel_at, point, scenery, seat_owner};
ghost use Rattle.nit_overlay.specs.Terms.{slot_view_in, view_ref};

use crate::bar::is_bar_row;
use crate::look::LetteredLook;
use crate::span::reach;
use nit_events::Mode;
use nit_rect::Point;
use nit_stack::{Stack, View, ViewRef};

/// The view that owns a pixel, and the place of its label where labels are drawn.
#[derive(Clone, Copy)]
pub(crate) struct Owner {
    pub view: View,
    pub place: Option<Point>,
}

/// What pixels that follow one another in a row have in common: their owner, and the column after
/// the last.
#[derive(Clone, Copy)]
pub(crate) struct OwnedColumns {
    pub owner: Option<Owner>,
    pub end: u32,
}

/// The view at place `i` from the front, with its slot.
fn view_at(stack: &Stack, i: u32) -> (ViewRef, View)
    requires { i < length stack.now.views }
    ensures place { slice_get stack.now.views i
        ≡ Some (record { slot = result.0.0; view = result.1 }) }
    ensures stands { has_slot result.0.0 stack.now.views ≡ true }
    ensures slot { slot_view_in result.0.0 stack.now.views
        ≡ Some (record { slot = result.0.0; view = result.1 }) }
    ensures standing { IsStack stack.now }
{
    let v = stack.at(i);
    (v, stack.view(v))
}

/// The place of the label of the view in a slot, where labels are drawn.
pub(crate) fn place_at(lettered: &LetteredLook, v: ViewRef) -> Option<Point>
    requires look { IsLook lettered.now }
    requires stands { has_slot v.0 lettered.now.look.stack.now.views ≡ true }
    ensures { IsTrue (draws_labels lettered.now.look.mode) → (view : View)
        → StandsIn lettered.now v view
        → result ≡ option_map pixel_at (label_place_of (scenery lettered.now) view) }
{
    match lettered.look.mode {
        Mode::Flat => None,
        _ => lettered.look.places[v.0 as usize],
    }
}

/// The view in a slot as an owner, and none where no slot is named.
pub(crate) fn owner_of(lettered: &LetteredLook, slot: Option<ViewRef>) -> Option<Owner>
    requires look { IsLook lettered.now }
    requires stands { IfSome slot (λ v. has_slot v.0 lettered.now.look.stack.now.views ≡ true) }
    ensures owner { (p : Point) → slot ≡ option_map view_ref
        (seat_owner lettered.now.look.stack.now.bar lettered.now.look.stack.now.views p)
        → HasOwner lettered.now p result }
    ensures placed { IfSome result (IsOwner lettered.now) }
{
    match slot {
        Some(v) => {
            let view = lettered.look.stack.view(v);
            let place = place_at(lettered, v);
            Some(Owner { view, place })
        }
        None => None,
    }
}

/// The owner of the pixel in column x of the row y, and the column, at most `to`, up to which the
/// pixels to the right have the same. Those of the bar have none.
pub(crate) fn piece_at(lettered: &LetteredLook, x: u32, y: u32, to: u32) -> OwnedColumns
    requires { AreOnScreen lettered.now x y to }
    ensures owner { HoldsUpTo (λ z. HasOwner lettered.now (point z y) result.owner)
        x to result.end }
    ensures placed { IfSome result.owner (IsOwner lettered.now) }
{
    if is_bar_row(lettered, y) {
        return OwnedColumns {
            owner: None,
            end: to,
        };
    }
    let mut end = to;
    'views: for i in 0..lettered.look.stack.len() {
        let (v, view) = view_at(lettered.look.stack, i);
        let (covered, last) = reach(&view.rect, x, y, end);
        if covered {
            let place = place_at(lettered, v);
            return OwnedColumns {
                owner: Some(Owner { view, place }),
                end: last,
            };
        }
        end = last;
    }
    OwnedColumns { owner: None, end }
}
