//! Places in the order of the slots, front first.

ghost use Rattle.std.specs.Prelude.{◌≡◌, ℕ, ◌<◌, ◌≤◌, ◌==◌, All, filter, find, length, nat_le, not};
ghost use Rattle.nit_stack.specs.Terms.{HasLayer, covers, insert, layer_in, option_map};
ghost use Rattle.nit_stack.specs.Terms.{position_or_len, put_above, put_back, put_own_back};
ghost use Rattle.nit_stack.specs.Terms.{put_own_front, slice_get, slot_view, vec_capacity, vec_len};
ghost use Rattle.nit_stack.specs.Terms.{without};

use crate::view::{View, ViewRef};
use nit_rect::Point;

/// The front-most slot whose view covers the pixel.
pub(crate) fn covering(order: &[u32], slots: &[View], p: Point) -> Option<ViewRef>
    requires { All (λ k. k < length slots.now) order.now }
    ensures { result ≡ option_map (λ k. record { 0 = k })
        (find (λ k. covers (slot_view slots.now k).view.rect p) order.now) }
{
    for k in order {
        if slots[*k as usize].rect.covers(p) {
            return Some(ViewRef(*k));
        }
    }
    None
}

/// The slot at a place. None where the order ends before it.
pub(crate) fn ref_at(order: &[u32], place: usize) -> Option<ViewRef>
    ensures { result ≡ option_map (λ k. record { 0 = k }) (slice_get order.now place) }
{
    if order.len() <= place {
        return None;
    }
    Some(ViewRef(order[place]))
}

/// The place of a slot. The number of slots where it is not there.
pub(crate) fn place_of(order: &[u32], slot: u32) -> usize
    ensures place { result ≡ position_or_len (λ k. k == slot) order.now }
    ensures within { result ≤ length order.now }
{
    for (i, k) in order.iter().enumerate() {
        if *k == slot {
            return i;
        }
    }
    order.len()
}

/// The layer of the session of the view in a slot.
fn layer_at(slots: &[View], layers: &[u32], slot: u32) -> u32
    requires { HasLayer slots.now layers.now slot }
    ensures { result ≡ layer_in slots.now layers.now slot }
{
    layers[slots[slot as usize].sid as usize]
}

/// The place of the first slot of this layer or of a layer behind. The number of slots where there
/// is none.
fn front_place(order: &[u32], slots: &[View], layers: &[u32], layer: u32) -> usize
    requires { All (HasLayer slots.now layers.now) order.now }
    ensures place { result
        ≡ position_or_len (λ k. nat_le layer (layer_in slots.now layers.now k)) order.now }
    ensures within { result ≤ length order.now }
{
    for (i, k) in order.iter().enumerate() {
        if layer <= layer_at(slots, layers, *k) {
            return i;
        }
    }
    order.len()
}

/// The place behind the last slot of this layer or of a layer in front. The first place where there
/// is none.
fn back_place(order: &[u32], slots: &[View], layers: &[u32], layer: u32) -> usize
    requires { All (HasLayer slots.now layers.now) order.now }
    ensures place { (v : ℕ) → insert order.now result v
        ≡ put_back (layer_in slots.now layers.now) layer v order.now }
    ensures within { result ≤ length order.now }
{
    for i in (0..order.len()).rev() {
        if layer_at(slots, layers, order[i]) <= layer {
            return i + 1;
        }
    }
    0
}

/// Takes a slot out.
pub(crate) fn take_out(order: &mut Vec<u32>, slot: u32)
    ensures items { order.new.items ≡ without (λ k. k == slot) order.old.items }
    ensures capacity { vec_capacity order.new ≡ vec_capacity order.old }
{
    order.retain(|k| *k != slot);
}

/// Puts a slot in, in front of all slots of its layer and of the layers behind, within the room
/// that there is.
pub(crate) fn put_in_front(order: &mut Vec<u32>, slots: &[View], layers: &[u32], slot: u32)
    requires kept { All (HasLayer slots.now layers.now) order.old.items }
    requires slot { HasLayer slots.now layers.now slot }
    requires room { vec_len order.old < vec_capacity order.old }
    ensures items { order.new.items
        ≡ put_own_front (layer_in slots.now layers.now) slot order.old.items }
    ensures capacity { vec_capacity order.new ≡ vec_capacity order.old }
{
    let layer = layer_at(slots, layers, slot);
    let place = front_place(order.as_slice(), slots, layers, layer);
    put_in(order, place, slot);
}

/// Puts a slot in, behind all slots of its layer and of the layers in front, within the room that
/// there is.
pub(crate) fn put_in_back(order: &mut Vec<u32>, slots: &[View], layers: &[u32], slot: u32)
    requires kept { All (HasLayer slots.now layers.now) order.old.items }
    requires slot { HasLayer slots.now layers.now slot }
    requires room { vec_len order.old < vec_capacity order.old }
    ensures items { order.new.items
        ≡ put_own_back (layer_in slots.now layers.now) slot order.old.items }
    ensures capacity { vec_capacity order.new ≡ vec_capacity order.old }
{
    let layer = layer_at(slots, layers, slot);
    let place = back_place(order.as_slice(), slots, layers, layer);
    put_in(order, place, slot);
}

/// Puts a slot in directly in front of `next`, within the room that there is.
pub(crate) fn put_in_above(order: &mut Vec<u32>, slot: u32, next: u32)
    requires { vec_len order.old < vec_capacity order.old }
    ensures items { order.new.items ≡ put_above (λ k. k == next) slot order.old.items }
    ensures capacity { vec_capacity order.new ≡ vec_capacity order.old }
{
    let place = place_of(order.as_slice(), next);
    put_in(order, place, slot);
}

/// Puts a slot in at a place, within the room that there is.
fn put_in(order: &mut Vec<u32>, place: usize, slot: u32)
    requires place { place ≤ vec_len order.old }
    requires room { vec_len order.old < vec_capacity order.old }
    ensures items { order.new.items ≡ insert order.old.items place slot }
    ensures capacity { vec_capacity order.new ≡ vec_capacity order.old }
{
    let put = order.insert(place, slot);
    prove!(put.is_ok());
}
