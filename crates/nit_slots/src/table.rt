ghost use Rattle.std.specs.Prelude.{◌≡◌, ◌+◌, ◌-◌, ◌^◌, ◌<◌, ◌≤◌, ◌↔◌, true, false, [], ◌∷◌, ◌++◌};
ghost use Rattle.std.specs.Prelude.{IfOk, IsSome, IsNone, IfSome, IsSomeAnd, All, length};
ghost use Rattle.std.specs.Prelude.{vec_capacity};
ghost use Rattle.nit_slots.specs.Terms.{IsTable, has_handle, is_slot_taken, last_handle};
ghost use Rattle.nit_slots.specs.Terms.{most_views};
ghost use Rattle.nit_slots.specs.Terms.{slot_of, spare, with_slot, without_handle, without_slot};

use crate::slots::Slots;
use nit_rect::NoMemory;
use std::alloc::Global;
use std::marker::Model;

/// The views that one session holds, each as its handle and its slot, in the order of creation.
/// Handles are given as 1, 2, 3 and so on, and none twice before [`restart`](Table::restart).
#[derive(Drop)]
pub struct Table {
    pairs: Vec<(u32, u32)>,
    next: u32,
    most: u32,
}

impl Model for Table {
    ghost use Rattle.std.specs.Prelude.{◌≤◌, vec_capacity};
    ghost use Rattle.nit_slots.specs.Table.{TableModel, IsTable};

    ghost Value = { TableModel };

    ghost view = { λ t. record { pairs = t.pairs.items; next = t.next; most = t.most } };

    ghost invariant = { λ t. record {
      table : IsTable (record { pairs = t.pairs.items; next = t.next; most = t.most });
      space : t.most ≤ vec_capacity t.pairs;
    } };
}

impl Table {
    /// A table of no view, with room for `most` at a time, at most 64. All memory for them is taken
    /// here.
    pub fn new(alloc: Global, most: u32) -> Result<Table, NoMemory>
        requires { most ≤ most_views }
        ensures { IfOk result (λ t. t ≡ record { pairs = []; next = 1; most = most }) }
    {
        Ok(Table {
            pairs: Vec::with_capacity(alloc, most as usize)?,
            next: 1,
            most,
        })
    }

    /// The handle of the next view.
    pub fn next(&self) -> u32
        ensures { result ≡ self.now.next }
    {
        self.next
    }

    /// Handles begin at 1 again. The table holds no view.
    pub fn restart(&mut self)
        requires { self.old.pairs ≡ [] }
        ensures { self.new ≡ record self.old { next = 1 } }
    {
        self.next = 1;
    }

    /// A new view: the next handle, and a slot that was free. Which of the free slots it is, is
    /// open. There is a free slot, the table holds fewer than `most`, and the next handle is below
    /// 2^32 - 1.
    pub fn create(&mut self, slots: &mut Slots) -> (u32, u32)
        requires free { 0 < spare slots.old }
        requires room { length self.old.pairs < self.old.most }
        requires next { self.old.next < last_handle }
        ensures handle { result.0 ≡ self.old.next }
        ensures was_not_held { has_handle self.old.pairs result.0 ≡ false }
        ensures below { result.1 < slots.old.total }
        ensures was_free { is_slot_taken slots.old result.1 ≡ false }
        ensures table { self.new
            ≡ record self.old { pairs = self.old.pairs ++ result ∷ []; next = self.old.next + 1 } }
        ensures slots { slots.new
            ≡ record slots.old { taken = with_slot slots.old.taken result.1 } }
        ensures more_taken { length slots.new.taken ≡ length slots.old.taken + 1 }
    {
        let view = (self.next, slots.take());
        self.pairs.push_reserved(view);
        self.next += 1;
        view
    }

    /// The slot of h. None exactly where h is not held.
    pub fn find(&self, h: u32) -> Option<u32>
        ensures slot { result ≡ slot_of self.now.pairs h }
        ensures none { IsNone result ↔ (has_handle self.now.pairs h ≡ false) }
        ensures table { IsTable self.now }
    {
        slot_of(self.pairs.as_slice(), h)
    }

    /// Takes h out of the table and makes its slot free. The handle h is held, and its slot is
    /// taken in `slots`.
    pub fn destroy(&mut self, slots: &mut Slots, h: u32)
        requires { IsSomeAnd (slot_of self.old.pairs h)
            (λ slot. is_slot_taken slots.old slot ≡ true) }
        ensures table { self.new ≡ record self.old { pairs = without_handle self.old.pairs h } }
        ensures slots { IsSomeAnd (slot_of self.old.pairs h) (λ slot.
            slots.new ≡ record slots.old { taken = without_slot slots.old.taken slot }) }
        ensures fewer_held { length self.new.pairs + 1 ≡ length self.old.pairs }
        ensures fewer_taken { length slots.new.taken + 1 ≡ length slots.old.taken }
    {
        let slot = self.find(h).unwrap();
        slots.give_back(slot);
        remove(&mut self.pairs, h);
    }

    /// The greatest held handle. None exactly where none is held.
    pub fn last(&self) -> Option<u32>
        ensures none { IsNone result ↔ (self.now.pairs ≡ []) }
        ensures held { IfSome result (λ h. has_handle self.now.pairs h ≡ true) }
        ensures greatest { IfSome result (λ h. All (λ p. p.0 ≤ h) self.now.pairs) }
        ensures table { IsTable self.now }
    {
        self.pairs.last().map(|pair| pair.0)
    }
}

/// The slot of the first pair with the handle h.
fn slot_of(pairs: &[(u32, u32)], h: u32) -> Option<u32>
    ensures { result ≡ slot_of pairs.now h }
{
    pairs.iter().find(|pair| pair.0 == h).map(|pair| pair.1)
}

/// Takes the pair with the handle h out of the list.
fn remove(pairs: &mut Vec<(u32, u32)>, h: u32)
    ensures items { pairs.new.items ≡ without_handle pairs.old.items h }
    ensures capacity { vec_capacity pairs.new ≡ vec_capacity pairs.old }
{
    pairs.retain(|pair| pair.0 != h);
}
