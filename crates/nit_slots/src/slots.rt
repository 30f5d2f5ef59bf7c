ghost use Rattle.std.specs.Prelude.{◌≡◌, ◌+◌, ◌<◌, ◌≤◌, true, false, [], IfOk, length};
ghost use Rattle.std.specs.Prelude.{vec_capacity};
ghost use Rattle.nit_slots.specs.Terms.{AreSlots, is_slot_taken, most_slots, range_with_len, spare};
ghost use Rattle.nit_slots.specs.Terms.{with_slot, without_slot};

use nit_rect::NoMemory;
use std::alloc::{AllocError, Global};
use std::marker::Model;

/// The slots that the views of all sessions stand in, numbered from 0. They are seen as how many
/// there are and the list of those that are taken.
#[derive(Drop)]
pub struct Slots {
    total: u32,
    free: Vec<u32>,
}

impl Model for Slots {
    ghost use Rattle.std.specs.Prelude.{◌≤◌, vec_capacity};
    ghost use Rattle.nit_slots.specs.Slots.{SlotsModel};
    ghost use Rattle.nit_slots.specs.FreeSlots.{taken_beside, IsFreeList};

    ghost Value = { SlotsModel };

    ghost view = { λ s. record { total = s.total; taken = taken_beside s.free.items s.total } };

    ghost invariant = { λ s. record {
      free : IsFreeList s.free.items s.total;
      space : s.total ≤ vec_capacity s.free;
    } };
}

impl Slots {
    /// This many slots, at most 4096, of which none is taken. All memory for them is taken here.
    pub fn new(alloc: Global, total: u32) -> Result<Slots, NoMemory>
        requires { total ≤ most_slots }
        ensures { IfOk result (λ s. s ≡ record { total = total; taken = [] }) }
    {
        let free = numbers_below(alloc, total)?;
        Ok(Slots { total, free })
    }

    /// How many slots are taken.
    pub fn taken(&self) -> u32
        ensures count { result ≡ length self.now.taken }
        ensures occupancy { AreSlots self.now }
    {
        self.total - self.free.len() as u32
    }

    /// Takes a slot that was free; which one is open.
    pub(crate) fn take(&mut self) -> u32
        requires { 0 < spare self.old }
        ensures below { result < self.old.total }
        ensures free { is_slot_taken self.old result ≡ false }
        ensures taken { self.new ≡ record self.old { taken = with_slot self.old.taken result } }
        ensures more { length self.new.taken ≡ length self.old.taken + 1 }
    {
        self.free.pop().unwrap()
    }

    /// Makes a taken slot free.
    pub(crate) fn give_back(&mut self, slot: u32)
        requires { is_slot_taken self.old slot ≡ true }
        ensures taken { self.new ≡ record self.old { taken = without_slot self.old.taken slot } }
        ensures fewer { length self.new.taken + 1 ≡ length self.old.taken }
    {
        self.free.push_reserved(slot);
    }
}

/// The numbers from 0 to below `total`.
fn numbers_below(alloc: Global, total: u32) -> Result<Vec<u32>, AllocError>
    ensures { IfOk result (λ v. v.items ≡ range_with_len 0 total) }
{
    (0..total).collect(alloc)
}
