ghost use Rattle.std.specs.Prelude.{◌≡◌, ◌↔◌, ◌<◌, ◌≤◌, [], ◌∷◌, ◌++◌, length, IsTrue, IsNone};
ghost use Rattle.std.specs.Prelude.{IfNone, IfSome, IfOk};
ghost use Rattle.nit_events.specs.Terms.{OnFalse, OnTrue, most_waiting};

use crate::event::Event;
use circular_buffer::HeapCircularBuffer;
use nit_rect::NoMemory;
use std::alloc::Global;
use std::marker::Model;

/// How many events may wait.
const MOST: usize = 64;

/// The events that wait for a session, at most 64, seen as their list in the order in which they
/// came.
#[derive(Drop)]
pub struct Queue {
    events: HeapCircularBuffer<Event>,
}

impl Model for Queue {
    ghost use Rattle.std.specs.Prelude.{List, length};
    ghost use Rattle.nit_events.specs.declared.event.Event.{Event};
    ghost use Rattle.nit_events.specs.Ranges.{IsQueue};

    ghost Value = { List Event };

    ghost view = { λ q. q.events.items };

    ghost invariant = { λ q. IsQueue q.events.capacity (length q.events.items) };
}

impl Queue {
    /// An empty queue. All memory that it will ever use is taken here.
    pub fn new(alloc: Global) -> Result<Queue, NoMemory>
        ensures { IfOk result (λ q. q ≡ []) }
    {
        let events = HeapCircularBuffer::with_capacity(alloc, MOST)?;
        Ok(Queue { events })
    }

    /// Puts the event after all others. False exactly where 64 wait already; the queue is then
    /// unchanged.
    pub fn offer(&mut self, e: Event) -> bool
        ensures room { IsTrue result ↔ (length self.old < most_waiting) }
        ensures last { OnTrue result (self.new ≡ self.old ++ e ∷ []) }
        ensures full { OnFalse result ((length self.old ≡ most_waiting) × (self.new ≡ self.old)) }
    {
        self.events.try_push_back(e).is_ok()
    }

    /// Takes the oldest event out. None exactly where none waits.
    pub fn take(&mut self) -> Option<Event>
        ensures none { IsNone result ↔ (self.old ≡ []) }
        ensures first { IfSome result (λ e. self.old ≡ e ∷ self.new) }
        ensures unchanged { IfNone result (self.new ≡ self.old) }
    {
        self.events.pop_front()
    }

    /// How many events wait.
    pub fn len(&self) -> u32
        ensures value { result ≡ length self.now }
        ensures most { result ≤ most_waiting }
    {
        self.events.len() as u32
    }

    /// Drops all events.
    pub fn clear(&mut self)
        ensures { self.new ≡ [] }
    {
        self.events.clear();
    }
}
