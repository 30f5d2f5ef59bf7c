//! The gate of a run, and what all actors of a run share.

use nit_hall::{Hall, Name};

/// A gate that actors on threads of their own pass before each line, outside the lock. It answers
/// nothing, so no result of a run depends on it; a test makes threads meet by it.
pub trait Gate: Sync {
    /// The actor comes to this line. Clients are actors 0, 1 and so on, the user is the last one,
    /// and lines count from 1.
    fn at(&self, actor: u32, line: u32);
}

/// The gate that does nothing.
#[derive(Clone, Copy, Debug)]
pub struct Open;

impl Gate for Open {
    fn at(&self, _actor: u32, _line: u32) {}
}

/// Where an actor comes before each line: a borrowed gate. What threads do is generic in this,
/// since a bound `Gate` cannot stand at a method of a trait that they call.
pub(crate) trait Checkpoint {
    fn reach(&self, actor: u32, line: u32);
}

impl<'h, G: Gate> Checkpoint for &'h G {
    fn reach(&self, actor: u32, line: u32) {
        (*self).at(actor, line)
    }
}

/// What all actors of a run share: its hall, and the borrowed gate that each passes before a line.
#[derive(Drop)]
pub struct GatedHall<'h, 'a, N: Name, K> {
    pub hall: &'h Hall<'a, N>,
    pub gate: K,
}
