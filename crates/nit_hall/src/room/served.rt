//! Which phase is served, as a value that only the room gives.

ghost use Rattle.std.specs.Prelude.{◌≡◌};

use crate::room::Room;
use std::marker::Model;

/// A phase that was served when this was made. Nobody can make it up: it comes from the room
/// ([`Room::served`]), or is the first phase, in which every room begins.
#[derive(Drop)]
pub(crate) struct Served {
    phase: u32,
}

impl Model for Served {
    ghost use Rattle.std.specs.Prelude.{ℕ};

    ghost Value = { ℕ };

    ghost view = { λ s. s.phase };
}

impl Served {
    /// The first phase.
    pub(crate) fn first() -> Served
        ensures { result ≡ 0 }
    {
        Served { phase: 0 }
    }

    /// Its number, from 0.
    pub(crate) fn phase(&self) -> u32
        ensures { result ≡ self.now }
    {
        self.phase
    }
}

impl<'a> Room<'a> {
    /// The phase that is served.
    pub(crate) fn served(&self) -> Served
        ensures { result ≡ self.now.phase }
    {
        Served { phase: self.phase }
    }
}
