ghost use Rattle.std.specs.Prelude.{◌≡◌, ◌≤◌, length, drop, slice_get, option_map};
ghost use Rattle.nit_rounds.specs.Terms.{most_sessions, rounds, turn_of};

use crate::places::Places;
use crate::turn::Turn;
use nit_script::{Client, Input};
use std::marker::Model;

/// The rounds of some scripts, given turn by turn, and seen as the list of the moves that are left.
/// It takes no memory: it keeps one place per script.
#[derive(Debug, Drop)]
pub struct Turns<'a> {
    scripts: &'a [Client],
    input: &'a Input,
    places: Places,
}

impl<'a> Model for Turns<'a> {
    ghost use Rattle.std.specs.Prelude.{List};
    ghost use Rattle.nit_rounds.specs.Turn.{LineTurn};
    ghost use Rattle.nit_rounds.specs.Places.{turns_left, ArePlaces};

    ghost Value = { List LineTurn };

    ghost view = { λ t. turns_left t.scripts.now t.input.now t.places };

    ghost invariant = { λ t. ArePlaces t.scripts.now t.input.now t.places };
}

impl<'a> Turns<'a> {
    /// The rounds of the scripts of at most 64 clients and of the user, from the first one on.
    pub fn new(scripts: &'a [Client], input: &'a Input) -> Turns<'a>
        requires { length scripts.now ≤ most_sessions }
        ensures { result ≡ rounds scripts.now input.now }
    {
        Turns {
            scripts,
            input,
            places: Places::new(scripts, input),
        }
    }

    /// The next turn, or `None` once all scripts are done, and ever after.
    pub fn next(&mut self) -> Option<Turn>
        ensures turn { result ≡ option_map turn_of (slice_get self.old 0) }
        ensures left { self.new ≡ drop 1 self.old }
    {
        if !self.places.advance(self.scripts, self.input) {
            return None;
        }
        Some(self.places.step(self.scripts, self.input))
    }
}
