//! Clients that come.

ghost use Rattle.std.specs.Prelude.{◌≡◌, ◌≤◌, None, Some, Ok, Err, IfOk};
ghost use Rattle.nit_host.specs.Terms.{Comes, Unseated, after_act, most_comings, next_client};
ghost use Rattle.nit_host.specs.Terms.{seated, seat_turn, unseated};

use crate::client::Client;
use crate::host::Host;
use crate::host::touch::bar_or_screen;
use crate::refusal::Unseated;
use nit_glyph::Label;
use nit_screen::laws::openings_keep_all;

/// How many clients may come to a host.
pub(crate) const MOST_COMINGS: u64 = 281_474_976_710_655;

impl Host {
    /// Gives a free seat to a client, under a label that no other seat has or had last. The client
    /// begins with the seat's donation, no view, no buffer and no event; its handles begin at 1,
    /// and its words are 0. Nothing of an earlier client of the seat is left, and nothing else
    /// changes. What is answered names the client, and none before it was named so.
    ///
    /// # Errors
    ///
    /// `NoSeat`, `Taken`, `LabelTaken` and `WornOut`, the first of them that applies.
    pub fn seat(&mut self, seat: u32, label: Label) -> Result<Client, Unseated>
        ensures seated { unseated self.old seat label ≡ None
            → (result ≡ Ok (next_client self.old seat)) × (self.new ≡ seated seat label self.old) }
        ensures turn { IfOk result (λ client. client.turn ≤ most_comings) }
        ensures unseated { (why : Unseated) → unseated self.old seat label ≡ Some why
            → (result ≡ Err why) × (self.new ≡ self.old) }
        ensures act { self.new ≡ after_act self.old (Comes seat label) }
    {
        if let Some(why) = self.unseated(seat, &label) {
            return Err(why);
        }
        openings_keep_all();
        self.desktop.facts();
        let part = bar_or_screen(&self.desktop);
        self.sheets[seat as usize].wipe();
        self.desktop.reopen(seat, label, &mut self.sheets);
        self.changed.add(&part);
        self.came[seat as usize] = true;
        self.last = None;
        self.turns.given += 1;
        self.turns.of[seat as usize] = self.turns.given;
        Ok(Client {
            seat,
            turn: self.turns.given,
        })
    }

    /// Why a client is not given this seat, if it is not.
    fn unseated(&self, seat: u32, label: &Label) -> Option<Unseated>
        ensures { result ≡ unseated self.now seat label.now }
    {
        self.facts();
        if self.seats() <= seat {
            Some(Unseated::NoSeat)
        } else if self.is_taken(seat) {
            Some(Unseated::Taken)
        } else if !self.is_free(seat, label) {
            Some(Unseated::LabelTaken)
        } else if self.turns.given >= MOST_COMINGS {
            Some(Unseated::WornOut)
        } else {
            None
        }
    }
}
