//! What can be read of a host.

ghost use Rattle.std.specs.Prelude.{◌≡◌, ◌<◌, ◌≤◌, ◌*◌, false, find, length, IfErr, IfOk, IfSome};
ghost use Rattle.std.specs.Prelude.{IsTrue, None, Some, ℕ};
ghost use Rattle.nit_host.specs.Terms.{IsFreeLabel, TakesIn, client_of, has_label, is_client};
ghost use Rattle.nit_host.specs.Terms.{is_free_in, is_taken, may_come, member, most_comings};
ghost use Rattle.nit_host.specs.Terms.{owner_on, seat_for, seats_of, session, sheet_in};

use crate::client::Client;
use crate::host::Host;
use crate::host::seats::MOST_COMINGS;
use crate::refusal::Unseated;
use nit_desktop::Desktop;
use nit_events::Status;
use nit_glyph::Label;
use nit_rect::Point;
use nit_stack::View;

impl Host {
    /// The server and its screen, to be read: its sessions are the seats.
    pub fn desktop(&self) -> &Desktop
        ensures { result.now.state ≡ self.now.state }
    {
        &self.desktop
    }

    /// The view that owns the pixel in column `x` and row `y`. `None` where no view does, and where
    /// there is no such pixel.
    pub fn owner(&self, x: u32, y: u32) -> Option<View>
        ensures { result ≡ owner_on self.now.state x y }
    {
        self.facts();
        let (width, height) = self.size();
        if width <= x || height <= y {
            return None;
        }
        self.desktop.owner(Point {
            x: x as i32,
            y: y as i32,
        })
    }

    /// How many seats there are, 1..=64. They are counted from 0.
    pub fn seats(&self) -> u32
        ensures { result ≡ length self.now.state.sessions }
    {
        self.desktop.sessions()
    }

    /// The width and the height of the screen, each 1..=4096 pixels.
    pub fn size(&self) -> (u32, u32)
        ensures { result ≡ (self.now.state.config.width, self.now.state.config.height) }
    {
        self.desktop.size()
    }

    /// How many more entries are served: calls and device events, 2^62 at first.
    pub fn left(&self) -> u64
        ensures { result ≡ self.now.left }
    {
        self.desktop.left()
    }

    /// The width and the height of the buffer of a seat's client, in words: 0 by 0 before it has
    /// one. The seat has at least as many words.
    pub fn buffer(&self, seat: u32) -> (u32, u32)
        requires { seat < length self.now.state.sessions }
        ensures size { result
            ≡ ((session self.now.state seat).bw, (session self.now.state seat).bh) }
        ensures within { result.0 * result.1 ≤ length (sheet_in self.now.sheets seat) }
    {
        self.facts();
        self.desktop.buffer(seat)
    }

    /// Whether no seat but this one has the label, or had it last.
    pub fn is_free(&self, seat: u32, label: &Label) -> bool
        ensures free { IsTrue result → IsFreeLabel self.now.state.config seat label.now }
        ensures taken { result ≡ false → IsFreeLabel self.now.state.config seat label.now → ⊥ }
    {
        self.desktop.is_free(seat, label)
    }

    /// The seat in a layer for a client of this label: the free seat of the layer whose last client
    /// had it, else, where no other seat has it, the first free one of the layer. [`Host::seat`] on
    /// the answer is done, and where there is none no seat of the layer takes a client of this
    /// label.
    ///
    /// # Errors
    ///
    /// `LabelTaken` (a client that sits has it, or one of another layer had it last), `NoneFree` and
    /// `WornOut`, the first of them that applies.
    pub fn seat_for(&self, label: &Label, layer: u32) -> Result<u32, Unseated>
        ensures seat { result ≡ seat_for self.now label.now layer }
        ensures takes { IfOk result (λ seat. TakesIn self.now label.now layer seat) }
        ensures none { IfErr result
            (λ why. (seat : ℕ) → TakesIn self.now label.now layer seat → ⊥) }
    {
        self.facts();
        self.sought(label, layer)
    }

    /// The free seat of the layer that has this label, or its first free one.
    fn sought(&self, label: &Label, layer: u32) -> Result<u32, Unseated>
        ensures { result ≡ seat_for self.now label.now layer }
    {
        match self.labelled(label) {
            Some(seat) if self.is_free_in(seat, layer) => self.may_come(seat),
            Some(_) => Err(Unseated::LabelTaken),
            None => match self.first_free(layer) {
                Some(seat) => self.may_come(seat),
                None => Err(Unseated::NoneFree),
            },
        }
    }

    /// The seat, where clients may still come.
    fn may_come(&self, seat: u32) -> Result<u32, Unseated>
        ensures { result ≡ may_come self.now seat }
    {
        if self.turns.given < MOST_COMINGS {
            Ok(seat)
        } else {
            Err(Unseated::WornOut)
        }
    }

    /// The first seat that has this label.
    fn labelled(&self, label: &Label) -> Option<u32>
        ensures found { result ≡ find (has_label self.now.state label.now)
            (seats_of self.now.state) }
        ensures known { IfSome result (λ seat. seat < length self.now.state.sessions) }
    {
        'seats: for seat in 0..self.seats() {
            if self.has_label(seat, label) {
                return Some(seat);
            }
        }
        None
    }

    /// The first seat of a layer that is free.
    fn first_free(&self, layer: u32) -> Option<u32>
        ensures { result ≡ find (is_free_in self.now.state layer) (seats_of self.now.state) }
    {
        'seats: for seat in 0..self.seats() {
            if self.is_free_in(seat, layer) {
                return Some(seat);
            }
        }
        None
    }

    /// Whether the seat is free, and of this layer.
    fn is_free_in(&self, seat: u32, layer: u32) -> bool
        requires { seat < length self.now.state.sessions }
        ensures { result ≡ is_free_in self.now.state layer seat }
    {
        !self.is_taken(seat) && self.desktop.layer(seat) == layer
    }

    /// The client that sits there, or sat there last.
    pub fn client(&self, seat: u32) -> Client
        requires { seat < length self.now.state.sessions }
        ensures client { result ≡ client_of self.now seat }
        ensures turn { result.turn ≤ most_comings }
    {
        self.facts();
        Client {
            seat,
            turn: self.turns.of[seat as usize],
        }
    }

    /// Whether the seat's client, or its last one, is this one.
    pub(crate) fn is_client(&self, client: Client) -> bool
        requires { client.seat < length self.now.state.sessions }
        ensures { result ≡ is_client self.now client }
    {
        self.client(client.seat).turn == client.turn
    }

    /// Whether a client sits there.
    pub(crate) fn is_taken(&self, seat: u32) -> bool
        requires { seat < length self.now.state.sessions }
        ensures { result ≡ is_taken self.now.state seat }
    {
        match self.desktop.status(seat) {
            Status::Live => true,
            Status::Closed | Status::Killed => false,
        }
    }

    /// Whether the seat has this label.
    fn has_label(&self, seat: u32, label: &Label) -> bool
        requires { seat < length self.now.state.sessions }
        ensures { result ≡ has_label self.now.state label.now seat }
    {
        self.desktop.label(seat).as_bytes() == label.as_bytes()
    }
}
