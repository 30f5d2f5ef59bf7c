//! What the user does.

ghost use Rattle.std.specs.Prelude.{◌≡◌, None, Some, Ok, Err};
ghost use Rattle.nit_host.specs.Terms.{Does, Unserved, after_act, holds_nothing, is_as_shown};
ghost use Rattle.nit_host.specs.Terms.{is_button, is_input, is_moved, option_map, routed_of, told};
ghost use Rattle.nit_host.specs.Terms.{unserved_input};

use crate::host::Host;
use crate::host::area::add_unless;
use crate::host::shown::{is_same_client, owner_among, still_stand};
use crate::host::touch::{bar_or_screen, bar_tells, locks_out, shows_the_same, told};
use crate::refusal::Unserved;
use nit_events::{Device, Entry, Routed};
use nit_rect::Point;
use nit_screen::laws::clean_pixels_keep_their_source;
use nit_stack::View;

/// The greatest code of a key or a button.
const MOST_CODE: u16 = 767;

/// The first code of a button.
const FIRST_BUTTON: u16 = 272;

/// The last code of a button.
const LAST_BUTTON: u16 = 279;

/// The furthest that a wheel may turn back.
const LEAST_TURN: i8 = -127;

impl Host {
    /// Serves what the user does, and answers who is told what: each item goes to one seat's
    /// client, which takes it by the call `Take`, or is locked out. An event that is not served
    /// changes nothing.
    ///
    /// A button that is pressed while nothing is held is served only where the client under the
    /// pointer is the one that the last look showed there. Where it is not, look again, so that the
    /// user sees what a click would hit.
    ///
    /// # Errors
    ///
    /// `BadDevice`, `Moved` and `WornOut`, the first of them that applies.
    pub fn input(&mut self, device: Device) -> Result<Routed, Unserved>
        ensures served { unserved_input self.old device ≡ None
            → (result ≡ Ok (routed_of self.old device)) × (self.new ≡ told device self.old) }
        ensures unserved { (why : Unserved) → unserved_input self.old device ≡ Some why
            → (result ≡ Err why) × (self.new ≡ self.old) }
        ensures act { self.new ≡ after_act self.old (Does device) }
    {
        if let Some(why) = self.unserved_input(device) {
            return Err(why);
        }
        clean_pixels_keep_their_source();
        self.desktop.facts();
        let bar = bar_tells(&self.desktop);
        let before = bar_or_screen(&self.desktop);
        let routed = self.desktop.input(device, &mut self.sheets);
        let after = told(&self.desktop, &routed);
        let is_same = shows_the_same(bar, bar_tells(&self.desktop), &routed);
        add_unless(&mut self.changed, is_same, &before, &after);
        self.stand = still_stand(self.stand, locks_out(&routed));
        self.last = Some(Entry::Input {
            dev: device,
            routed,
        });
        Ok(routed)
    }

    /// Why a device event is not served, if it is not.
    fn unserved_input(&self, device: Device) -> Option<Unserved>
        ensures { result ≡ unserved_input self.now device }
    {
        if !is_input(device) {
            Some(Unserved::BadDevice)
        } else if self.is_moved(device) {
            Some(Unserved::Moved)
        } else {
            self.worn_out()
        }
    }

    /// Whether a button would go to another client than the user saw.
    fn is_moved(&self, device: Device) -> bool
        ensures { result ≡ is_moved self.now.seen self.now.state device }
    {
        match device {
            Device::Press(code) => {
                is_button(code) && self.holds_nothing() && !self.is_as_shown()
            }
            Device::Release(_) | Device::Wheel(_) | Device::Motion(..) => false,
        }
    }

    /// Whether no code is held.
    fn holds_nothing(&self) -> bool
        ensures { result ≡ holds_nothing self.now.state.input.held }
    {
        self.desktop().held().is_empty()
    }

    /// Whether the client under the pointer is the one that the last look showed there.
    fn is_as_shown(&self) -> bool
        ensures { result ≡ is_as_shown self.now.seen self.now.state }
    {
        let (x, y) = self.desktop.pointer();
        let p = Point {
            x: x as i32,
            y: y as i32,
        };
        let seen = owner_among(self.shown.as_slice(), self.desktop.bar(), p);
        is_same_client(&self.came, seat_of(seen), self.desktop.under_pointer())
    }
}

/// The seat of a view's client.
fn seat_of(view: Option<View>) -> Option<u32>
    ensures { result ≡ option_map (λ v. v.sid) view }
{
    match view {
        Some(view) => Some(view.sid),
        None => None,
    }
}

/// Whether the code is a button's.
fn is_button(code: u16) -> bool
    ensures { result ≡ is_button code }
{
    FIRST_BUTTON <= code && code <= LAST_BUTTON
}

/// Whether the numbers of a device event are in range.
fn is_input(device: Device) -> bool
    ensures { result ≡ is_input device }
{
    match device {
        Device::Press(code) | Device::Release(code) => code <= MOST_CODE,
        Device::Wheel(turn) => turn >= LEAST_TURN,
        Device::Motion(..) => true,
    }
}
