//! What the user does, and exactly the pixels that it makes dirty.

ghost use Rattle.std.specs.Prelude.{◌≡◌, ◌+◌, ◌-◌, ◌<◌, All, false, Some};
ghost use Rattle.nit_screen.specs.Terms.{AreGlasses, IsDevice, IsLive, MayLose, Painted, after};
ghost use Rattle.nit_screen.specs.Terms.{deliveries_of, kills, route, routed_as, routing_of};
ghost use Rattle.nit_screen.specs.Terms.{state_of};
ghost use Rattle.nit_events.specs.declared.entry.Entry.TheVariants as entry;
ghost use Rattle.nit_events.specs.declared.event.Status.TheVariants as status;

use crate::screen::Screen;
use crate::screen::sessions::kill_session;
use nit_events::{Device, Routed};
use nit_journal::laws::kills_stand_alone;
use nit_server::killed;
use nit_word::Glasses;

impl Screen {
    /// Serves a device event. Exactly the pixels of a session that is locked out are loaded again.
    pub fn input<L: Glasses>(&mut self, dev: Device, glasses: &mut L) -> Routed
        requires device { IsDevice dev }
        requires live { All (λ d. IsLive (state_of self.old.serving) d.sid)
            (routing_of self.old.serving dev).deliveries }
        requires lost { MayLose 3 self.old.serving }
        requires glasses { AreGlasses self.old.serving.config (L.sights glasses.old) }
        ensures routed { result ≡ routed_as (routing_of self.old.serving dev).deliveries }
        ensures delivered { deliveries_of result ≡ (routing_of self.old.serving dev).deliveries }
        ensures state { state_of self.new.serving ≡ after (state_of self.old.serving)
            (entry.Input dev result) }
        ensures painted { Painted (state_of self.old.serving) (entry.Input dev result)
            (state_of self.new.serving) (L.sights glasses.old) (L.sights glasses.new)
            self.old.raw self.new.raw }
        ensures rest { L.rest glasses.new ≡ L.rest glasses.old }
        ensures quiet { kills (deliveries_of result) ≡ false
            → (self.new.raw ≡ self.old.raw) × (glasses.new ≡ glasses.old) }
    {
        kills_stand_alone();
        self.server.facts();
        let mode = self.server.mode();
        let focus = self.server.focus();
        let routed = self.server.route(dev);
        if let Some(sid) = killed(&routed) {
            kill_session(&mut self.server, sid, &mut self.pixels, glasses);
            return routed;
        }
        self.server.tell_all(&routed);
        self.pixels.show_input(&self.server, mode, focus);
        routed
    }
}
