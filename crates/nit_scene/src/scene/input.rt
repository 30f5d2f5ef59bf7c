//! What the user does.

ghost use Rattle.std.specs.Prelude.{◌≡◌, All, false, map};
ghost use Rattle.nit_scene.specs.Terms.{AreInked, CanAdd, FollowPresses, IsAdded, IsDevice, IsLive};
ghost use Rattle.nit_scene.specs.Terms.{IsOpen, Painted, deliveries_of, glass_in, kills, route};
ghost use Rattle.nit_scene.specs.Terms.{routed_as, state_now};
ghost use Rattle.nit_events.specs.declared.entry.Entry.TheVariants as entry;

use crate::scene::Scene;
use crate::scene::beside::input_shown;
use nit_events::{Device, Entry, Routed};
use nit_journal::laws::{deliveries_go_to_live_sessions, isolation, releases_follow_presses};
use nit_screen::laws::{ink_stays, raw_stays_raw};
use nit_word::Glass;

impl<G: Glass + Drop> Scene<G> {
    /// Serves what the user does, and records it with what it delivers, and to whom. A session that
    /// is locked out loses its views, and the pixels that it owned are loaded again through the
    /// scene's glasses; nothing else is loaded. Codes are at most 767, and a wheel turns by
    /// -127..=127. The journal has room for one entry more and is not ended.
    pub fn input(&mut self, dev: Device) -> Routed
        requires device { IsDevice dev }
        requires journal { CanAdd self.old }
        ensures routed { let s = state_now self.old in result ≡ routed_as
            (route s.config s.input s.stack dev).deliveries }
        ensures delivered { let s = state_now self.old in deliveries_of result ≡
            (route s.config s.input s.stack dev).deliveries }
        ensures added { IsAdded self.old self.new (entry.Input dev result) }
        ensures open { IsOpen self.new.entries }
        ensures painted { Painted (state_now self.old) (entry.Input dev result) (state_now self.new)
            (glass_in (map G.sight self.old.glasses)) (glass_in (map G.sight self.new.glasses))
            self.old.raw self.new.raw }
        ensures rests { map G.rest self.new.glasses ≡ map G.rest self.old.glasses }
        ensures inked { AreInked (state_now self.old) (glass_in (map G.sight self.old.glasses))
            self.old.raw
            → AreInked (state_now self.new) (glass_in (map G.sight self.new.glasses)) self.new.raw }
        ensures live { All (λ d. IsLive (state_now self.old) d.sid) (deliveries_of result) }
        ensures pressed { FollowPresses self.new.entries }
        ensures quiet { kills (deliveries_of result) ≡ false → (self.new.raw ≡ self.old.raw) ×
            (self.new.glasses ≡ self.old.glasses) }
    {
        raw_stays_raw();
        ink_stays();
        isolation();
        releases_follow_presses();
        deliveries_go_to_live_sessions();
        let routed = input_shown(&mut self.screen, dev, &mut self.glasses);
        self.journal.append(Entry::Input { dev, routed });
        routed
    }
}
