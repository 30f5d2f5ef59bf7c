//! What the user does, and a shot.

ghost use Rattle.std.specs.Prelude.{◌≡◌, ◌+◌, ◌*◌, All, false, length};
ghost use Rattle.nit_hall.specs.Terms.{HasActed, IsAtDevice, IsAtShot, IsNearFrame, IsWord};
ghost use Rattle.nit_hall.specs.Terms.{Painted, UserIsReadyAt, deliveries_of, device_entry, frame};
ghost use Rattle.nit_hall.specs.Terms.{glass_in, kills, lenses, next_device, route, routed_as};
ghost use Rattle.nit_hall.specs.Terms.{scenery_of, shots, stands, state_now, with_entry};
ghost use Rattle.nit_events.specs.declared.entry.Entry.TheVariants as entry;

use crate::room::Room;
use crate::room::entry_laws::one_more;
use crate::room::shown::Shown;
use crate::user::UserPass;
use nit_events::{Entry, Routed};

impl<'a> Room<'a> {
    /// Does the user's next line, which is of a device: it is the scene's input of that very line.
    /// The user's pass is of this room's opening and ready.
    pub fn user(&mut self, user: &mut UserPass<'a>) -> Routed
        requires { UserIsReadyAt self.old.parts self.old.phase IsAtDevice user.old }
        ensures routed { let s = state_now self.old.scene in
            result ≡ routed_as (route s.config s.input s.stack (next_device user.old)).deliveries }
        ensures delivered { let s = state_now self.old.scene in deliveries_of result
            ≡ (route s.config s.input s.stack (next_device user.old)).deliveries }
        ensures room { self.new ≡ with_entry self.old (length self.old.parts.scripts)
            (device_entry user.old result) self.new.scene.raw self.new.scene.glasses }
        ensures acted { HasActed self.old user.old self.new user.new }
        ensures painted { Painted (state_now self.old.scene) (device_entry user.old result)
            (state_now self.new.scene) (glass_in (lenses self.old.scene))
            (glass_in (lenses self.new.scene)) self.old.scene.raw self.new.scene.raw }
        ensures stands { stands self.new.scene ≡ stands self.old.scene }
        ensures quiet { kills (deliveries_of result) ≡ false
            → (self.new.scene.raw ≡ self.old.scene.raw)
            × (self.new.scene.glasses ≡ self.old.scene.glasses) }
    {
        one_more();
        self.meet_user(user);
        let dev = user.next_device();
        let routed = self.scene.input(dev);
        let entry = Entry::Input { dev, routed };
        self.book
            .append(&mut user.share, &entry, &Shown { scene: &self.scene });
        user.next += 1;
        routed
    }

    /// Does the user's next line, which is `shot`: sets `out`, which has a word for each pixel, to
    /// the frame. Gives the number of the shot, from 1. The user's pass is of this room's opening
    /// and ready.
    pub fn shoot(&mut self, user: &mut UserPass<'a>, out: &mut [u32]) -> u32
        requires user { UserIsReadyAt self.old.parts self.old.phase IsAtShot user.old }
        requires out { length out.old ≡ self.old.parts.config.width * self.old.parts.config.height }
        ensures number { result ≡ shots self.old.scene.entries + 1 }
        ensures frame { out.new ≡ frame (scenery_of (state_now self.old.scene)) self.old.scene.raw }
        ensures near { IsNearFrame self.old.parts.config self.old.parts.scripts
            self.old.parts.input self.old.scene.entries out.new }
        ensures words { All IsWord out.new }
        ensures room { self.new ≡ with_entry self.old (length self.old.parts.scripts)
            (entry.Shot result) self.old.scene.raw self.old.scene.glasses }
        ensures acted { HasActed self.old user.old self.new user.new }
    {
        one_more();
        self.meet_user(user);
        let _few = user.input.lines().len();
        let number = self.scene.shot(out);
        let entry = Entry::Shot { number };
        self.book
            .append(&mut user.share, &entry, &Shown { scene: &self.scene });
        user.next += 1;
        number
    }
}
