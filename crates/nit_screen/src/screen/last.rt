//! The whole screen, for the last picture.

ghost use Rattle.std.specs.Prelude.{◌≡◌};
ghost use Rattle.nit_screen.specs.Terms.{AreGlasses, Painted, state_of};
ghost use Rattle.nit_events.specs.declared.entry.Entry.TheVariants as entry;

use crate::screen::Screen;
use nit_word::Glasses;

impl Screen {
    /// Loads every pixel again.
    pub fn load_all<L: Glasses>(&mut self, glasses: &mut L)
        requires glasses { AreGlasses self.old.serving.config (L.sights glasses.old) }
        ensures serving { self.new.serving ≡ self.old.serving }
        ensures painted { Painted (state_of self.old.serving) entry.Final
            (state_of self.new.serving) (L.sights glasses.old) (L.sights glasses.new)
            self.old.raw self.new.raw }
        ensures rest { L.rest glasses.new ≡ L.rest glasses.old }
    {
        self.server.facts();
        self.pixels
            .painter
            .paint_whole(self.server.stack(), glasses);
        self.pixels.show_again(&self.server);
    }
}
