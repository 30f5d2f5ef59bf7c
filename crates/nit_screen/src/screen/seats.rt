//! Sessions that open again, and exactly the pixels that this makes dirty.

ghost use Rattle.std.specs.Prelude.{◌≡◌, ◌<◌, length};
ghost use Rattle.nit_screen.specs.Terms.{AreGlasses, IsFreeLabel, Repainted, pixel, pixel_count};
ghost use Rattle.nit_screen.specs.Terms.{session_owns, state_of, with_reopened};
ghost use Rattle.nit_screen.specs.RawWords.{source_at as scene_source_at};

use crate::screen::Screen;
use crate::screen::sessions::kill_session;
use nit_glyph::Label;
use nit_word::Glasses;

impl Screen {
    /// Whatever is left of a session goes, and exactly the pixels that it owned are loaded again.
    /// Then the session is the first one of its donation again, under this label, which no other
    /// session has.
    pub fn reopen<L: Glasses>(&mut self, sid: u32, label: Label, glasses: &mut L)
        requires session { sid < length self.old.serving.sessions }
        requires free { IsFreeLabel self.old.serving.config sid label }
        requires glasses { AreGlasses self.old.serving.config (L.sights glasses.old) }
        ensures serving { self.new.serving ≡ with_reopened sid label self.old.serving }
        ensures painted { Repainted (scene_source_at (state_of self.new.serving))
            (λ k. session_owns sid (state_of self.old.serving)
            (pixel self.old.serving.config.width k))
            (pixel_count (state_of self.old.serving)) (L.sights glasses.old) (L.sights glasses.new)
            self.old.raw self.new.raw }
        ensures rest { L.rest glasses.new ≡ L.rest glasses.old }
    {
        self.server.facts();
        kill_session(&mut self.server, sid, &mut self.pixels, glasses);
        self.server.open(sid, label);
        self.pixels.labels.texts[sid as usize] = label;
        self.pixels.mark();
    }
}
