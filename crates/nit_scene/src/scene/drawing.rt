//! Words that are set in the scene's own glasses, where these are such that can be drawn in.

ghost use Rattle.std.specs.Prelude.{◌≡◌, ◌<◌, length, slice_index_or, slice_set};
ghost use Rattle.nit_scene.specs.Terms.{IsInked, no_sight, session, stored};

use crate::scene::Scene;
use nit_word::Inked;

impl Scene<Inked> {
    /// Sets the word at place `i` of the scene's glass for the session `sid` to `w`, which is 0 or
    /// what the glass's ink has there. Nothing else changes, and nothing is loaded.
    pub fn draw(&mut self, sid: u32, i: usize, w: u32)
        requires session { sid < length self.old.config.clients }
        requires place { i < (slice_index_or self.old.glasses sid no_sight).size }
        requires word { IsInked (slice_index_or self.old.glasses sid no_sight).ink i w }
        ensures { self.new ≡ record self.old {
          glasses = slice_set self.old.glasses sid
              (stored (slice_index_or self.old.glasses sid no_sight) i w);
        } }
    {
        self.glasses[sid as usize].store(i, w);
    }
}
