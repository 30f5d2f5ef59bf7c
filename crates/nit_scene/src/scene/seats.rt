//! Glasses that are exchanged for others.

ghost use Rattle.std.specs.Prelude.{◌≡◌, ◌<◌, Some, length, slice_get, slice_set};
ghost use Rattle.nit_scene.specs.Terms.{IsGlass};

use crate::scene::Scene;
use nit_word::Glass;
use std::mem::swap;

impl<G: Glass + Drop> Scene<G> {
    /// The scene's glass for the session `sid` and `glass`, which is one of the session too, change
    /// places. Nothing else changes, and nothing is loaded.
    pub fn exchange(&mut self, sid: u32, glass: &mut G)
        requires session { sid < length self.old.config.clients }
        requires glass { IsGlass self.old.config sid (G.sight glass.old) }
        ensures scene { self.new ≡ record self.old {
          glasses = slice_set self.old.glasses sid glass.old;
        } }
        ensures out { slice_get self.old.glasses sid ≡ Some glass.new }
        ensures glass { IsGlass self.old.config sid (G.sight glass.new) }
    {
        swap(&mut self.glasses[sid as usize], glass);
    }
}
