//! Words of a scene's own glass that become those of another glass, where the glasses are such that
//! can be drawn in.

ghost use Rattle.std.specs.Prelude.{◌≡◌, ◌<◌, ◌≤◌, length, slice_index_or, slice_set};
ghost use Rattle.nit_scene.specs.Terms.{is_between, no_sight, set_where, told_at, with_words};

use crate::scene::Scene;
use nit_word::Inked;

impl Scene<Inked> {
    /// Sets the words at the places from `from` to before `to` of the scene's glass for the session
    /// `sid`, which has these places, to those that `own`, a glass of the same ink, tells there.
    /// Nothing else changes, and nothing is loaded.
    pub fn draw_row(&mut self, sid: u32, from: usize, to: usize, own: &Inked)
        requires session { sid < length self.old.config.clients }
        requires order { from ≤ to }
        requires room { to ≤ (slice_index_or self.old.glasses sid no_sight).size }
        requires ink { own.now.ink ≡ (slice_index_or self.old.glasses sid no_sight).ink }
        ensures { self.new ≡ record self.old {
          glasses = slice_set self.old.glasses sid
              (with_words (set_where (is_between from to) (told_at own.now))
              (slice_index_or self.old.glasses sid no_sight));
        } }
    {
        self.glasses[sid as usize].copy(from, to, own);
    }
}
