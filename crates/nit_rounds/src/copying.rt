//! Copies of a session's own glass to the scene's glass for it.

ghost use Rattle.std.specs.Prelude.{◌≡◌, ◌+◌, ◌*◌, ◌<◌, ◌≤◌, slice_set};
ghost use Rattle.nit_rounds.specs.Terms.{HasSession, glass_in, is_number_in, most_side, set_where};
ghost use Rattle.nit_rounds.specs.Terms.{told_at, with_words};

use nit_plan::BufferArea;
use nit_scene::Scene;
use nit_word::Inked;

/// Sets the words of the area's places in the scene's glass for the session to those of its own
/// glass, which has the same ink. The buffer has `w` columns, and all places of the area.
pub(crate) fn copy_area(scene: &mut Scene<Inked>, sid: u32, own: &Inked, w: u32, area: BufferArea)
    requires session { HasSession scene.old sid }
    requires wide { w ≤ most_side }
    requires tall { area.y + area.h ≤ most_side }
    requires columns { area.x + area.w ≤ w }
    requires room { (area.y + area.h) * w ≤ (glass_in scene.old.glasses sid).size }
    requires ink { own.now.ink ≡ (glass_in scene.old.glasses sid).ink }
    ensures { scene.new ≡ record scene.old {
      glasses = slice_set scene.old.glasses sid
          (with_words (set_where (is_number_in w area) (told_at own.now))
          (glass_in scene.old.glasses sid));
    } }
{
    'rows: for j in area.y..area.y + area.h {
        let from = (j * w + area.x) as usize;
        scene.draw_row(sid, from, from + area.w as usize, own);
    }
}
