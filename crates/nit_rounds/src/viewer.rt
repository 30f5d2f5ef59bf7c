//! What the shots of a run by rounds go to.

use nit_scene::Scene;
use nit_word::Inked;

/// What the frames of the shots of a run by rounds are shown to, one after the other.
pub trait Viewer {
    ghost use Rattle.std.specs.Prelude.{◌≡◌, ◌≤◌, ◌+◌, ◌-◌, ◌++◌, ◌∷◌, [], ℕ};
    ghost use Rattle.nit_events.specs.declared.entry.Entry.TheVariants as entry;
    ghost use Rattle.nit_journal.specs.Replay.{IsOpen, shots};
    ghost use Rattle.nit_rounds.specs.ShotFrames.{ShotFrame};
    ghost use Rattle.nit_rounds.specs.RunState.{next_shot};

    /// It takes frames of a screen of this width and height.
    ghost fits: { ℕ → ℕ → Self → Type 0 };

    /// This frame was shown to it: what it was before, and what it is then.
    ghost shows: { ShotFrame → Self → Self → Type 0 };

    /// Takes a shot of the scene, and shows its frame.
    fn shoot(&mut self, scene: &mut Scene<Inked>)
        requires fits { fits scene.old.config.width scene.old.config.height self.old }
        requires spare { 1 ≤ scene.old.spare }
        requires open { IsOpen scene.old.entries }
        ensures scene { scene.new
            ≡ record scene.old {
              entries = scene.old.entries
                  ++ entry.Shot (shots scene.old.entries + 1) ∷ [];
              spare = scene.old.spare - 1;
            } }
        ensures open { IsOpen scene.new.entries }
        ensures shown { shows (next_shot scene.old) self.old self.new }
        ensures fits { fits scene.old.config.width scene.old.config.height self.new };
}
