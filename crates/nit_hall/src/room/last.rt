//! The last picture.

ghost use Rattle.std.specs.Prelude.{◌≡◌, ℕ, ◌*◌, All, length, map, slice_get, Some};
ghost use mathlib.Core.List.{IsPrefix};
ghost use Rattle.nit_hall.specs.Terms.{AreDone, IsDonePass, IsDoneUser, IsHistory, IsKnownPass};
ghost use Rattle.nit_hall.specs.Terms.{IsLegal, IsOpen, IsWhole, IsWord, Painted, PassModel};
ghost use Rattle.nit_hall.specs.Terms.{calls_to_make, frame, glass_in, knowing, rest_of};
ghost use Rattle.nit_hall.specs.Terms.{scenery_of, state_now, user_actions_to_do, with_final};
ghost use Rattle.nit_hall.specs.Terms.{without_final, words_left_in};
ghost use Rattle.nit_events.specs.declared.entry.Entry.TheVariants as entry;

use crate::pass::Pass;
use crate::room::Room;
use crate::room::entry_laws::one_more;
use crate::user::UserPass;
use nit_plan::laws::one_more_line;

impl<'a> Room<'a> {
    /// Takes the last picture: loads every pixel again through the passes, one for each client in
    /// order, sets `out`, which has a word for each pixel, to the frame, and ends the journal. All
    /// passes and the user's are of this room's opening and done, and the journal is not ended. The
    /// user's knows the raw words after all entries, which are one history.
    pub fn finish(&mut self, passes: &mut [Pass<'a>], user: &mut UserPass<'a>, out: &mut [u32])
        requires passes { AreDone self.old.parts passes.old }
        requires user { IsDoneUser self.old.parts user.old }
        requires open { IsOpen self.old.scene.entries }
        requires out { length out.old ≡ self.old.parts.config.width * self.old.parts.config.height }
        ensures whole { IsWhole (map calls_to_make self.old.parts.scripts)
            (user_actions_to_do self.old.parts.input) self.new.scene.entries }
        ensures legal { IsLegal self.old.parts.config self.new.scene.entries }
        ensures frame { let s = state_now self.old.scene in out.new ≡ frame (scenery_of s)
            (words_left_in self.old.parts.config self.old.parts.scripts s) }
        ensures words { All IsWord out.new }
        ensures room { self.new ≡ with_final self.old self.new.scene.raw }
        ensures before { (k : ℕ) (p : PassModel) → slice_get passes.old k ≡ Some p
            → IsPrefix p.seen self.old.scene.entries }
        ensures user_before { IsPrefix user.old.seen self.old.scene.entries }
        ensures passes { map rest_of passes.new
            ≡ map (λ (p : PassModel). rest_of (knowing self.old.scene.entries p)) passes.old }
        ensures user { user.new
            ≡ record user.old { seen = self.old.scene.entries; raws = self.old.raws } }
        ensures raws_before { IsPrefix user.old.raws self.old.raws }
        ensures history { IsHistory self.old.parts.config self.old.scene.entries self.old.raws }
        ensures painted { Painted (state_now self.old.scene) entry.Final (state_now self.new.scene)
            (glass_in (map (λ (p : PassModel). p.sight) passes.old))
            (glass_in (map (λ (p : PassModel). p.sight) passes.new))
            self.old.scene.raw self.new.scene.raw }
    {
        one_more();
        one_more_line();
        self.meet_all(passes);
        self.meet_user(user);
        self.scene.finish(passes, out);
    }

    /// Shows each pass what is in the book.
    fn meet_all(&mut self, passes: &mut [Pass<'a>])
        requires { (k : ℕ) (p : PassModel) → slice_get passes.old k ≡ Some p
            → IsDonePass self.old.parts k p }
        ensures room { self.new ≡ self.old }
        ensures passes { passes.new
            ≡ map (knowing (without_final self.old.scene.entries)) passes.old }
        ensures met { (k : ℕ) (p : PassModel) → slice_get passes.old k ≡ Some p
            → IsKnownPass self.old k p }
    {
        'passes: for pass in passes.iter_mut() {
            self.meet(pass);
        }
    }
}
