//! A clip call of a client's, and the clip list at the end.

ghost use Rattle.std.specs.Prelude.{◌≡◌, ◌+◌, length, map, slice_index, take};
ghost use mathlib.Core.List.{IsPrefix};
ghost use Rattle.nit_hall.specs.Terms.{AreDoneClips, CallLaws, CanClip, ClipBelongs, ClipHasMet};
ghost use Rattle.nit_hall.specs.Terms.{HaveMet, IsLegal, IsLegalClips, IsOpen, IsWholeClips};
ghost use Rattle.nit_hall.specs.Terms.{calls_to_make, clip_answer, clip_calls_in, clip_entry};
ghost use Rattle.nit_hall.specs.Terms.{clipboard_of, clips_to_make, next_clip, state_now};
ghost use Rattle.nit_hall.specs.Terms.{stretch_from, user_actions_to_do, with_clip};
ghost use Rattle.nit_hall.specs.Terms.{with_room_stages, with_stages};

use crate::clip_pass::ClipPass;
use crate::pass::Pass;
use crate::room::Room;
use nit_clip::laws::{calls_of_a_clip_script, left_to_do, one_more_clip, one_more_placed};
use nit_clip::{ClipEntry, ClipReply};

impl<'a> Room<'a> {
    /// Serves the next line of the clip pass, which is a clip call: it stands after all entries of
    /// the journal, with the focus that is there. The two passes are of one client of this room's
    /// opening and in one phase, which is served; the client's pass is done, or its next line ends
    /// the phase; and the journal is not ended.
    pub fn clip(&mut self, pass: &mut Pass<'a>, clip: &mut ClipPass<'a>) -> ClipReply
        requires clip { CanClip self.old.parts pass.old clip.old }
        requires ready { pass.old.phase ≡ self.old.phase }
        requires open { IsOpen self.old.scene.entries }
        ensures reply { result ≡ clip_answer (clipboard_of self.old.clips.entries)
            (state_now self.old.scene).input.focus clip.old.sid (next_clip clip.old) }
        ensures room { self.new ≡ with_clip
            (with_room_stages self.old pass.old.sid (stretch_from pass.old pass.old.next))
            (clip_entry self.old clip.old result) }
        ensures pass { pass.new ≡ record pass.old {
          met = pass.old.phase;
          seen = self.old.scene.entries;
          sight = with_stages (stretch_from pass.old pass.old.next) pass.old.sight;
        } }
        ensures clip { clip.new
            ≡ record clip.old { next = clip.old.next + 1; seen = self.old.scene.entries } }
        ensures before { IsPrefix pass.old.seen self.old.scene.entries }
        ensures clip_before { IsPrefix clip.old.seen self.old.scene.entries }
        ensures counted { slice_index self.old.clip_counts clip.old.sid
            ≡ length (clip_calls_in (take clip.old.next clip.old.script)) }
        ensures legal { IsLegal self.old.parts.config self.old.scene.entries }
        ensures legal_clips { IsLegalClips self.old.parts.config self.old.scene.entries
            self.new.clips.entries }
    {
        one_more_call();
        let _ended = pass.phase();
        self.admit(pass);
        let call = clip.next_clip();
        self.book.count(&mut clip.share);
        let at = self.scene.journal().entries().len() as u32;
        let reply = self.clip.serve(at, clip.sid, self.scene.focus(), &call);
        clip.next += 1;
        reply
    }

    /// The clip list, by the clip passes, one for each client in order, which are all done: it is
    /// whole. Nothing changes but what the clip passes know.
    pub fn clips(&mut self, clips: &mut [ClipPass<'a>]) -> &[ClipEntry]
        requires { AreDoneClips self.old.parts clips.old }
        ensures value { result.now ≡ self.old.clips.entries }
        ensures legal { IsLegalClips self.old.parts.config self.old.scene.entries result.now }
        ensures whole { IsWholeClips (map calls_to_make self.old.parts.scripts)
            (user_actions_to_do self.old.parts.input) self.old.scene.entries
            (map clips_to_make self.old.parts.clips) result.now }
        ensures met { HaveMet self.old clips.old clips.new }
    {
        self.meet_clips(clips);
        self.clip_list()
    }

    /// The clip list. It is whole when all clip passes are done ([`Room::meet_clips`]).
    pub fn clip_list(&self) -> &[ClipEntry]
        ensures { result.now ≡ self.now.clips.entries }
    {
        self.clip.entries()
    }

    /// Shows each clip pass what is in the book. All are done, so the clip list is whole.
    pub fn meet_clips(&mut self, clips: &mut [ClipPass<'a>])
        requires { AreDoneClips self.old.parts clips.old }
        ensures room { self.new ≡ self.old }
        ensures legal { IsLegalClips self.old.parts.config self.old.scene.entries
            self.old.clips.entries }
        ensures whole { IsWholeClips (map calls_to_make self.old.parts.scripts)
            (user_actions_to_do self.old.parts.input) self.old.scene.entries
            (map clips_to_make self.old.parts.clips) self.old.clips.entries }
        ensures met { HaveMet self.old clips.old clips.new }
    {
        calls_of_a_clip_script();
        let _kept = self.scene();
        'clips: for clip in clips.iter_mut() {
            self.meet_clip(clip);
        }
    }

    /// Shows the clip pass what is in the book. Its share is the book's at its number.
    fn meet_clip(&mut self, clip: &mut ClipPass<'a>)
        requires { ClipBelongs self.old.parts clip.old }
        ensures { ClipHasMet self.old clip.old self.new clip.new }
    {
        self.book.meet(&mut clip.share);
    }
}

/// What the laws of clip scripts and of clip lists say of one more clip call.
fn one_more_call()
    ensures { CallLaws }
{
    calls_of_a_clip_script();
    left_to_do();
    one_more_clip();
    one_more_placed();
}
