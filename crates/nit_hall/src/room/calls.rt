//! A call of a client's.

ghost use Rattle.std.specs.Prelude.{◌≡◌, ◌+◌, false};
ghost use Rattle.nit_hall.specs.Terms.{HasServed, IsAtCall, IsReadyAt, Painted, call_entry};
ghost use Rattle.nit_hall.specs.Terms.{glass_in, glasses_of_call, in_line, is_accepted, lenses};
ghost use Rattle.nit_hall.specs.Terms.{next_call, serve, session, sight_after_line, stands};
ghost use Rattle.nit_hall.specs.Terms.{state_now, stretch_from, with_end_stages, with_entry};
ghost use Rattle.nit_hall.specs.Terms.{with_stages};

use crate::pass::Pass;
use crate::room::Room;
use crate::room::agreeing::{agree_on_line, agree_on_stretch};
use crate::room::entry_laws::one_more;
use crate::room::shown::Shown;
use nit_events::{Entry, Reply};
use nit_plan::stroke;

impl<'a> Room<'a> {
    /// Serves the next line of the pass, which is a call: it is the scene's call of that very line.
    /// A `buffer` line that the plan accepts sets the words of the new buffer to 0 first. The
    /// client's own pixels are loaded by the pass, and all others by the readers' ends. Behind it
    /// the pass and the room's end of its words agree on the strokes that follow, up to the next
    /// line that the room serves. The pass is of this room's opening and ready.
    pub fn serve(&mut self, pass: &mut Pass<'a>) -> Reply
        requires { IsReadyAt self.old.parts self.old.phase IsAtCall pass.old }
        ensures reply { result
            ≡ (serve (session (state_now self.old.scene) pass.old.sid) (next_call pass.old)).reply }
        ensures room { self.new ≡ with_entry self.old pass.old.sid (call_entry pass.old result)
            self.new.scene.raw self.new.scene.glasses }
        ensures served { HasServed self.old pass.old self.new pass.new }
        ensures painted { Painted (state_now self.old.scene) (call_entry pass.old result)
            (state_now self.new.scene)
            (glasses_of_call (lenses self.old.scene) pass.old.sid
            (in_line pass.old (sight_after_line pass.old)))
            (glasses_of_call (lenses self.new.scene) pass.old.sid
            (in_line pass.old pass.new.sight))
            self.old.scene.raw self.new.scene.raw }
        ensures idle { glass_in (lenses self.new.scene) pass.old.sid
            ≡ with_stages (stretch_from pass.old (pass.old.next + 1))
            (glass_in (lenses self.old.scene) pass.old.sid) }
        ensures stands { stands self.new.scene ≡ stands self.old.scene }
        ensures refused { is_accepted result ≡ false
            → (state_now self.new.scene ≡ state_now self.old.scene)
            × (self.new.scene.raw ≡ self.old.scene.raw)
            × (self.new.scene.glasses ≡ with_end_stages pass.old.sid
            (stretch_from pass.old (pass.old.next + 1)) self.old.scene.glasses)
            × (pass.new.sight ≡ with_stages (stretch_from pass.old (pass.old.next + 1))
            (sight_after_line pass.old)) }
    {
        one_more();
        self.meet(pass);
        let call = pass.next_call();
        let mut at = pass.at_line();
        pass.met = self.served();
        agree_on_line(&mut self.scene, &at, &mut pass.canvas, &mut pass.spare);
        stroke(&mut pass.canvas, pass.script, pass.plan, pass.next as usize);
        let reply = self.scene.call(pass.sid, &call, &mut pass.canvas);
        let entry = Entry::Call {
            sid: pass.sid,
            call,
            reply,
        };
        self.book
            .append(&mut pass.share, &entry, &Shown { scene: &self.scene });
        pass.next += 1;
        at.line += 1;
        agree_on_stretch(&mut self.scene, &at, &mut pass.canvas, &mut pass.spare);
        reply
    }
}
