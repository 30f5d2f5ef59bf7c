//! A run of one client, without a lock and on the calling thread.

ghost use Rattle.std.specs.Prelude.{◌≡◌, ◌+◌, ◌++◌, drop, length, map};
ghost use Rattle.nit_actor.specs.Terms.{AloneOn, AreInStep, Belongs, Calls, IsAtLine, IsAtPhase};
ghost use Rattle.nit_actor.specs.Terms.{IsAtStroke, IsOpen, IsThrough, StepOn, StepTogether};
ghost use Rattle.nit_actor.specs.Terms.{action_of, calls_in, user_role_of};

use nit_hall::{Pass, Room, UserPass};
use nit_script::Line;

/// Does all lines of one client that are left, and the lines `phase` of a user who does nothing
/// else. The user ends each phase together with the client, so the pass is always ready and nothing
/// waits. The calls of the lines are recorded, in order, and nothing else is. It takes no memory.
pub fn run_alone<'a>(room: &mut Room<'a>, pass: &mut Pass<'a>, user: &mut UserPass<'a>)
    requires alone { AreInStep room.old pass.old user.old }
    ensures pass { IsThrough pass.old pass.new }
    ensures user_same { user_role_of user.new ≡ user_role_of user.old }
    ensures user_done { user.new.next ≡ length user.new.input }
    ensures parts { room.new.parts ≡ room.old.parts }
    ensures open { IsOpen room.new.scene.entries }
    ensures recorded { map action_of room.new.scene.entries
        ≡ map action_of room.old.scene.entries
        ++ map (Calls pass.old.sid) (calls_in (drop pass.old.next pass.old.script)) }
{
    'lines: while let Some(line) = pass.next() {
        do_line(room, pass, user, &line);
    }
    let _within = user.done();
}

/// Does the client's next line, which is this one. Where it ends a phase, the user ends it too.
fn do_line<'a>(room: &mut Room<'a>, pass: &mut Pass<'a>, user: &mut UserPass<'a>, line: &Line)
    requires alone { AreInStep room.old pass.old user.old }
    requires next { IsAtLine line.now pass.old }
    ensures { AloneOn room.old pass.old user.old room.new pass.new user.new }
{
    match line {
        Line::Call(_) => {
            room.serve(pass);
        }
        Line::Stroke(_) => stroke(room, pass),
        Line::Phase => end_phase(room, pass, user),
    }
}

/// The client makes its next line, which is a stroke, in the phase that is served. It finds its
/// phase served first, where it has not yet: then it and the room agree on other stages.
fn stroke<'a>(room: &mut Room<'a>, pass: &mut Pass<'a>)
    requires belongs { Belongs room.old.parts pass.old }
    requires next { IsAtStroke pass.old }
    requires ready { pass.old.phase ≡ room.old.phase }
    ensures room { room.new ≡ record room.old {
      scene = record room.old.scene { glasses = room.new.scene.glasses };
    } }
    ensures pass { pass.new ≡ record pass.old {
      next = pass.old.next + 1;
      met = pass.new.met;
      seen = pass.new.seen;
      sight = pass.new.sight;
    } }
{
    if !pass.has_met_phase() {
        room.admit(pass);
    }
    pass.stroke();
}

/// The client ends its phase, and the user with it. The client and the room agree on other stages
/// then.
fn end_phase<'a>(room: &mut Room<'a>, pass: &mut Pass<'a>, user: &mut UserPass<'a>)
    requires step { StepTogether room.old pass.old user.old }
    requires next { IsAtPhase pass.old }
    ensures on { StepOn room.old pass.old user.old room.new pass.new user.new }
    ensures scene { room.new.scene
        ≡ record room.old.scene { glasses = room.new.scene.glasses } }
{
    room.arrive(pass);
    room.arrive_user(user);
}
