//! The end of a phase.

ghost use Rattle.std.specs.Prelude.{◌≡◌, ◌<◌, ◌≤◌};
ghost use Rattle.nit_hall.specs.Terms.{HasArrived, IsAtPhase, IsAtUserPhase, IsReadyAt};
ghost use Rattle.nit_hall.specs.Terms.{UserHasArrived, UserIsReadyAt, after_arrival, most_lines};
ghost use Rattle.nit_hall.specs.Terms.{most_run_sessions};

use crate::pass::Pass;
use crate::room::Room;
use crate::room::agreeing::agree_on_stretch;
use crate::user::UserPass;
use nit_plan::laws::one_more_line;

impl<'a> Room<'a> {
    /// The pass, whose next line ends a phase, has ended it. It and the room's end of its words
    /// agree on what its lines have left, so no word of the phase that is over is shown in the next
    /// one unless it stands there then. Once all clients and the user have ended theirs, the next
    /// phase is served. The pass is of this room's opening and ready.
    pub fn arrive(&mut self, pass: &mut Pass<'a>)
        requires { IsReadyAt self.old.parts self.old.phase IsAtPhase pass.old }
        ensures { HasArrived self.old pass.old self.new pass.new }
    {
        one_more_line();
        let _few = pass.script.lines().len();
        let at = pass.at_line();
        agree_on_stretch(&mut self.scene, &at, &mut pass.canvas, &mut pass.spare);
        self.book.count(&mut pass.share);
        pass.next += 1;
        pass.phase += 1;
        (self.phase, self.arrived) = after_arrival(
            self.parts.scripts.len(),
            self.phase,
            self.arrived,
        );
    }

    /// The user, whose next line ends a phase, has ended it. Once all clients have too, the next
    /// phase is served. The user's pass is of this room's opening and ready.
    pub fn arrive_user(&mut self, user: &mut UserPass<'a>)
        requires { UserIsReadyAt self.old.parts self.old.phase IsAtUserPhase user.old }
        ensures { UserHasArrived self.old user.old self.new user.new }
    {
        let _few = user.input.lines().len();
        self.book.count(&mut user.share);
        user.next += 1;
        user.phase += 1;
        (self.phase, self.arrived) = after_arrival(
            self.parts.scripts.len(),
            self.phase,
            self.arrived,
        );
    }
}

/// The phase that is served, and how many actors have ended it, when one more has.
fn after_arrival(clients: usize, phase: u32, arrived: u32) -> (u32, u32)
    requires { (phase < most_lines) × (arrived ≤ clients) × (clients ≤ most_run_sessions) }
    ensures { result ≡ after_arrival clients phase arrived }
{
    if arrived as usize == clients {
        (phase + 1, 0)
    } else {
        (phase, arrived + 1)
    }
}
