//! What an actor is, and what a client's thread does.

ghost use Rattle.std.specs.Prelude.{◌≡◌};
ghost use Rattle.nit_actor.specs.Terms.{Belongs, BelongsAt, HasMetPhase, IsAtLine, IsOneOn};
ghost use Rattle.nit_actor.specs.Terms.{IsThrough, Stroke};
ghost use Rattle.nit_script.specs.declared.line.Line.TheVariants as lines;

use crate::gate::{Checkpoint, Gate, GatedHall};
use nit_hall::{Hall, Name, Pass};
use nit_script::Line;
use std::sync::Wait;

/// A client as one thread steps it, alone or with its clips. What it shares with all actors of its
/// run is a `W`.
pub(crate) trait Actor<W> {
    ghost use Rattle.std.specs.Prelude.{◌≡◌, ℕ, Option, None, IfSome, IsSome};
    ghost use Rattle.nit_actor.specs.PhasesLeft.{IsNotBefore};

    /// Who the actor is and what it has to do. No step changes this.
    ghost Role: { Type 0 };

    ghost role: { Self → Role };

    /// An actor of this role is one of the run.
    ghost fits: { Role → Type 0 };

    /// The phase that it is in, or `None` where it is done.
    ghost left: { Self → Option ℕ };

    /// A step makes the second of the first.
    ghost steps: { Self → Self → Type 0 };

    /// The phase that it is in, or `None` where it is done.
    fn phase_left(&self) -> Option<u32>
        ensures { result ≡ left self.now };

    /// Does what is next. It may wait until the room serves the actor's phase, and leads to no
    /// phase before it.
    fn step<R: Wait>(&mut self, rt: &R, shared: &W)
        requires fits { fits (role self.old) }
        requires left { IsSome (left self.old) }
        ensures same { role self.new ≡ role self.old }
        ensures steps { steps self.old self.new }
        ensures later { IfSome (left self.old) (λ phase. IsNotBefore left phase self.new) };

    /// Does all that is left.
    fn run<R: Wait>(&mut self, rt: &R, shared: &W)
        requires fits { fits (role self.old) }
        ensures same { role self.new ≡ role self.old }
        ensures done { left self.new ≡ None };
}

/// A client alone: each step does a line.
impl<'h, 'a, N: Name, K: Checkpoint> Actor<GatedHall<'h, 'a, N, K>> for Pass<'a> {
    ghost use Rattle.std.specs.Prelude.{◌≡◌, ◌+◌};
    ghost use Rattle.nit_actor.specs.Role.{Role, IsRoleIn, role_of};
    ghost use Rattle.nit_actor.specs.PhasesLeft.{phase_left};

    ghost Role = { Role };

    ghost role = { role_of };

    ghost fits = { IsRoleIn N.parts };

    ghost left = { phase_left };

    ghost steps = { λ before after'. after'.next ≡ before.next + 1 };

    fn phase_left(&self) -> Option<u32> {
        if self.done() {
            None
        } else {
            Some(self.phase())
        }
    }

    #[tactic(auto, using(crate::proofs::Turns::no_earlier))]
    fn step<R: Wait>(&mut self, rt: &R, gated: &GatedHall<'h, 'a, N, K>) {
        if let Some(line) = self.next() {
            do_line(rt, gated, self, &line);
        }
    }

    #[tactic(auto, using(crate::proofs::Roles::client_none))]
    fn run<R: Wait>(&mut self, rt: &R, gated: &GatedHall<'h, 'a, N, K>) {
        'lines: while let Some(line) = self.next() {
            do_line(rt, gated, self, &line);
        }
    }
}

/// Does all lines of the pass that are left, and passes the gate before each, outside the lock. A
/// call and the end of a phase wait until the room serves the pass's phase. A stroke waits so
/// before it passes the gate, where the pass has not found its phase served yet; all others take no
/// lock.
#[tactic(auto, using(crate::proofs::Roles::client_ended))]
pub fn run_actor<'a, N: Name, G: Gate, R: Wait>(
    rt: &R,
    gated: GatedHall<'_, 'a, N, &G>,
    pass: &mut Pass<'a>,
)
    requires belongs { Belongs N.parts pass.old }
    ensures { IsThrough pass.old pass.new }
{
    pass.run(rt, &gated)
}

/// Does the next line of the pass, which is this one. It passes the gate first, outside the lock; a
/// stroke waits for its phase in front of the gate.
pub(crate) fn do_line<'a, N: Name, K: Checkpoint, R: Wait>(
    rt: &R,
    gated: &GatedHall<'_, 'a, N, K>,
    pass: &mut Pass<'a>,
    line: &Line,
)
    requires { BelongsAt N.parts (IsAtLine line.now) pass.old }
    ensures { IsOneOn pass.old pass.new }
{
    wait_for_stroke(rt, gated.hall, pass, line);
    gated.gate.reach(pass.sid(), pass.line() + 1);
    match line {
        Line::Call(_) => {
            gated.hall.serve_next(rt, pass);
        }
        Line::Stroke(_) => pass.stroke(),
        Line::Phase => gated.hall.arrive(rt, pass),
    }
}

/// Where this line is a stroke, and the pass has not found its phase served yet, waits until the
/// room serves it.
fn wait_for_stroke<'a, N: Name, R: Wait>(
    rt: &R,
    hall: &Hall<'a, N>,
    pass: &mut Pass<'a>,
    line: &Line,
)
    requires belongs { Belongs N.parts pass.old }
    ensures pass { pass.new ≡ record pass.old {
      met = pass.new.met;
      seen = pass.new.seen;
      sight = pass.new.sight;
    } }
    ensures stroke { (stroke : Stroke) → line.now ≡ lines.Stroke stroke → HasMetPhase pass.new }
{
    if matches!(line, Line::Stroke(_)) && !pass.has_met_phase() {
        hall.wait_ready(rt, pass);
    }
}
