//! A client with its clip script, and what its thread does.

ghost use Rattle.std.specs.Prelude.{◌≡◌, ◌⊎◌, length};
ghost use Rattle.nit_actor.specs.Terms.{DidClips, IsAtClipPhase, IsAtLine, IsAtPhase, IsAtPhaseEnd};
ghost use Rattle.nit_actor.specs.Terms.{IsPairIn, PairIsAt, PairIsOneOn, PairIsThrough};

use crate::actor::{Actor, do_line};
use crate::gate::{Checkpoint, Gate, GatedHall};
use nit_clip::ClipLine;
use nit_hall::{ClipPass, Hall, Name, Pass};
use nit_script::Line;
use std::sync::Wait;

/// A client's pass and its clip pass. They go to one thread.
#[derive(Drop)]
pub struct Pair<'a> {
    pub pass: Pass<'a>,
    pub clip: ClipPass<'a>,
}

/// A client with its clips: a step does a line of the pass, and with a line that ends a phase the
/// clip calls of the phase; where the pass is done, a step does the rest of the clip script.
impl<'h, 'a, N: Name, K: Checkpoint> Actor<GatedHall<'h, 'a, N, K>> for Pair<'a> {
    ghost use Rattle.nit_actor.specs.ClipRole.{PairRole, IsPairRoleIn, pair_role_of};
    ghost use Rattle.nit_actor.specs.PhasesLeft.{PairSteps, pair_phase_left};

    ghost Role = { PairRole };

    ghost role = { λ b. pair_role_of b.pass b.clip };

    ghost fits = { IsPairRoleIn N.parts };

    ghost left = { λ b. pair_phase_left b.pass b.clip };

    ghost steps = { PairSteps };

    fn phase_left(&self) -> Option<u32> {
        if self.pass.done() && self.clip.done() {
            None
        } else {
            Some(self.pass.phase())
        }
    }

    #[tactic(auto, using(crate::proofs::Turns::pair_stays))]
    fn step<R: Wait>(&mut self, rt: &R, gated: &GatedHall<'h, 'a, N, K>) {
        match self.pass.next() {
            Some(line) => do_pair_line(rt, gated, &mut self.pass, &mut self.clip, &line),
            None => do_last_clips(rt, gated.hall, &mut self.pass, &mut self.clip),
        }
    }

    #[tactic(auto, using(crate::proofs::Roles::fits_pair, crate::proofs::Roles::pair_role_again))]
    fn run<R: Wait>(&mut self, rt: &R, gated: &GatedHall<'h, 'a, N, K>) {
        run_pair(rt, gated, &mut self.pass, &mut self.clip);
    }
}

/// Does all lines of the pass that are left, as [`run_actor`](crate::run_actor) does, and all of
/// the client's clip script. The clip calls of a phase are done when the pass's own next line ends
/// the phase, or when all its lines are done. They wait until the room serves the pass's phase, and
/// pass no gate. The two passes are of this opening, of one client and in one phase, and its two
/// scripts have as many phases; afterwards both are done, and in one phase again.
pub fn run_clips<'a, N: Name, G: Gate, R: Wait>(
    rt: &R,
    gated: GatedHall<'_, 'a, N, &G>,
    pass: &mut Pass<'a>,
    clip: &mut ClipPass<'a>,
)
    requires { IsPairIn N.parts pass.old clip.old }
    ensures { PairIsThrough pass.old clip.old pass.new clip.new }
{
    run_pair(rt, &gated, pass, clip)
}

/// Does what [`run_clips`] does, by any checkpoint in place of a gate.
fn run_pair<'a, N: Name, K: Checkpoint, R: Wait>(
    rt: &R,
    gated: &GatedHall<'_, 'a, N, K>,
    pass: &mut Pass<'a>,
    clip: &mut ClipPass<'a>,
)
    requires { IsPairIn N.parts pass.old clip.old }
    ensures { PairIsThrough pass.old clip.old pass.new clip.new }
{
    'lines: while let Some(line) = pass.next() {
        do_pair_line(rt, gated, pass, clip, &line);
    }
    do_last_clips(rt, gated.hall, pass, clip);
}

/// Does the next line of the pass, which is this one. Where it ends a phase, the clip calls of the
/// phase are done before it, and the clip script's line `phase` after it.
#[tactic(auto, using(crate::proofs::Roles::line_together))]
fn do_pair_line<'a, N: Name, K: Checkpoint, R: Wait>(
    rt: &R,
    gated: &GatedHall<'_, 'a, N, K>,
    pass: &mut Pass<'a>,
    clip: &mut ClipPass<'a>,
    line: &Line,
)
    requires { PairIsAt N.parts (IsAtLine line.now) pass.old clip.old }
    ensures { PairIsOneOn pass.old clip.old pass.new clip.new }
{
    match line {
        Line::Phase => end_phase(rt, gated, pass, clip),
        Line::Call(_) | Line::Stroke(_) => {
            let _before = pass.phase();
            do_line(rt, gated, pass, line);
            let _after = pass.phase();
        }
    }
}

/// Does the clip calls that are left of the phase, the pass's next line, which ends it, and the
/// line of the clip script that ends it.
#[tactic(auto, using(crate::proofs::Roles::one_ahead, crate::proofs::Roles::turned))]
fn end_phase<'a, N: Name, K: Checkpoint, R: Wait>(
    rt: &R,
    gated: &GatedHall<'_, 'a, N, K>,
    pass: &mut Pass<'a>,
    clip: &mut ClipPass<'a>,
)
    requires { PairIsAt N.parts IsAtPhase pass.old clip.old }
    ensures { PairIsOneOn pass.old clip.old pass.new clip.new }
{
    do_phase_clips(rt, gated.hall, pass, clip);
    let _before = pass.phase();
    do_line(rt, gated, pass, &Line::Phase);
    let _after = pass.phase();
    clip.turn(pass);
}

/// Does the clip calls that are left of a phase that the pass's next line ends. The next line of
/// the clip script then ends it too.
#[tactic(auto, using(crate::proofs::Roles::clip_phase_next))]
fn do_phase_clips<'a, N: Name, R: Wait>(
    rt: &R,
    hall: &Hall<'a, N>,
    pass: &mut Pass<'a>,
    clip: &mut ClipPass<'a>,
)
    requires { PairIsAt N.parts IsAtPhase pass.old clip.old }
    ensures did { DidClips N.parts pass.old clip.old pass.new clip.new }
    ensures clip_next { IsAtClipPhase clip.new }
{
    do_clips(rt, hall, pass, clip);
    let _after = (pass.phase(), clip.phase(), clip.done());
}

/// Does the clip calls that are left after the last line of the pass.
#[tactic(auto, using(crate::proofs::Roles::clip_done_too))]
fn do_last_clips<'a, N: Name, R: Wait>(
    rt: &R,
    hall: &Hall<'a, N>,
    pass: &mut Pass<'a>,
    clip: &mut ClipPass<'a>,
)
    requires { PairIsAt N.parts (λ p. p.next ≡ length p.script) pass.old clip.old }
    ensures { PairIsThrough pass.old clip.old pass.new clip.new }
{
    do_clips(rt, hall, pass, clip);
    let _after = (pass.phase(), clip.phase(), clip.done());
}

/// Does the clip calls that are left of the phase that both passes are in. The pass has done what
/// it does in this phase.
fn do_clips<'a, N: Name, R: Wait>(
    rt: &R,
    hall: &Hall<'a, N>,
    pass: &mut Pass<'a>,
    clip: &mut ClipPass<'a>,
)
    requires { PairIsAt N.parts IsAtPhaseEnd pass.old clip.old }
    ensures did { DidClips N.parts pass.old clip.old pass.new clip.new }
    ensures ended { IsAtClipPhase clip.new ⊎ (clip.new.next ≡ length clip.new.script) }
{
    'calls: while let Some(ClipLine::Call(_)) = clip.next() {
        hall.clip_next(rt, pass, clip);
    }
}
