//! What the calling thread does: the user, and the clients whose threads could not be started, by
//! turns.

ghost use Rattle.std.specs.Prelude.{◌≡◌, All, IfNone, IfSome, None, length, map};
ghost use Rattle.nit_actor.specs.Terms.{AreThrough, Belongs, CanTakeTurns, EachTakesTurn};
ghost use Rattle.nit_actor.specs.Terms.{IsLeastOf, IsNotBefore, IsPairIn, IsTurn, NoneIsBefore};
ghost use Rattle.nit_actor.specs.Terms.{TakesAllShots, TakesShots, TakesTurn, lesser};
ghost use Rattle.nit_actor.specs.Terms.{pair_role_of, phases_left, role_of};

use crate::actor::Actor;
use crate::gate::{Gate, GatedHall};
use crate::pair::Pair;
use crate::user::{UserTurns, user_phase_left};
use nit_hall::{Name, Pass, UserPass};
use nit_rounds::Desk;
use nit_store::Store;
use std::sync::Wait;

/// Does all lines of these passes and of the user that are left, by turns, and puts the pictures of
/// the shots until a put is refused. In each turn those of the least phase that has a line left do
/// a line each, so the thread waits only where each that is not done has ended its phase. Each
/// passes the gate before its line, outside the lock.
#[tactic(auto, using(crate::proofs::Roles::clients_done))]
pub fn run_mine<'a, N: Name, G: Gate, S: Store, R: Wait>(
    rt: &R,
    gated: GatedHall<'_, 'a, N, &G>,
    passes: &mut [Pass<'a>],
    user: &mut UserPass<'a>,
    desk: &mut Desk<S>,
)
    requires { CanTakeTurns N.parts (Belongs N.parts) passes.old user.old desk.old }
    ensures actors { AreThrough role_of (λ p. p.next ≡ length p.script) passes.old passes.new }
    ensures user { TakesAllShots S.shown N.parts user.old user.new desk.old desk.new }
{
    run_turns(rt, &gated, passes, user, desk)
}

/// Does all lines of these pairs, of their clip scripts and of the user that are left, by turns, as
/// [`run_mine`] does those of passes and of the user. The clip calls of a phase are done in the
/// turn in which the pass's own next line ends the phase, or after its last line; they pass no
/// gate. Of each pair the pass and the clip pass are of this opening, of one client and in one
/// phase, and its two scripts have as many phases; so it is again when all are done.
#[tactic(auto, using(crate::proofs::Roles::pairs_fit, crate::proofs::Roles::pairs_done))]
pub fn run_mine_clips<'a, N: Name, G: Gate, S: Store, R: Wait>(
    rt: &R,
    gated: GatedHall<'_, 'a, N, &G>,
    pairs: &mut [Pair<'a>],
    user: &mut UserPass<'a>,
    desk: &mut Desk<S>,
)
    requires { CanTakeTurns N.parts (λ b. IsPairIn N.parts b.pass b.clip) pairs.old user.old
        desk.old }
    ensures actors { AreThrough (λ b. pair_role_of b.pass b.clip)
        (λ b. (b.pass.next ≡ length b.pass.script) × (b.clip.next ≡ length b.clip.script))
        pairs.old pairs.new }
    ensures pairs { All (λ b. IsPairIn N.parts b.pass b.clip) pairs.new }
    ensures user { TakesAllShots S.shown N.parts user.old user.new desk.old desk.new }
{
    run_turns(rt, &gated, pairs, user, desk)
}

/// Does all that is left of these actors and of the user, by turns.
#[tactic(auto, using(crate::proofs::Shots::nothing))]
pub(crate) fn run_turns<'a, W: UserTurns<'a>, A: Actor<W>, S: Store, R: Wait>(
    rt: &R,
    shared: &W,
    actors: &mut [A],
    user: &mut UserPass<'a>,
    desk: &mut Desk<S>,
)
    requires { CanTakeTurns W.parts (λ a. A.fits (A.role a)) actors.old user.old desk.old }
    ensures actors { AreThrough A.role (λ a. A.left a ≡ None) actors.old actors.new }
    ensures user { TakesAllShots S.shown W.parts user.old user.new desk.old desk.new }
{
    'turns: for _ in rt.forever() {
        let Some(_phase) = do_turn(rt, shared, actors, user, desk) else {
            return;
        };
    }
}

/// A turn, in the least phase of those that are not done: each actor that is in it does what is
/// next, and then the user does. The result is the phase, or `None` where all are done. So nobody
/// waits for another one of this thread.
#[tactic(auto, using(crate::proofs::Roles::user_not_before, crate::proofs::Shots::nothing))]
fn do_turn<'a, W: UserTurns<'a>, A: Actor<W>, S: Store, R: Wait>(
    rt: &R,
    shared: &W,
    actors: &mut [A],
    user: &mut UserPass<'a>,
    desk: &mut Desk<S>,
) -> Option<u32>
    requires { CanTakeTurns W.parts (λ a. A.fits (A.role a)) actors.old user.old desk.old }
    ensures phase { IsLeastOf result (phases_left A.left actors.old user.old) }
    ensures turn { IfSome result (λ phase.
        IsTurn A.left A.steps phase actors.old actors.new user.old user.new) }
    ensures end { IfNone result ((actors.new ≡ actors.old) × (user.new ≡ user.old)) }
    ensures same { map A.role actors.new ≡ map A.role actors.old }
    ensures shots { TakesShots S.shown W.parts user.old user.new desk.old desk.new }
{
    let Some(phase) = least_phase(actors, user) else {
        return None;
    };
    step_actors(rt, shared, actors, phase);
    shared.user_turn(rt, user, phase, desk);
    Some(phase)
}

/// Each actor that is in this phase does what is next, if it is not done. No actor that is not done
/// is in a lesser phase, and none is afterwards.
fn step_actors<A: Actor<W>, W, R: Wait>(rt: &R, shared: &W, actors: &mut [A], phase: u32)
    requires fits { All (λ a. A.fits (A.role a)) actors.old }
    requires least { NoneIsBefore A.left phase actors.old }
    ensures turn { EachTakesTurn A.left A.steps phase actors.old actors.new }
    ensures least { NoneIsBefore A.left phase actors.new }
    ensures same { map A.role actors.new ≡ map A.role actors.old }
{
    'actors: for actor in actors.iter_mut() {
        do_one_turn(rt, shared, actor, phase);
    }
}

/// The actor does what is next, if it is not done and is in this phase. It is in no lesser one.
fn do_one_turn<A: Actor<W>, W, R: Wait>(rt: &R, shared: &W, actor: &mut A, phase: u32)
    requires fits { A.fits (A.role actor.old) }
    requires least { IsNotBefore A.left phase actor.old }
    ensures turn { TakesTurn A.left A.steps phase actor.old actor.new }
    ensures least { IsNotBefore A.left phase actor.new }
    ensures same { A.role actor.new ≡ A.role actor.old }
{
    if actor.phase_left() == Some(phase) {
        actor.step(rt, shared);
    }
}

/// The least phase of those that are not done, or `None` where all are done.
fn least_phase<A: Actor<W>, W>(actors: &[A], user: &UserPass<'_>) -> Option<u32>
    ensures { IsLeastOf result (phases_left A.left actors.now user.now) }
{
    let mut least = None;
    'actors: for actor in actors {
        least = lesser(least, actor.phase_left());
    }
    lesser(least, user_phase_left(user))
}

/// The lesser of two numbers, of which each may be missing.
fn lesser(one: Option<u32>, other: Option<u32>) -> Option<u32>
    ensures { result ≡ lesser one other }
{
    match (one, other) {
        (Some(one), Some(other)) if one < other => Some(one),
        (one, None) => one,
        (_, other) => other,
    }
}
