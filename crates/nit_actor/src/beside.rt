//! All actors of a run beside each other: each client on a thread of its own, the user on the
//! calling one.

ghost use Rattle.std.specs.Prelude.{◌≡◌, length, vec_len};
ghost use Rattle.nit_actor.specs.Terms.{AreThrough, Belongs, CanTakeTurns, HasPlaceFor, IsPairIn};
ghost use Rattle.nit_actor.specs.Terms.{TakesAllShots, pair_role_of, role_of};

use crate::actor::Actor;
use crate::crew::{CallerThread, Unstarted, run_crew};
use crate::gate::{Gate, GatedHall};
use crate::mine::run_turns;
use crate::pair::Pair;
use crate::user::UserTurns;
use nit_hall::{Name, Pass, UserPass};
use nit_rounds::Desk;
use nit_store::Store;
use std::sync::Wait;
use std::thread::Threads;

/// What the calling thread has of its own: the user's pass, and the desk for the pictures of the
/// shots.
#[derive(Drop)]
pub struct UserAndDesk<'a, 's, S> {
    pub user: UserPass<'a>,
    pub desk: Desk<'s, S>,
}

impl<'a, 's, W: UserTurns<'a>, A: Actor<W>, S: Store> CallerThread<A, W>
    for UserAndDesk<'a, 's, S> {
    ghost use Rattle.nit_actor.specs.UserShots.{CanShoot, TakesAllShots};

    ghost ready = { λ m. CanShoot W.parts m.user m.desk };

    ghost kept = { λ before after'.
        TakesAllShots S.shown W.parts before.user after'.user before.desk after'.desk };

    fn run_mine<R: Wait>(self, rt: &R, shared: &W, actors: &mut [A]) -> Self {
        let UserAndDesk { mut user, mut desk } = self;
        run_turns(rt, shared, actors, &mut user, &mut desk);
        UserAndDesk { user, desk }
    }

    #[tactic(auto, using(crate::proofs::Shots::ready_again, crate::proofs::Shots::also))]
    fn kept_twice() {}
}

/// Does all lines of all scripts: each pass on a thread of its own, and on the calling thread the
/// user, by turns with the passes whose threads could not be started. The pictures of the shots are
/// put meanwhile, until a put is refused. Afterwards each pass is at its place, with all its lines
/// done. No memory is taken but by the store: the place where unstarted passes wait is empty and
/// has room for all, and there is a flag for each pass. Where the flag of a pass is raised, its
/// thread leaves it as it is, and the calling thread steps it at the end. So the caller raises
/// none; tests with gates show that, since no clause can: an atomic has no value in contracts.
#[tactic(auto, using(crate::proofs::Roles::clients_done))]
pub fn run_beside<'a, 's, N: Name + Send + Sync, G: Gate, S: Store, R: Threads + Wait + Sync>(
    rt: &R,
    gated: GatedHall<'_, 'a, N, &G>,
    unstarted: Unstarted<'_, Pass<'a>>,
    passes: &mut Vec<Pass<'a>>,
    mine: UserAndDesk<'a, 's, S>,
) -> UserAndDesk<'a, 's, S>
    requires ready { CanTakeTurns N.parts (Belongs N.parts) passes.old.items mine.user mine.desk }
    requires place { HasPlaceFor (vec_len passes.old) unstarted }
    ensures actors { AreThrough role_of (λ p. p.next ≡ length p.script) passes.old.items
        passes.new.items }
    ensures user { TakesAllShots S.shown N.parts mine.entry.user result.user mine.entry.desk
        result.desk }
{
    run_crew(rt, &gated, unstarted, passes, mine)
}

/// Does all lines of all scripts and clip scripts, as [`run_beside`] does those of all
/// scripts: each pair on a thread of its own, and on the calling thread the user, by turns
/// with the pairs whose threads could not be started. Afterwards each pair is at its place, with
/// all its lines done. No memory is taken but by the store: the place where unstarted pairs wait is
/// empty and has room for all, and there is a flag for each pair, of which the caller raises none.
#[tactic(auto, using(crate::proofs::Roles::pairs_fit, crate::proofs::Roles::pairs_done))]
pub fn run_beside_clips<'a, 's, N: Name + Send + Sync, G: Gate, S: Store, R: Threads + Wait + Sync>(
    rt: &R,
    gated: GatedHall<'_, 'a, N, &G>,
    unstarted: Unstarted<'_, Pair<'a>>,
    pairs: &mut Vec<Pair<'a>>,
    mine: UserAndDesk<'a, 's, S>,
) -> UserAndDesk<'a, 's, S>
    requires ready { CanTakeTurns N.parts (λ b. IsPairIn N.parts b.pass b.clip) pairs.old.items
        mine.user mine.desk }
    requires place { HasPlaceFor (vec_len pairs.old) unstarted }
    ensures actors { AreThrough (λ b. pair_role_of b.pass b.clip)
        (λ b. (b.pass.next ≡ length b.pass.script) × (b.clip.next ≡ length b.clip.script))
        pairs.old.items pairs.new.items }
    ensures user { TakesAllShots S.shown N.parts mine.entry.user result.user mine.entry.desk
        result.desk }
{
    run_crew(rt, &gated, unstarted, pairs, mine)
}
