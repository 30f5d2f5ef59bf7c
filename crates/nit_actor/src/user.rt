//! The user's turns and lines, over a hall.

ghost use Rattle.std.specs.Prelude.{◌≡◌, ◌*◌, ◌+◌, All, length};
ghost use Rattle.nit_actor.specs.Terms.{CanShootAt, IsAtDevice, IsAtShot, IsAtUserPhase};
ghost use Rattle.nit_actor.specs.Terms.{IsQuietlyOn, IsWord, TakesShotsOn, TellsShot};
ghost use Rattle.nit_actor.specs.Terms.{UserBelongsAt, UserIsAtLine, user_phase_left};

use crate::gate::{Checkpoint, GatedHall};
use nit_hall::{Hall, Name, UserPass};
use nit_rounds::{Desk, PictureName};
use nit_script::InputLine;
use nit_store::Store;
use std::sync::Wait;

/// What all actors of a run share, as the turns of the user go through it.
pub(crate) trait UserTurns<'a> {
    ghost use Rattle.nit_hall.specs.OpeningParts.{OpeningParts};
    ghost use Rattle.nit_actor.specs.PhasesLeft.{IsNotBefore, user_phase_left};
    ghost use Rattle.nit_actor.specs.Turn.{TakesTurn, UserSteps};
    ghost use Rattle.nit_actor.specs.UserShots.{CanShoot, TakesShots};

    /// Of which opening the run is.
    ghost parts: { OpeningParts };

    /// The user does its next line, if it has one and is in this phase. It is done, or in no lesser
    /// phase.
    fn user_turn<S: Store, R: Wait>(
        &self,
        rt: &R,
        user: &mut UserPass<'a>,
        phase: u32,
        desk: &mut Desk<S>,
    )
        requires ready { CanShoot parts user.old desk.old }
        requires least { IsNotBefore user_phase_left phase user.old }
        ensures turn { TakesTurn user_phase_left UserSteps phase user.old user.new }
        ensures shots { TakesShots S.shown parts user.old user.new desk.old desk.new };
}

impl<'h, 'a, N: Name, K: Checkpoint> UserTurns<'a> for GatedHall<'h, 'a, N, K> {
    ghost parts = { N.parts };

    #[tactic(auto, using(crate::proofs::Shots::nothing))]
    fn user_turn<S: Store, R: Wait>(
        &self,
        rt: &R,
        user: &mut UserPass<'a>,
        phase: u32,
        desk: &mut Desk<S>,
    ) {
        if user.phase() != phase {
            return;
        }
        if let Some(line) = user.next() {
            do_user_line(rt, self, user, &line, desk);
        }
    }
}

/// The phase that the user is in, or `None` where it is done.
pub(crate) fn user_phase_left(user: &UserPass<'_>) -> Option<u32>
    ensures { result ≡ user_phase_left user.now }
{
    if user.done() {
        None
    } else {
        Some(user.phase())
    }
}

/// Does the user's next line, which is of a device.
fn do_device<'a, N: Name, R: Wait>(rt: &R, hall: &Hall<'a, N>, user: &mut UserPass<'a>)
    requires { UserBelongsAt N.parts IsAtDevice user.old }
    ensures { IsQuietlyOn user.old user.new }
{
    let _known = user.next();
    hall.user_next(rt, user);
    let _known = user.next();
}

/// Does the user's next line, which ends a phase.
fn end_phase<'a, N: Name, R: Wait>(rt: &R, hall: &Hall<'a, N>, user: &mut UserPass<'a>)
    requires { UserBelongsAt N.parts IsAtUserPhase user.old }
    ensures { IsQuietlyOn user.old user.new }
{
    let _known = user.next();
    hall.arrive_user(rt, user);
    let _known = user.next();
}

/// Does the user's next line, which is `shot`, and sets `frame` to what it shows. Gives the shot's
/// number.
fn take_shot<'a, N: Name, R: Wait>(
    rt: &R,
    hall: &Hall<'a, N>,
    user: &mut UserPass<'a>,
    frame: &mut Vec<u32>,
) -> u32
    requires user { UserBelongsAt N.parts IsAtShot user.old }
    requires frame { length frame.old.items ≡ N.parts.config.width * N.parts.config.height }
    ensures told { TellsShot N.parts user.old.seen user.old.raws result user.new.seen
        user.new.raws frame.new.items }
    ensures words { All IsWord frame.new.items }
    ensures frame { length frame.new.items ≡ length frame.old.items }
    ensures user { user.new ≡ record user.old {
      next = user.old.next + 1;
      seen = user.new.seen;
      raws = user.new.raws;
    } }
{
    hall.shoot(rt, user, frame)
}

/// Does the user's next line, which is `shot`, and puts its picture unless a put was refused
/// before.
fn shoot<'a, N: Name, S: Store, R: Wait>(
    rt: &R,
    hall: &Hall<'a, N>,
    user: &mut UserPass<'a>,
    desk: &mut Desk<S>,
)
    requires { CanShootAt N.parts IsAtShot user.old desk.old }
    ensures { TakesShotsOn S.shown N.parts user.old user.new desk.old desk.new }
{
    let (width, height) = hall.size();
    let _known = user.next();
    let number = take_shot(rt, hall, user, &mut desk.frame);
    desk.put_copied(width, height, PictureName::Shot(number));
    let _known = user.next();
}

/// Does the user's next line, which is this one, and passes the gate before it. The picture of a
/// shot is put, unless a put was refused before.
#[tactic(auto, using(crate::proofs::Shots::quietly))]
fn do_user_line<'a, N: Name, K: Checkpoint, S: Store, R: Wait>(
    rt: &R,
    gated: &GatedHall<'_, 'a, N, K>,
    user: &mut UserPass<'a>,
    line: &InputLine,
    desk: &mut Desk<S>,
)
    requires { CanShootAt N.parts (UserIsAtLine line.now) user.old desk.old }
    ensures { TakesShotsOn S.shown N.parts user.old user.new desk.old desk.new }
{
    gated.gate.reach(gated.hall.clients(), user.line() + 1);
    match line {
        InputLine::Device(_) => do_device(rt, gated.hall, user),
        InputLine::Phase => end_phase(rt, gated.hall, user),
        InputLine::Shot => shoot(rt, gated.hall, user, desk),
    }
}
