//! The room behind a lock.

ghost use Rattle.std.specs.Prelude.{◌≡◌, ◌*◌, ◌≤◌, length};
ghost use Rattle.nit_hall.specs.Below.{IsOpen, most_height, most_width};
ghost use Rattle.nit_hall.specs.Pass.{Belongs, IsAtCall, IsAtDevice, IsAtPhase, IsAtShot};
ghost use Rattle.nit_hall.specs.Pass.{IsAtUserPhase};
ghost use Rattle.nit_hall.specs.Hall.{IsMeasured};
ghost use Rattle.nit_hall.specs.HallCalls.{Admitted, BelongsAt, CanClip, DoneDevice, DoneShot};
ghost use Rattle.nit_hall.specs.HallCalls.{EndedPhase, ServedCall, ServedClip, UserBelongsAt};
ghost use Rattle.nit_hall.specs.HallCalls.{UserEndedPhase};

use crate::clip_pass::ClipPass;
use crate::pass::Pass;
use crate::room::Room;
use crate::user::UserPass;
use nit_clip::ClipReply;
use nit_events::{Reply, Routed};
use std::marker::{Brand, Model, PhantomData};
use std::sync::{Condvar, Mutex, Wait};

/// Which opening it is: the name of its book, its configuration, scripts, plans and input script.
/// Contracts alone know it, and a run picks it once, after [`open`](crate::open).
pub trait Name {
    ghost use Rattle.nit_hall.specs.OpeningParts.{OpeningParts};

    ghost parts: { OpeningParts };
}

impl Name for Brand {
    ghost use Rattle.std.specs.Prelude.{[]};
    ghost use Rattle.nit_config.specs.Configuration.{still_configuration};
    ghost use Rattle.nit_ledger.specs.BookSeat.{no_name};

    ghost parts = { record {
      name = no_name;
      config = still_configuration 0 0;
      scripts = [];
      plans = [];
      buffers = [];
      input = [];
      clips = [];
    } };
}

/// What lies under the lock: a room of the opening that `N` names, without its last picture.
#[derive(Drop)]
struct Kept<'a, N: Name> {
    room: Room<'a>,
    of: PhantomData<N>,
}

impl<'a, N: Name> Model for Kept<'a, N> {
    ghost use Rattle.std.specs.Prelude.{◌≡◌};
    ghost use Rattle.nit_journal.specs.Replay.{IsOpen};
    ghost use Rattle.nit_hall.specs.Room.{RoomModel};

    ghost Value = { RoomModel };

    ghost view = { λ k. k.room };

    ghost invariant = { λ k. (k.room.parts ≡ N.parts) × IsOpen k.room.scene.entries };
}

/// A room that threads share. It stands behind a lock, and each call of it but
/// [`wait_ready`](Hall::wait_ready) does one line of an actor whole. A call waits until the actor
/// is ready, and no contract says that it returns. How large the
/// screen is and how many clients there are is read without the lock.
#[derive(Drop)]
pub struct Hall<'a, N: Name> {
    room: Mutex<Kept<'a, N>>,
    moved: Condvar,
    width: u32,
    height: u32,
    clients: u32,
    ghost measured: { IsMeasured N.parts width height clients },
}

impl<'a, N: Name> Hall<'a, N> {
    /// The room behind a lock. It is of the opening that `N` names, and its journal is not ended.
    pub fn new(room: Room<'a>) -> Hall<'a, N>
        requires parts { room.parts ≡ N.parts }
        requires open { IsOpen room.scene.entries }
    {
        let (width, height) = room.size();
        let clients = room.clients();
        Hall {
            room: Mutex::new(Kept {
                room,
                of: PhantomData,
            }),
            moved: Condvar::new(),
            width,
            height,
            clients,
        }
    }

    /// The width and the height of the screen in pixels, at most 4096 each. It takes no lock.
    pub fn size(&self) -> (u32, u32)
        ensures size { result ≡ (N.parts.config.width, N.parts.config.height) }
        ensures screen { (result.0 ≤ most_width) × (result.1 ≤ most_height) }
    {
        (self.width, self.height)
    }

    /// How many clients there are. It takes no lock.
    pub fn clients(&self) -> u32
        ensures { result ≡ length N.parts.scripts }
    {
        self.clients
    }

    /// Waits until the pass is ready, and serves its next line, which is a call ([`Room::serve`]).
    /// The last entry that the pass then knows is this call with the reply, and what it knows is
    /// legal: so the reply is the one that the entries before it lead to. The pass is of this
    /// opening.
    pub fn serve_next<R: Wait>(&self, rt: &R, pass: &mut Pass<'a>) -> Reply
        requires { BelongsAt N.parts IsAtCall pass.old }
        ensures { ServedCall N.parts pass.old result pass.new }
    {
        let mut kept = self
            .moved
            .wait_while(rt, self.room.lock(rt), |kept| !kept.room.ready(pass));
        kept.room.serve(pass)
    }

    /// Waits until the pass is ready, and ends its phase ([`Room::arrive`]). Its next line ends a
    /// phase, and it is of this opening.
    pub fn arrive<R: Wait>(&self, rt: &R, pass: &mut Pass<'a>)
        requires { BelongsAt N.parts IsAtPhase pass.old }
        ensures { EndedPhase N.parts pass.old pass.new }
    {
        let mut kept = self
            .moved
            .wait_while(rt, self.room.lock(rt), |kept| !kept.room.ready(pass));
        kept.room.arrive(pass);
        self.moved.notify_all();
    }

    /// Waits until the pass is ready, and serves the next line of the clip pass, which is a clip
    /// call ([`Room::clip`]). By the journal that the pass then knows, the answer is `NotFocused`
    /// exactly where the client has not the focus; otherwise a `Copy` is answered `Copied`, and a
    /// `Paste` gives a text or is answered `Empty`. The two passes are of one client of this
    /// opening and in one phase, and the client's pass is done, or its next line ends the phase.
    pub fn clip_next<R: Wait>(
        &self,
        rt: &R,
        pass: &mut Pass<'a>,
        clip: &mut ClipPass<'a>,
    ) -> ClipReply
        requires { CanClip N.parts pass.old clip.old }
        ensures { ServedClip N.parts pass.old clip.old result pass.new clip.new }
    {
        let mut kept = self
            .moved
            .wait_while(rt, self.room.lock(rt), |kept| !kept.room.ready(pass));
        let room = &mut kept.room;
        let _legal = room.scene();
        room.clip(pass, clip)
    }

    /// Waits until the user is ready, and does its next line, which is of a device
    /// ([`Room::user`]). The last entry that the user's pass then knows is this event with what it
    /// delivered. The pass is of this opening.
    pub fn user_next<R: Wait>(&self, rt: &R, user: &mut UserPass<'a>) -> Routed
        requires { UserBelongsAt N.parts IsAtDevice user.old }
        ensures { DoneDevice N.parts user.old result user.new }
    {
        let mut kept = self
            .moved
            .wait_while(rt, self.room.lock(rt), |kept| !kept.room.ready_user(user));
        kept.room.user(user)
    }

    /// Waits until the user is ready, and ends its phase ([`Room::arrive_user`]). Its next line
    /// ends a phase, and its pass is of this opening.
    pub fn arrive_user<R: Wait>(&self, rt: &R, user: &mut UserPass<'a>)
        requires { UserBelongsAt N.parts IsAtUserPhase user.old }
        ensures { UserEndedPhase N.parts user.old user.new }
    {
        let mut kept = self
            .moved
            .wait_while(rt, self.room.lock(rt), |kept| !kept.room.ready_user(user));
        kept.room.arrive_user(user);
        self.moved.notify_all();
    }

    /// Waits until the user is ready, and does its next line, which is `shot` ([`Room::shoot`]):
    /// sets `out`, which has a word for each pixel, to a frame of the journal in front of the shot.
    /// Gives the number of the shot, from 1. The user's pass is of this opening.
    pub fn shoot<R: Wait>(&self, rt: &R, user: &mut UserPass<'a>, out: &mut [u32]) -> u32
        requires user { UserBelongsAt N.parts IsAtShot user.old }
        requires out { length out.old ≡ N.parts.config.width * N.parts.config.height }
        ensures { DoneShot N.parts user.old result user.new out.new }
    {
        let mut kept = self
            .moved
            .wait_while(rt, self.room.lock(rt), |kept| !kept.room.ready_user(user));
        let room = &mut kept.room;
        let _near = room.scene();
        room.shoot(user, out)
    }

    /// Waits until the pass is ready, and lets it find its phase served ([`Room::admit`]). It may
    /// make the strokes of this phase then, and they wait for nobody. What it then knows of the
    /// journal is legal.
    pub fn wait_ready<R: Wait>(&self, rt: &R, pass: &mut Pass<'a>)
        requires belongs { Belongs N.parts pass.old }
        ensures { Admitted N.parts pass.old pass.new }
    {
        let kept = self.room.lock(rt);
        let mut kept = self
            .moved
            .wait_while(rt, kept, |kept| !kept.room.ready(pass));
        kept.room.admit(pass);
    }

    /// The room. It is of this opening, and its journal is not ended.
    pub fn into_room(self) -> Room<'a>
        ensures parts { result.parts ≡ N.parts }
        ensures open { IsOpen result.scene.entries }
    {
        let Hall {
            room,
            moved: _,
            width: _,
            height: _,
            clients: _,
        } = self;
        let Kept { room, of: _ } = room.into_inner();
        room
    }
}
