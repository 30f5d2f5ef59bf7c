//! The clients and the user of an opening, who do their lines one by one through a hall.

ghost use Rattle.std.specs.Prelude.{◌≡◌, ◌+◌, All};
ghost use Rattle.nit_hall.specs.Pass.{Belongs, UserBelongs};
ghost use Rattle.nit_hall.specs.ClipPass.{ClipBelongs, IsAtPhaseEnd};

use crate::checks::{fail, must};
use nit_clip::{ClipLine, ClipReply};
use nit_hall::{ClipPass, Hall, Name, Pass, UserPass};
use nit_script::{InputLine, Line};
use std::alloc::Global;
use std::marker::{Model, PhantomData};
use std::process::Abort;
use std::sync::Wait;

/// More lines than a phase has here, its clip calls among them.
const MANY: u32 = 16;

/// A client of the opening that `N` names.
#[derive(Drop)]
pub struct Client<'a, N: Name> {
    pass: Pass<'a>,
    clip: ClipPass<'a>,
    of: PhantomData<N>,
}

impl<'a, N: Name> Model for Client<'a, N> {
    ghost use Rattle.nit_hall.specs.Pass.{Belongs};
    ghost use Rattle.nit_hall.specs.ClipPass.{ClipBelongs};

    ghost Value = { Unit {0} };

    ghost view = { λ _. tt };

    ghost invariant = { λ c. Belongs N.parts c.pass × ClipBelongs N.parts c.clip };
}

impl<'a, N: Name> Client<'a, N> {
    /// Does the lines of a phase and then its clip calls, and ends it, if a line does.
    pub fn do_phase<R: Abort + Wait>(
        &mut self,
        rt: &R,
        hall: &Hall<'a, N>,
        answers: &mut Vec<ClipReply>,
    ) {
        for _ in 0..MANY {
            self.do_line(rt, hall, answers);
        }
        self.end_phase(rt, hall);
    }

    /// Does the next line or clip call of the phase.
    fn do_line<R: Abort + Wait>(
        &mut self,
        rt: &R,
        hall: &Hall<'a, N>,
        answers: &mut Vec<ClipReply>,
    ) {
        match self.pass.next() {
            Some(Line::Call(_)) => {
                hall.serve_next(rt, &mut self.pass);
            }
            Some(Line::Stroke(_)) => {
                hall.wait_ready(rt, &mut self.pass);
                self.pass.stroke();
            }
            Some(Line::Phase) | None => {
                do_clip(rt, hall, &mut self.pass, &mut self.clip, answers);
            }
        }
    }

    /// Ends the phase in both scripts, if the next line does.
    fn end_phase<R: Abort + Wait>(&mut self, rt: &R, hall: &Hall<'a, N>) {
        let Some(Line::Phase) = self.pass.next() else {
            return;
        };
        hall.arrive(rt, &mut self.pass);
        let Some(ClipLine::Phase) = self.clip.next() else {
            return fail(rt, "a clip script of other phases");
        };
        let (phase, clip_phase) = (self.pass.phase(), self.clip.phase());
        must(rt, "a phase", phase >= 1);
        must(rt, "one phase ahead", phase - 1 == clip_phase);
        self.clip.turn(&self.pass);
    }
}

/// Does the client's next clip call, if its clip script is not at the end of its phase.
fn do_clip<'a, N: Name, R: Abort + Wait>(
    rt: &R,
    hall: &Hall<'a, N>,
    pass: &mut Pass<'a>,
    clip: &mut ClipPass<'a>,
    answers: &mut Vec<ClipReply>,
)
    requires belongs { Belongs N.parts pass.old }
    requires clip_belongs { ClipBelongs N.parts clip.old }
    requires phase_end { IsAtPhaseEnd pass.old }
    ensures belongs { Belongs N.parts pass.new }
    ensures clip_belongs { ClipBelongs N.parts clip.new }
{
    let Some(ClipLine::Call(_)) = clip.next() else {
        return;
    };
    must(rt, "one client", pass.sid() == clip.sid());
    must(rt, "one phase", pass.phase() == clip.phase());
    let answer = hall.clip_next(rt, pass, clip);
    answers.push(answer).expect(rt, "memory for an answer");
}

/// The clients of these passes and clip passes, in order.
pub fn clients<'a, N: Name>(
    rt: &impl Abort,
    alloc: Global,
    passes: Vec<Pass<'a>>,
    clips: Vec<ClipPass<'a>>,
) -> Vec<Client<'a, N>>
    requires passes { All (Belongs N.parts) passes.items }
    requires clips { All (ClipBelongs N.parts) clips.items }
{
    let mut clips = clips.into_iter();
    let mut clients = Vec::new(alloc);
    for pass in passes {
        let client = Client {
            pass,
            clip: clips.next().expect(rt, "a clip pass"),
            of: PhantomData,
        };
        clients.push(client).expect(rt, "memory for a client");
    }
    clients
}

/// The user of the opening that `N` names.
#[derive(Drop)]
pub struct User<'a, N: Name> {
    pass: UserPass<'a>,
    of: PhantomData<N>,
}

impl<'a, N: Name> Model for User<'a, N> {
    ghost use Rattle.nit_hall.specs.Pass.{UserBelongs};

    ghost Value = { Unit {0} };

    ghost view = { λ _. tt };

    ghost invariant = { λ u. UserBelongs N.parts u.pass };
}

impl<'a, N: Name> User<'a, N> {
    /// The user of this pass.
    pub fn new(pass: UserPass<'a>) -> User<'a, N>
        requires { UserBelongs N.parts pass }
    {
        User {
            pass,
            of: PhantomData,
        }
    }

    /// Does the lines of a phase, and ends it, if a line does.
    pub fn do_phase<R: Wait>(&mut self, rt: &R, hall: &Hall<'a, N>) {
        for _ in 0..MANY {
            self.do_line(rt, hall);
        }
        if let Some(InputLine::Phase) = self.pass.next() {
            hall.arrive_user(rt, &mut self.pass);
        }
    }

    /// Does the next line, if it is of a device.
    fn do_line<R: Wait>(&mut self, rt: &R, hall: &Hall<'a, N>) {
        if let Some(InputLine::Device(_)) = self.pass.next() {
            hall.user_next(rt, &mut self.pass);
        }
    }
}
