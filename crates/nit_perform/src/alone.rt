//! The run of one client whose user does nothing, on the calling thread.

ghost use Rattle.std.specs.Prelude.{false, ◌≡◌, ◌*◌, length};
ghost use Rattle.nit_perform.specs.Terms.{AreDone, HasRun, IsAlone, IsDoneUser, IsOpen};
ghost use Rattle.nit_perform.specs.Terms.{IsReadyAlone, IsRunnable, Runs, picture_length, setup_of};

use crate::last::last_picture;
use crate::memory::{buffers_of, canvases_of};
use crate::opening::{blank_frame, blank_text, plans_of};
use crate::ran::{LeftDesk, Ran, leave_desk, leave_pictures};
use nit_actor::laws::idle_user_does_nothing;
use nit_actor::run_alone;
use nit_config::Config;
use nit_hall::{Opened, Parts, Pass, Room, UserPass, open};
use nit_rect::NoMemory;
use nit_rounds::laws::{each_line_once, one_client_goes_by_rounds};
use nit_rounds::{Desk, PictureName};
use nit_script::{Client, Input};
use nit_store::Store;
use std::alloc::Global;

/// Takes all memory of a run of one client whose user does nothing, and does it up to its end: the
/// client draws on words of its own, which a room without a lock reads. The last picture is put.
/// Where memory runs out before the first line, nothing was done.
pub fn run_one<S: Store>(
    alloc: Global,
    config: &Config,
    scripts: &[Client],
    input: &Input,
    store: &mut S,
) -> Result<Ran, NoMemory>
    requires runnable { IsRunnable (setup_of config.now scripts.now input.now false false) }
    requires alone { IsAlone scripts.now input.now }
    ensures { Runs (S.shown store.old) (setup_of config.now scripts.now input.now false false)
        (S.shown store.new) result }
{
    let plans = plans_of(alloc, config, scripts)?;
    let (buffers, keys) = buffers_of(alloc, config, scripts)?;
    let canvases = canvases_of(alloc, &buffers, keys)?;
    let parts = Parts {
        scripts,
        plans: &plans,
        input,
    };
    let opened = open(alloc, config, parts, canvases)?;
    let frame = blank_frame(alloc, config)?;
    let text = blank_text(alloc, config)?;
    Ok(play_alone(opened, frame, text, store))
}

/// Does all lines of an opening, takes the last picture and puts it. It takes no memory.
fn play_alone<'a, S: Store>(
    opened: Opened<'a>,
    frame: Vec<u32>,
    text: Vec<u8>,
    store: &mut S,
) -> Ran
    requires ready { IsReadyAlone opened.room.parts opened.room opened.passes.items opened.user }
    requires frame { length frame.items
        ≡ opened.room.parts.config.width * opened.room.parts.config.height }
    requires text { length text.items
        ≡ picture_length opened.room.parts.config.width opened.room.parts.config.height }
    ensures { let parts = opened.entry.room.parts in
        HasRun (S.shown store.old) (setup_of parts.config parts.scripts parts.input false false)
        (S.shown store.new) result }
{
    each_line_once();
    idle_user_does_nothing();
    one_client_goes_by_rounds();
    let Opened {
        mut room,
        mut passes,
        mut user,
    } = opened;
    let mut desk = Desk {
        store,
        frame,
        text,
        fault: None,
        tried: PictureName::Final,
    };
    do_all(&mut room, &mut passes, &mut user);
    let done = Opened { room, passes, user };
    let scene = last_picture(done, &mut desk);
    let LeftDesk { store, fault } = leave_desk(desk);
    leave_pictures(store, scene.into_journal().into_entries(), fault)
}

/// Does all lines of the first pass, which is the only one, and of the user.
fn do_all<'a>(room: &mut Room<'a>, passes: &mut Vec<Pass<'a>>, user: &mut UserPass<'a>)
    requires ready { IsReadyAlone room.old.parts room.old passes.old.items user.old }
    ensures parts { room.new.parts ≡ room.old.parts }
    ensures open { IsOpen room.new.scene.entries }
    ensures done { AreDone room.old.parts passes.new.items }
    ensures user { IsDoneUser room.old.parts user.new }
{
    run_alone(room, &mut passes[0], user);
}
