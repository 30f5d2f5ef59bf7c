//! A run with each client on a thread of its own, and the user on the calling one.

ghost use Rattle.nit_perform.specs.Terms.{HasRun, IsReady, IsRunnable, IsSupplied, Runs, setup_of};
ghost use Rattle.nit_perform.specs.Terms.{true};

use crate::host::ThreadHost;
use crate::last::last_picture;
use crate::memory::{Memory, buffers_of, canvases_of};
use crate::opening::plans_of;
use crate::ran::{LeftDesk, Ran, leave_desk};
use crate::texts::leave_texts;
use nit_actor::{Gate, GatedHall, Unstarted, UserAndDesk};
use nit_config::{Config, Member};
use nit_hall::{Hall, Name, Opened, Parts, Pass, open};
use nit_rect::NoMemory;
use nit_rounds::{Desk, PictureName};
use nit_script::{Client, Input};
use nit_store::Store;
use std::marker::Brand;
use std::sync::Wait;
use std::thread::Threads;

/// Takes all memory of a run, and does it with each client on a thread of its own, up to its end.
/// Each shot is put as it is taken, then the last picture, and then the texts, until a put is
/// refused. Where memory runs out before the first thread, nothing was done.
pub fn run_beside<R: Threads + Wait + Sync, S: Store, G: Gate>(
    host: &ThreadHost<R, G>,
    config: &Config,
    scripts: &[Client],
    input: &Input,
    store: &mut S,
) -> Result<Ran, NoMemory>
    requires { IsRunnable (setup_of config.now scripts.now input.now true true) }
    ensures { Runs (S.shown store.old) (setup_of config.now scripts.now input.now true true)
        (S.shown store.new) result }
{
    let alloc = host.alloc;
    let plans = plans_of(alloc, config, scripts)?;
    let (buffers, keys) = buffers_of(alloc, config, scripts)?;
    let canvases = canvases_of(alloc, &buffers, keys)?;
    let parts = Parts {
        scripts,
        plans: &plans,
        input,
    };
    let opened = open(alloc, config, parts, canvases)?;
    let memory = Memory::new(alloc, config)?;
    let clients = config.clients.as_slice();
    Ok(run_named::<Brand, R, S, G>(host, clients, opened, memory, store))
}

/// Runs an opening that N names, takes the last picture, and puts what is to be put behind the
/// pictures of the shots. Until the texts it takes no memory.
fn run_named<'a, N: Name + Send + Sync, R: Threads + Wait + Sync, S: Store, G: Gate>(
    host: &ThreadHost<R, G>,
    clients: &[Member],
    opened: Opened<'a>,
    memory: Memory<Pass<'a>>,
    store: &mut S,
) -> Ran
    requires ready { IsReady N.parts opened.room opened.passes.items opened.user }
    requires supplied { IsSupplied N.parts.config memory clients.now }
    ensures { HasRun (S.shown store.old)
        (setup_of N.parts.config N.parts.scripts N.parts.input true true)
        (S.shown store.new) result }
{
    let Opened {
        room,
        mut passes,
        user,
    } = opened;
    let Memory {
        raised,
        waiting,
        frame,
        text,
    } = memory;
    let desk = Desk {
        store,
        frame,
        text,
        fault: None,
        tried: PictureName::Final,
    };
    let mine = UserAndDesk { user, desk };
    let hall: Hall<'a, N> = Hall::new(room);
    let unstarted = Unstarted {
        raised: &raised,
        waiting,
    };
    let gated = GatedHall {
        hall: &hall,
        gate: host.gate,
    };
    let mine = nit_actor::run_beside(host.rt, gated, unstarted, &mut passes, mine);
    let UserAndDesk { user, mut desk } = mine;
    let room = hall.into_room();
    let scene = last_picture(Opened { room, passes, user }, &mut desk);
    let LeftDesk { store, fault } = leave_desk(desk);
    leave_texts(host.alloc, store, fault, clients, scene)
}
