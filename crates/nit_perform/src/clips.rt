//! A run with each client on a thread of its own and a clip script for each, and the user on the
//! calling thread.

ghost use Rattle.std.specs.Prelude.{◌≡◌, length};
ghost use Rattle.nit_perform.specs.Terms.{HasRoomBack, HasRunClips, IsReadyWithClips, IsRunnable};
ghost use Rattle.nit_perform.specs.Terms.{IsSupplied, RunsClips, clips_setup_in, clips_setup_of};

use crate::added::put_clips;
use crate::host::ThreadHost;
use crate::last::last_with_clips;
use crate::memory::{Memory, buffers_of, canvases_of};
use crate::opening::plans_of;
use crate::pairs::{Paired, open_pairs, take_apart};
use crate::ran::{LeftDesk, Ran, leave_desk};
use crate::texts::leave_texts;
use nit_actor::{Gate, GatedHall, Pair, Unstarted, UserAndDesk, run_beside_clips};
use nit_clip::ClipScript;
use nit_config::{Config, Member};
use nit_hall::{ClipOpened, Hall, Name, Opened, Parts};
use nit_rect::NoMemory;
use nit_rounds::{Desk, PictureName};
use nit_run::Scripts;
use nit_store::Store;
use std::marker::Brand;
use std::sync::Wait;
use std::thread::Threads;

/// Takes all memory of a run, and does it up to its end. The clip list is put behind the texts,
/// unless a put was refused. Where memory runs out before the first thread, nothing was done.
pub fn run_with_clips<R: Threads + Wait + Sync, S: Store, G: Gate>(
    host: &ThreadHost<R, G>,
    config: &Config,
    scripts: &Scripts,
    clips: &[ClipScript],
    store: &mut S,
) -> Result<Ran, NoMemory>
    requires runnable { IsRunnable (clips_setup_of config.now scripts.now clips.now) }
    requires each { length clips.now ≡ length scripts.now.clients.items }
    ensures { RunsClips (S.shown store.old) (clips_setup_of config.now scripts.now clips.now)
        (S.shown store.new) result }
{
    let alloc = host.alloc;
    let clients = scripts.clients.as_slice();
    let plans = plans_of(alloc, config, clients)?;
    let (buffers, keys) = buffers_of(alloc, config, clients)?;
    let canvases = canvases_of(alloc, &buffers, keys)?;
    let parts = Parts {
        scripts: clients,
        plans: &plans,
        input: &scripts.input,
    };
    let actors = open_pairs(alloc, config, parts, canvases, clips)?;
    let memory = Memory::new(alloc, config)?;
    let members = config.clients.as_slice();
    Ok(run_clips_named::<Brand, R, S, G>(host, members, actors, memory, store))
}

/// Runs the actors of an opening that N names, takes the last picture, and puts what is to be put
/// behind the pictures of the shots. Until the texts it takes no memory.
fn run_clips_named<'a, N: Name + Send + Sync, R: Threads + Wait + Sync, S: Store, G: Gate>(
    host: &ThreadHost<R, G>,
    clients: &[Member],
    actors: Paired<'a>,
    memory: Memory<Pair<'a>>,
    store: &mut S,
) -> Ran
    requires ready { IsReadyWithClips N.parts actors.room actors.pairs.items actors.user }
    requires back { HasRoomBack actors }
    requires supplied { IsSupplied N.parts.config memory clients.now }
    ensures { HasRunClips (S.shown store.old) (clips_setup_in N.parts) (S.shown store.new)
        result.journal.items result.frames result.fault }
{
    let Paired {
        room,
        user,
        mut pairs,
        mut passes,
        mut clips,
    } = actors;
    let Memory {
        raised,
        waiting,
        frame,
        text,
    } = memory;
    let desk = Desk {
        store,
        frame,
        text,
        fault: None,
        tried: PictureName::Final,
    };
    let mine = UserAndDesk { user, desk };
    let hall: Hall<'a, N> = Hall::new(room);
    let unstarted = Unstarted {
        raised: &raised,
        waiting,
    };
    let gated = GatedHall {
        hall: &hall,
        gate: host.gate,
    };
    let mine = run_beside_clips(host.rt, gated, unstarted, &mut pairs, mine);
    let UserAndDesk { user, mut desk } = mine;
    take_apart(&mut pairs, &mut passes, &mut clips);
    let room = hall.into_room();
    let opened = Opened { room, passes, user };
    let (scene, list) = last_with_clips(host.alloc, ClipOpened { opened, clips }, &mut desk);
    let LeftDesk { store, fault } = leave_desk(desk);
    let ran = leave_texts(host.alloc, store, fault, clients, scene);
    put_clips(store, ran, list)
}
