//! A run with each client on a thread of its own and a clip script for each, and the user on the
//! calling thread.

ghost use Rattle.std.specs.Prelude.{◌≡◌, length};
ghost use Rattle.nit_top.specs.Terms.{Clip, Ends, IsRunnable, PerformedClips, clips_setup_of};

use crate::report::finish::{Worked, ended_before_run};
use nit_actor::Gate;
use nit_clip::ClipScript;
use nit_config::Config;
use nit_perform::{ThreadHost, run_with_clips};
use nit_rect::NoMemory;
use nit_run::Scripts;
use nit_run::laws::headline;
use nit_setup::{End, nowhere, read_clips};
use nit_store::Store;
use std::sync::Wait;
use std::thread::Threads;

/// Runs the configuration of this name with each client on a thread of its own, and a clip script
/// for each.
pub fn clip<R: Threads + Wait + Sync, S: Store, G: Gate>(
    host: &ThreadHost<R, G>,
    store: &mut S,
    name: &str,
) -> Worked
    ensures { Ends (Clip name.now) (S.shown store.old) (S.shown store.new) result }
{
    match read_clips(host.alloc, store, name) {
        Ok(read) => perform_clips(
            host,
            store,
            &read.run.config,
            &read.run.scripts,
            &read.clips,
        ),
        Err(stop) => ended_before_run(host.alloc, stop),
    }
}

/// Runs a setup with texts and a clip script for each client. A run that is not begun leaves
/// everything.
fn perform_clips<R: Threads + Wait + Sync, S: Store, G: Gate>(
    host: &ThreadHost<R, G>,
    store: &mut S,
    config: &Config,
    scripts: &Scripts,
    clips: &[ClipScript],
) -> Worked
    requires runnable { IsRunnable (clips_setup_of config.now scripts.now clips.now) }
    requires each { length clips.now ≡ length scripts.now.clients.items }
    ensures { PerformedClips (S.shown store.old) (clips_setup_of config.now scripts.now clips.now)
        (S.shown store.new) result }
{
    headline();
    let clients = scripts.clients.as_slice();
    let Ok(ran) = run_with_clips(host, config, scripts, clips, store) else {
        return ended_before_run(host.alloc, nowhere(End::NoMemory));
    };
    Worked::after(ran, clients.len())
}
