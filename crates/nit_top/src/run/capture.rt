//! The run of a configuration that is filmed.

ghost use Rattle.std.specs.Prelude.{◌≡◌, ◌+◌, false, true};
ghost use Rattle.nit_top.specs.Terms.{Capture, Ends, IsRegionWords, IsRunnable, PerformedFilmed};
ghost use Rattle.nit_top.specs.Terms.{Region, is_off_screen, setup_of};

use crate::report::finish::{Worked, ended_before_run};
use nit_actor::Gate;
use nit_config::Config;
use nit_perform::{Film, ThreadHost, run_filmed};
use nit_rect::NoMemory;
use nit_run::laws::headline;
use nit_run::{Region, Scripts};
use nit_setup::{End, nowhere, read_run};
use nit_store::Store;
use std::sync::Wait;
use std::thread::Threads;

/// Runs the configuration of this name with each client on a thread of its own, and films a region
/// of the screen, which is to lie on it.
pub fn capture<R: Threads + Wait + Sync, S: Store, G: Gate>(
    host: &ThreadHost<R, G>,
    store: &mut S,
    name: &str,
    region: Region,
) -> Worked
    requires { IsRegionWords region }
    ensures { Ends (Capture name.now region) (S.shown store.old) (S.shown store.new) result }
{
    let run = match read_run(host.alloc, store, name) {
        Ok(run) => run,
        Err(stop) => return ended_before_run(host.alloc, stop),
    };
    if region.is_outside(run.config.width, run.config.height) {
        return ended_before_run(host.alloc, nowhere(End::Outside));
    }
    perform_filmed(host, store, &run.config, &run.scripts, region)
}

/// Runs a setup with texts, each client on a thread of its own, and films a region of the screen. A
/// run that is not begun leaves everything.
fn perform_filmed<R: Threads + Wait + Sync, S: Store, G: Gate>(
    host: &ThreadHost<R, G>,
    store: &mut S,
    config: &Config,
    scripts: &Scripts,
    region: Region,
) -> Worked
    requires runnable { IsRunnable
        (setup_of config.now scripts.now.clients.items scripts.now.input true true) }
    requires inside { is_off_screen region config.now.width config.now.height ≡ false }
    ensures { PerformedFilmed region (S.shown store.old)
        (setup_of config.now scripts.now.clients.items scripts.now.input true true)
        (S.shown store.new) result }
{
    headline();
    let clients = scripts.clients.as_slice();
    let rect = region.rect(config.width, config.height);
    let Ok(film) = Film::new(host.alloc, config.width, config.height, rect) else {
        return ended_before_run(host.alloc, nowhere(End::NoMemory));
    };
    let Ok(ran) = run_filmed(host, config, scripts, film, store) else {
        return ended_before_run(host.alloc, nowhere(End::NoMemory));
    };
    Worked::after(ran, clients.len())
}
