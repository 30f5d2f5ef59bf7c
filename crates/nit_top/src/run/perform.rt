//! The work of a command: what is to be run, the run, and how it came to its end.

ghost use Rattle.std.specs.Prelude.{◌<◌, ◌≤◌, false, true};
ghost use Rattle.nit_top.specs.Terms.{Ends, Gen, IsRunnable, Performed, Run, Still, generated};
ghost use Rattle.nit_top.specs.Terms.{most_run_height, most_run_width, number_end, setup_of};

use crate::report::finish::{Worked, ended_before_run, stop_after};
use nit_actor::Gate;
use nit_config::Config;
use nit_perform::{ThreadHost, put_files, run_beside, run_one, run_turns};
use nit_rect::NoMemory;
use nit_report::{gen_config, generate, generated_client_counts, generated_user_counts};
use nit_run::Scripts;
use nit_run::laws::headline;
use nit_setup::{End, OneScript, nowhere, read_files, read_run, read_still};
use nit_store::Store;
use nit_store::laws::puts_go_on;
use std::alloc::Global;
use std::sync::Wait;
use std::thread::Threads;

/// Makes the picture of the script of this name, without texts.
pub fn still<S: Store>(
    alloc: Global,
    store: &mut S,
    width: u32,
    height: u32,
    script: &str,
) -> Worked
    requires { (0 < width) × (width ≤ most_run_width) × (0 < height) × (height ≤ most_run_height) }
    ensures { Ends (Still width height script.now) (S.shown store.old)
        (S.shown store.new) result }
{
    headline();
    let OneScript {
        config,
        client,
        input,
    } = match read_still(alloc, store, width, height, script) {
        Ok(read) => read,
        Err(stop) => return ended_before_run(alloc, stop),
    };
    let Ok(ran) = run_one(alloc, &config, &[client], &input, store) else {
        return ended_before_run(alloc, nowhere(End::NoMemory));
    };
    Worked::after(ran, 1)
}

/// Runs the configuration of this name by turns, with texts.
pub fn turns<S: Store>(alloc: Global, store: &mut S, name: &str) -> Worked
    ensures { Ends (Run false name.now) (S.shown store.old) (S.shown store.new) result }
{
    headline();
    let run = match read_run(alloc, store, name) {
        Ok(run) => run,
        Err(stop) => return ended_before_run(alloc, stop),
    };
    let clients = run.scripts.clients.as_slice();
    let Ok(ran) = run_turns(alloc, &run.config, clients, &run.scripts.input, store) else {
        return ended_before_run(alloc, nowhere(End::NoMemory));
    };
    Worked::after(ran, clients.len())
}

/// Runs the configuration of this name with each client on a thread of its own.
pub fn run_command<R: Threads + Wait + Sync, S: Store, G: Gate>(
    host: &ThreadHost<R, G>,
    store: &mut S,
    name: &str,
) -> Worked
    ensures { Ends (Run true name.now) (S.shown store.old) (S.shown store.new) result }
{
    match read_run(host.alloc, store, name) {
        Ok(run) => perform_beside(host, store, &run.config, &run.scripts),
        Err(stop) => ended_before_run(host.alloc, stop),
    }
}

/// Puts the files of the generated run of this number, and runs it as they say, with each client on
/// a thread of its own. The scripts are read from their own bytes.
pub fn generated<R: Threads + Wait + Sync, S: Store, G: Gate>(
    host: &ThreadHost<R, G>,
    store: &mut S,
    number: u32,
) -> Worked
    requires { number < number_end }
    ensures { Ends (Gen number) (S.shown store.old) (S.shown store.new) result }
{
    generated_client_counts();
    generated_user_counts();
    headline();
    puts_go_on();
    let Ok(files) = generate(host.alloc, number) else {
        return ended_before_run(host.alloc, nowhere(End::NoMemory));
    };
    let fault = put_files(store, number, &files);
    if fault.is_some() {
        return ended_before_run(host.alloc, stop_after(fault));
    }
    let Ok(scripts) = read_files(host.alloc, number, &files) else {
        return ended_before_run(host.alloc, nowhere(End::NoMemory));
    };
    let Ok(config) = gen_config(host.alloc) else {
        return ended_before_run(host.alloc, nowhere(End::NoMemory));
    };
    perform_beside(host, store, &config, &scripts)
}

/// Runs a setup with texts, each client on a thread of its own. A run that is not begun leaves
/// everything.
pub fn perform_beside<R: Threads + Wait + Sync, S: Store, G: Gate>(
    host: &ThreadHost<R, G>,
    store: &mut S,
    config: &Config,
    scripts: &Scripts,
) -> Worked
    requires { IsRunnable
        (setup_of config.now scripts.now.clients.items scripts.now.input true true) }
    ensures { Performed (S.shown store.old)
        (setup_of config.now scripts.now.clients.items scripts.now.input true true)
        (S.shown store.new) result }
{
    headline();
    let clients = scripts.clients.as_slice();
    let Ok(ran) = run_beside(host, config, clients, &scripts.input, store) else {
        return ended_before_run(host.alloc, nowhere(End::NoMemory));
    };
    Worked::after(ran, clients.len())
}
