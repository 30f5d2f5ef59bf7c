//! A run whose first client shows what another run has shown.

ghost use Rattle.std.specs.Prelude.{◌+◌, List, Some, ◌≡◌, ◌≤◌, length, ◌∷◌, true};
ghost use Rattle.nit_top.specs.Terms.{Ends, IsRunnable, Line, Nested, PerformedNested, RunFiles};
ghost use Rattle.nit_top.specs.Terms.{first_other, setup_of};

use crate::report::finish::{Worked, ended_before_run};
use crate::run::inner::run_inner;
use nit_actor::Gate;
use nit_config::Config;
use nit_events::Entry;
use nit_nested::laws::phases_stay;
use nit_perform::{ThreadHost, put_inner_journal, run_beside};
use nit_rounds::laws::each_line_once;
use nit_run::Scripts;
use nit_run::laws::headline;
use nit_script::Client;
use nit_setup::{
    End, Fault, Loaded, TwoRuns, at, at_second, first_other, frame_count, nowhere, read_nested,
};
use nit_store::Store;
use std::sync::Wait;
use std::thread::Threads;

/// Reads the files of both configurations, and runs the inner one by turns. Then it runs the outer
/// one with each client on a thread of its own. There the first client shows the frames of the
/// inner run.
pub fn nested<R: Threads + Wait + Sync, S: Store, G: Gate>(
    host: &ThreadHost<R, G>,
    store: &mut S,
    outer: &str,
    inner: &str,
) -> Worked
    ensures { Ends (Nested outer.now inner.now) (S.shown store.old) (S.shown store.new) result }
{
    each_line_once();
    phases_stay();
    let TwoRuns { outer, inner } = match read_nested(host.alloc, store, outer, inner) {
        Ok(read) => read,
        Err(stop) => return ended_before_run(host.alloc, stop),
    };
    let Loaded {
        config,
        scripts: shown,
    } = outer;
    if let Some(other) = first_other(frame_count(&inner.scripts.input), &config, &shown) {
        return ended_before_run(host.alloc, at(End::Unfit(Fault::PhasesDiffer), other));
    }
    let clients = inner.scripts.clients.as_slice();
    match run_inner(
        host.alloc,
        &inner.config,
        clients,
        &inner.scripts.input,
        &shown.clients[0],
    ) {
        Ok(made) => {
            let _known = made.script.lines();
            let shown = with_first(shown, made.script);
            perform_nested(host, store, &config, &shown, &made.journal)
        }
        Err(end) => ended_before_run(host.alloc, at_second(end)),
    }
}

/// The scripts, with this one in the first client's place.
fn with_first(scripts: Scripts, first: Client) -> Scripts
    requires { 1 ≤ length scripts.clients.items }
    ensures first { (own : List Line) (rest : List (List Line))
        → scripts.clients.items ≡ own ∷ rest → result.clients.items ≡ first ∷ rest }
    ensures input { result.input ≡ scripts.input }
{
    let Scripts { mut clients, input } = scripts;
    clients[0] = first;
    Scripts { clients, input }
}

/// Runs a setup with texts, each client on a thread of its own, and puts the journal of an inner
/// run behind its files. A run that is not begun leaves everything.
fn perform_nested<R: Threads + Wait + Sync, S: Store, G: Gate>(
    host: &ThreadHost<R, G>,
    store: &mut S,
    config: &Config,
    scripts: &Scripts,
    journal: &[Entry],
) -> Worked
    requires { IsRunnable
        (setup_of config.now scripts.now.clients.items scripts.now.input true true) }
    ensures { (i : RunFiles)
        → let s = setup_of config.now scripts.now.clients.items scripts.now.input true true in
        PerformedNested journal.now (S.shown store.old) (record s { inner = Some i })
        (S.shown store.new) result }
{
    headline();
    let clients = scripts.clients.as_slice();
    let Ok(ran) = run_beside(host, config, clients, &scripts.input, store) else {
        return ended_before_run(host.alloc, nowhere(End::NoMemory));
    };
    let fault = put_inner_journal(host.alloc, store, ran.fault, journal);
    Worked::after(ran.with_fault(fault), clients.len())
}
