//! The audit of a journal: whether it is one of a run of a configuration's scripts.

ghost use Rattle.std.specs.Prelude.{false, true, ◌≤◌, length};
ghost use Rattle.nit_top.specs.Terms.{Audit, Ends, IsAuditEnd, IsRunnable, most_journal_bytes};
ghost use Rattle.nit_top.specs.Terms.{setup_of};

use crate::report::finish::{Worked, ended_before_run};
use nit_audit::{Verdict, audit};
use nit_config::{Config, run_is_configured};
use nit_events::Entry;
use nit_run::Scripts;
use nit_setup::{End, Fault, at_second, read_audit};
use nit_store::Store;
use std::alloc::Global;

/// Reads the configuration of this name, its scripts and the journal of the other name, and says
/// whether that is one of a run of them. No run is begun.
pub fn audited<S: Store>(alloc: Global, store: &mut S, name: &str, journal: &str) -> Worked
    ensures { Ends (Audit name.now journal.now) (S.shown store.old) (S.shown store.new) result }
{
    let read = match read_audit(alloc, store, name, journal) {
        Ok(read) => read,
        Err(stop) => return ended_before_run(alloc, stop),
    };
    let end = audit_end(alloc, &read.run.config, &read.run.scripts, &read.entries);
    ended_before_run(alloc, at_second(end))
}

/// How the audit of these entries ends.
fn audit_end(alloc: Global, config: &Config, scripts: &Scripts, entries: &[Entry]) -> End
    requires runnable { IsRunnable
        (setup_of config.now scripts.now.clients.items scripts.now.input true false) }
    requires few { length entries.now ≤ most_journal_bytes }
    ensures { IsAuditEnd
        (setup_of config.now scripts.now.clients.items scripts.now.input true false)
        entries.now result }
{
    run_is_configured();
    match audit(alloc, config, &scripts.clients, &scripts.input, entries) {
        Ok(Verdict::Yes) => End::Audited(entries.len() as u32),
        Ok(Verdict::No { entry }) => End::Refused(Fault::NotARun(entry)),
        Err(_) => End::NoMemory,
    }
}
