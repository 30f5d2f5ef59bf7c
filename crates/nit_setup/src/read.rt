//! Reading all files of a command.

ghost use Rattle.std.specs.Prelude.{Bool, true, ◌<◌, ◌≤◌};
ghost use Rattle.nit_setup.specs.Terms.{AuditRead, BothRead, Capture, ClipSetupRead, IsLoaded};
ghost use Rattle.nit_setup.specs.Terms.{IsOuterLoaded, PictureRead, Region, Run, SetupRead};
ghost use Rattle.nit_setup.specs.Terms.{most_run_height, most_run_width};

use crate::clips::load_clips;
use crate::load::{load_client, load_config, load_journal};
use crate::outer::read_outer;
use crate::scripts::{read_scripts, wanted_by};
use crate::still::{idle_user, still_configuration};
use crate::stop::{End, Stop, StopName, at_first, at_second};
use nit_clip::ClipScript;
use nit_config::Config;
use nit_events::Entry;
use nit_run::Scripts;
use nit_script::{Client, Input};
use nit_store::Store;
use std::alloc::Global;

/// The script that a picture is made of, with the configuration and the input script that this
/// takes.
#[derive(Drop)]
pub struct OneScript {
    pub config: Config,
    pub client: Client,
    pub input: Input,
}

/// A configuration and its scripts, as they were read.
#[derive(Drop)]
pub struct Loaded {
    pub config: Config,
    pub scripts: Scripts,
}

/// A configuration, its scripts, and a clip script for each client, as they were read.
#[derive(Drop)]
pub struct WithClips {
    pub run: Loaded,
    pub clips: Vec<ClipScript>,
}

/// A configuration, its scripts, and a journal, as they were read.
#[derive(Drop)]
pub struct WithJournal {
    pub run: Loaded,
    pub entries: Vec<Entry>,
}

/// The files of a run whose first client is to show frames, and those of the run that has these.
#[derive(Drop)]
pub struct TwoRuns {
    pub outer: Loaded,
    pub inner: Loaded,
}

/// Reads the script of this name, of which a picture of this size is to be made.
pub fn read_still<S: Store>(
    alloc: Global,
    store: &mut S,
    width: u32,
    height: u32,
    script: &str,
) -> Result<OneScript, Stop>
    requires { (0 < width) × (width ≤ most_run_width) × (0 < height) × (height ≤ most_run_height) }
    ensures { PictureRead width height script.now (S.shown store.old) (S.shown store.new) result }
{
    let client = match load_client(alloc, store, script, None) {
        Ok(client) => client,
        Err(end) => return Err(at_first(end)),
    };
    let Ok(config) = still_configuration(alloc, width, height) else {
        return Err(at_first(End::NoMemory));
    };
    let Ok(input) = idle_user(alloc, client.lines()) else {
        return Err(at_first(End::NoMemory));
    };
    Ok(OneScript {
        config,
        client,
        input,
    })
}

/// Reads the configuration of this name and its scripts, for a run by turns or on threads, or for
/// one that is filmed.
pub fn read_run<S: Store>(alloc: Global, store: &mut S, name: &str) -> Result<Loaded, Stop>
    ensures run { (beside : Bool) → SetupRead (Run beside name.now) beside
        (S.shown store.old) (S.shown store.new) result }
    ensures film { (region : Region) → SetupRead (Capture name.now region) true
        (S.shown store.old) (S.shown store.new) result }
{
    load_run(alloc, store, name, StopName::First)
}

/// Reads the configuration of this name and its scripts, and a clip script for each client.
pub fn read_clips<S: Store>(alloc: Global, store: &mut S, name: &str) -> Result<WithClips, Stop>
    ensures { ClipSetupRead name.now (S.shown store.old) (S.shown store.new) result }
{
    let run = match load_run(alloc, store, name, StopName::First) {
        Ok(run) => run,
        Err(stop) => return Err(stop),
    };
    let wanted = wanted_by(&run.scripts.clients);
    match load_clips(alloc, store, &run.config.clients, wanted) {
        Ok(clips) => Ok(WithClips { run, clips }),
        Err(stop) => Err(stop),
    }
}

/// Reads the configuration of this name and its scripts, and the journal that is to be audited.
pub fn read_audit<S: Store>(
    alloc: Global,
    store: &mut S,
    name: &str,
    journal: &str,
) -> Result<WithJournal, Stop>
    ensures { AuditRead name.now journal.now (S.shown store.old) (S.shown store.new) result }
{
    let run = match load_run(alloc, store, name, StopName::First) {
        Ok(run) => run,
        Err(stop) => return Err(stop),
    };
    match load_journal(alloc, store, journal) {
        Ok(entries) => Ok(WithJournal { run, entries }),
        Err(end) => Err(at_second(end)),
    }
}

/// Reads the configuration of the first name and its scripts, of which the first client's is to
/// show frames, and then those of the second name, whose run is to have these frames.
pub fn read_nested<S: Store>(
    alloc: Global,
    store: &mut S,
    outer: &str,
    inner: &str,
) -> Result<TwoRuns, Stop>
    ensures { BothRead outer.now inner.now (S.shown store.old) (S.shown store.new) result }
{
    let outer = match load_outer_run(alloc, store, outer) {
        Ok(outer) => outer,
        Err(stop) => return Err(stop),
    };
    match load_run(alloc, store, inner, StopName::Second) {
        Ok(inner) => Ok(TwoRuns { outer, inner }),
        Err(stop) => Err(stop),
    }
}

// ---- a configuration and its scripts

/// Reads the configuration of this name and its scripts. The name is said of the configuration.
fn load_run<S: Store>(
    alloc: Global,
    store: &mut S,
    name: &str,
    said: StopName,
) -> Result<Loaded, Stop>
    ensures { IsLoaded name.now said (S.shown store.old) (S.shown store.new) result }
{
    let config = match load_config(alloc, store, name) {
        Ok(config) => config,
        Err(end) => return Err(Stop { end, name: said }),
    };
    match read_scripts(alloc, store, &config) {
        Ok(scripts) => Ok(Loaded { config, scripts }),
        Err(stop) => Err(stop),
    }
}

/// Reads the configuration of this name and its scripts, where the first client is to show frames.
fn load_outer_run<S: Store>(alloc: Global, store: &mut S, name: &str) -> Result<Loaded, Stop>
    ensures { IsOuterLoaded name.now (S.shown store.old) (S.shown store.new) result }
{
    let config = match load_config(alloc, store, name) {
        Ok(config) => config,
        Err(end) => return Err(at_first(end)),
    };
    match read_outer(alloc, store, &config) {
        Ok(scripts) => Ok(Loaded { config, scripts }),
        Err(stop) => Err(stop),
    }
}
