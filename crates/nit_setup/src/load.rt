//! Reading files, and judging them.

ghost use Rattle.nit_setup.specs.Terms.{AreLines, FileJudged, FitsInputLine, FitsLine};
ghost use Rattle.nit_setup.specs.Terms.{IsClientFault, IsClientScript, IsConfig, IsConfigFault};
ghost use Rattle.nit_setup.specs.Terms.{IsInputFault, IsInputScript, IsJournalText};
ghost use Rattle.nit_setup.specs.Terms.{IsNoJournalText, IsPhasedFault, IsPhasedScript};
ghost use Rattle.nit_setup.specs.Terms.{IsRunConfiguration, JudgedBytes, ReadFor, end_of_journal};
ghost use Rattle.nit_setup.specs.Terms.{end_of_script, most_bytes, most_journal_bytes, most_lines};
ghost use Rattle.nit_setup.specs.Terms.{wrong_client, wrong_input, wrong_lines};
ghost use Rattle.std.specs.Prelude.{IfOk, ◌≡◌, None, ◌≤◌, length};

use crate::stop::{End, Fault};
use nit_config::{Config, ConfigError, read_config};
use nit_events::Entry;
use nit_report::{JournalError, parse_journal};
use nit_script::{Client, Input, ScriptError, ScriptLine, parse_lines, phases};
use nit_store::{ReadError, Store};
use std::alloc::Global;

/// How many bytes a file may have.
pub const MAX_FILE: usize = 1_048_576;

/// How many bytes a journal's file may have.
const MAX_JOURNAL: usize = 134_217_728;

// ---- one file

/// The bytes of a file, of which there are at most `max`. The fault is that of a file with more.
pub fn read<S: Store>(store: &mut S, name: &str, max: usize, long: Fault) -> Result<Vec<u8>, End>
    ensures { ReadFor max long (S.shown store.old) name.now (S.shown store.new) result }
{
    match store.read(name, max) {
        Ok(bytes) => Ok(bytes),
        Err(ReadError::Failed) => Err(End::ReadFault),
        Err(ReadError::TooLong) => Err(End::Refused(long)),
        Err(ReadError::NoMemory) => Err(End::NoMemory),
    }
}

/// Reads a configuration, and judges it.
pub fn load_config<S: Store>(alloc: Global, store: &mut S, name: &str) -> Result<Config, End>
    ensures loaded { FileJudged IsConfig IsConfigFault (S.shown store.old) name.now
        (S.shown store.new) result }
    ensures configured { IfOk result (λ config. IsRunConfiguration config) }
{
    let bytes = match read(store, name, MAX_FILE, Fault::LongConfig) {
        Ok(bytes) => bytes,
        Err(end) => return Err(end),
    };
    judge_config(alloc, &bytes)
}

/// Reads a client's script, and judges it: it is to have so many phases, where a number is given.
pub fn load_client<S: Store>(
    alloc: Global,
    store: &mut S,
    name: &str,
    wanted: Option<usize>,
) -> Result<Client, End>
    ensures loaded { FileJudged (IsClientScript wanted) (IsClientFault wanted)
        (S.shown store.old) name.now (S.shown store.new) result }
    ensures lines { IfOk result (AreLines FitsLine) }
    ensures right { IfOk result (λ lines. wrong_client wanted lines ≡ None) }
{
    match load_lines(alloc, store, name, wanted) {
        Ok(lines) => Ok(Client { lines }),
        Err(end) => Err(end),
    }
}

/// Reads an input script, and judges it: it is to have so many phases, where a number is given.
pub fn load_input<S: Store>(
    alloc: Global,
    store: &mut S,
    name: &str,
    wanted: Option<usize>,
) -> Result<Input, End>
    ensures loaded { FileJudged (IsInputScript wanted) (IsInputFault wanted) (S.shown store.old)
        name.now
        (S.shown store.new) result }
    ensures lines { IfOk result (AreLines FitsInputLine) }
    ensures right { IfOk result (λ lines. wrong_input wanted lines ≡ None) }
{
    match load_lines(alloc, store, name, wanted) {
        Ok(lines) => Ok(Input { lines }),
        Err(end) => Err(end),
    }
}

/// Reads the script of one kind of line that this file has, and judges it: it is to have so many
/// phases, where a number is given.
pub fn load_lines<S: Store, L: ScriptLine>(
    alloc: Global,
    store: &mut S,
    name: &str,
    wanted: Option<usize>,
) -> Result<Vec<L>, End>
    ensures loaded { FileJudged
        (λ bytes v. IsPhasedScript L.Fits L.spelling L.ends_phase wanted bytes v.items)
        (IsPhasedFault L.Fits L.spelling L.ends_phase wanted)
        (S.shown store.old) name.now (S.shown store.new) result }
    ensures lines { IfOk result (λ v. AreLines L.Fits v.items) }
    ensures right { IfOk result (λ v. wrong_lines L.ends_phase wanted v.items ≡ None) }
{
    let bytes = match read(store, name, MAX_FILE, Fault::TooLong) {
        Ok(bytes) => bytes,
        Err(end) => return Err(end),
    };
    judge_lines(alloc, &bytes, wanted)
}

/// Reads a journal, and judges its text.
pub fn load_journal<S: Store>(alloc: Global, store: &mut S, name: &str) -> Result<Vec<Entry>, End>
    ensures loaded { FileJudged (λ bytes v. IsJournalText bytes v.items) IsNoJournalText
        (S.shown store.old) name.now (S.shown store.new) result }
    ensures few { IfOk result (λ v. length v.items ≤ most_journal_bytes) }
{
    let bytes = match read(store, name, MAX_JOURNAL, Fault::LongJournal) {
        Ok(bytes) => bytes,
        Err(end) => return Err(end),
    };
    judge_journal(alloc, &bytes)
}

// ---- the bytes of a file

fn judge_config(alloc: Global, bytes: &[u8]) -> Result<Config, End>
    requires { length bytes.now ≤ most_bytes }
    ensures judged { JudgedBytes IsConfig IsConfigFault bytes.now result }
    ensures configured { IfOk result (λ config. IsRunConfiguration config) }
{
    match read_config(alloc, bytes) {
        Ok(config) => Ok(config),
        Err(ConfigError::NoMemory) => Err(End::NoMemory),
        Err(error) => Err(End::Refused(Fault::BadConfig(error))),
    }
}

fn judge_lines<L: ScriptLine>(
    alloc: Global,
    bytes: &[u8],
    wanted: Option<usize>,
) -> Result<Vec<L>, End>
    requires { length bytes.now ≤ most_bytes }
    ensures judged { JudgedBytes
        (λ bytes v. IsPhasedScript L.Fits L.spelling L.ends_phase wanted bytes v.items)
        (IsPhasedFault L.Fits L.spelling L.ends_phase wanted) bytes.now result }
    ensures lines { IfOk result (λ v. AreLines L.Fits v.items) }
    ensures right { IfOk result (λ v. wrong_lines L.ends_phase wanted v.items ≡ None) }
{
    let lines: Vec<L> = match parse_lines(alloc, bytes) {
        Ok(lines) => lines,
        Err(error) => return Err(no_script(error)),
    };
    match wrong_lines(wanted, &lines) {
        Some(fault) => Err(End::Refused(fault)),
        None => Ok(lines),
    }
}

fn judge_journal(alloc: Global, bytes: &[u8]) -> Result<Vec<Entry>, End>
    requires { length bytes.now ≤ most_journal_bytes }
    ensures judged { JudgedBytes (λ bytes v. IsJournalText bytes v.items) IsNoJournalText
        bytes.now result }
    ensures few { IfOk result (λ v. length v.items ≤ most_journal_bytes) }
{
    match parse_journal(alloc, bytes) {
        Ok(entries) => Ok(entries),
        Err(error) => Err(no_journal(error)),
    }
}

/// How the work ends where bytes are no journal.
fn no_journal(error: JournalError) -> End
    ensures { result ≡ end_of_journal error }
{
    match error {
        JournalError::Bad { line } => End::Refused(Fault::BadEntry(line)),
        JournalError::NoMemory => End::NoMemory,
    }
}

/// How the work ends where bytes are no script.
fn no_script(error: ScriptError) -> End
    ensures { result ≡ end_of_script error }
{
    match error {
        ScriptError::Bad { line } => End::Refused(Fault::BadLine(line)),
        ScriptError::TooLong => End::Refused(Fault::TooLong),
        ScriptError::NoMemory => End::NoMemory,
    }
}

/// What is wrong with the lines of a script.
fn wrong_lines<L: ScriptLine>(wanted: Option<usize>, lines: &[L]) -> Option<Fault>
    requires { length lines.now ≤ most_lines }
    ensures { result ≡ wrong_lines L.ends_phase wanted lines.now }
{
    let wanted = wanted?;
    if phases(lines) == wanted {
        None
    } else {
        Some(Fault::PhasesDiffer)
    }
}
