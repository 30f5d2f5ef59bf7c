//! Lines that are said in pieces, without memory.

ghost use Rattle.std.specs.Prelude.{◌≡◌};
ghost use Rattle.nit_top.specs.Terms.{Says, audited_line, bad_configuration_line, clip_name};
ghost use Rattle.nit_top.specs.Terms.{command_of, decimal, fault_line, first_name, flat_map};
ghost use Rattle.nit_top.specs.Terms.{kind_text, line_on, name_text, numbered_line, output_name};
ghost use Rattle.nit_top.specs.Terms.{piece_text, second_name, summary_line};

use crate::report::finish::Worked;
use nit_config::ConfigError;
use nit_run::{OUTPUT_NAME_BYTES, Output};
use nit_setup::{Asked, End, Fault, StopName};
use nit_store::{PutError, Store};

/// A part of a line.
#[derive(Clone, Copy)]
enum LinePart<'a> {
    Text(&'a [u8]),
    Number(u64),
    /// The name of the clip script of the client with the script of this name.
    ClipsOf(&'a [u8]),
    /// The name of a file that a run puts.
    Put(Output),
}

/// Says how the work that the words ask for came to its end.
pub fn tell<'a, S: Store>(
    store: &mut S,
    asked: Option<Asked<'a>>,
    worked: &'a Worked,
) -> Result<(), PutError>
    ensures { Says (S.shown store.old) (line_on (command_of asked.entry) worked.now)
        (S.shown store.new) result }
{
    let head = LinePart::Text(b"nitpicker: ");
    let name = piece_of(asked, &worked.stop.name);
    match worked.stop.end {
        End::Usage => say_all(
            store,
            &[
                head,
                LinePart::Text(b"usage: nitpicker still W H SCRIPT, turns CONFIG, "),
                LinePart::Text(b"run CONFIG, gen N, audit CONFIG JOURNAL, clip CONFIG, "),
                LinePart::Text(b"capture CONFIG X Y W H or nested OUTER INNER\n"),
            ],
        ),
        End::ReadFault => say_all(store, &[head, name, LinePart::Text(b": read fault\n")]),
        End::Refused(fault) | End::Unfit(fault) => tell_fault(store, fault, name),
        End::Outside => say_all(store, &[head, LinePart::Text(b"capture outside\n")]),
        End::WriteFault => say_all(store, &[head, name, LinePart::Text(b": write fault\n")]),
        End::NoMemory => say_all(store, &[head, LinePart::Text(b"no memory\n")]),
        End::Whole => tell_summary(
            store,
            worked.clients as u64,
            worked.journal.len() as u64,
            worked.frames as u64,
        ),
        End::Audited(entries) => tell_audited(store, entries),
    }
}

/// The name of the file that the work ended at.
fn piece_of<'a>(asked: Option<Asked<'a>>, name: &'a StopName) -> LinePart<'a>
    ensures { piece_text result ≡ name_text (command_of asked.entry) name.entry.now }
{
    match name {
        StopName::Nothing => LinePart::Text(b""),
        StopName::First => LinePart::Text(first(asked).as_bytes()),
        StopName::Second => LinePart::Text(second(asked).as_bytes()),
        StopName::Script(script) => LinePart::Text(script.as_bytes()),
        StopName::ClipsOf(script) => LinePart::ClipsOf(script.as_bytes()),
        StopName::Put(file) => LinePart::Put(*file),
    }
}

/// The first file that the words name, with an empty name where they name none.
fn first<'a>(asked: Option<Asked<'a>>) -> &'a str
    ensures { result.now ≡ first_name (command_of asked.entry) }
{
    match asked {
        Some(asked) => asked.first(),
        None => "",
    }
}

/// The second one.
fn second<'a>(asked: Option<Asked<'a>>) -> &'a str
    ensures { result.now ≡ second_name (command_of asked.entry) }
{
    match asked {
        Some(asked) => asked.second(),
        None => "",
    }
}

/// Says that a journal of so many entries is one of a run.
fn tell_audited<S: Store>(store: &mut S, entries: u32) -> Result<(), PutError>
    ensures { Says (S.shown store.old) (audited_line entries) (S.shown store.new) result }
{
    say_all(
        store,
        &[
            LinePart::Text(b"nitpicker: audit yes entries "),
            LinePart::Number(entries as u64),
            LinePart::Text(b"\n"),
        ],
    )
}

/// Says how many clients, journal entries and pictures a run had.
fn tell_summary<S: Store>(
    store: &mut S,
    clients: u64,
    entries: u64,
    frames: u64,
) -> Result<(), PutError>
    ensures { Says (S.shown store.old)
        (summary_line (record { clients = clients; entries = entries; frames = frames }))
        (S.shown store.new) result }
{
    say_all(
        store,
        &[
            LinePart::Text(b"nitpicker: clients "),
            LinePart::Number(clients),
            LinePart::Text(b" entries "),
            LinePart::Number(entries),
            LinePart::Text(b" frames "),
            LinePart::Number(frames),
            LinePart::Text(b"\n"),
        ],
    )
}

/// Says why the file of this name is refused.
fn tell_fault<S: Store>(store: &mut S, fault: Fault, name: LinePart) -> Result<(), PutError>
    ensures { Says (S.shown store.old) (fault_line (piece_text name.entry) fault)
        (S.shown store.new) result }
{
    let head = LinePart::Text(b"nitpicker: ");
    match fault {
        Fault::BadConfig(error) => tell_kind(store, name, kind_text(error)),
        Fault::LongConfig => tell_kind(store, name, b"too long"),
        Fault::BadLine(line) => tell_number(store, name, b": line ", line, b": bad script\n"),
        Fault::TooLong | Fault::LongJournal => {
            say_all(store, &[head, name, LinePart::Text(b": too long\n")])
        }
        Fault::PhasesDiffer => say_all(store, &[head, name, LinePart::Text(b": phases differ\n")]),
        Fault::BadEntry(line) => tell_number(store, name, b": line ", line, b": bad journal\n"),
        Fault::NotARun(entry) => tell_number(store, name, b": entry ", entry, b": not a run\n"),
        Fault::FramesTooLong => {
            say_all(
                store,
                &[head, name, LinePart::Text(b": inner frames too long\n")],
            )
        }
    }
}

/// Says of a file what is wrong at this line or entry of it.
fn tell_number<'a, S: Store>(
    store: &mut S,
    name: LinePart<'a>,
    before: &'a [u8],
    number: u32,
    behind: &'a [u8],
) -> Result<(), PutError>
    ensures { Says (S.shown store.old)
        (numbered_line (piece_text name.entry) before.now number behind.now)
        (S.shown store.new) result }
{
    say_all(
        store,
        &[
            LinePart::Text(b"nitpicker: "),
            name,
            LinePart::Text(before),
            LinePart::Number(number as u64),
            LinePart::Text(behind),
        ],
    )
}

/// Says that the configuration of this name is refused, and the kind of its refusal.
fn tell_kind<'a, S: Store>(
    store: &mut S,
    name: LinePart<'a>,
    kind: &'a [u8],
) -> Result<(), PutError>
    ensures { Says (S.shown store.old) (bad_configuration_line (piece_text name.entry) kind.now)
        (S.shown store.new) result }
{
    say_all(
        store,
        &[
            LinePart::Text(b"nitpicker: "),
            name,
            LinePart::Text(b": bad configuration: "),
            LinePart::Text(kind),
            LinePart::Text(b"\n"),
        ],
    )
}

/// The kind of a refusal.
fn kind_text(error: ConfigError) -> &'static [u8]
    ensures { result.now ≡ kind_text error }
{
    match error {
        ConfigError::Syntax => b"syntax",
        ConfigError::Kind => b"kind",
        ConfigError::Missing => b"missing",
        ConfigError::Unknown => b"unknown",
        ConfigError::TooMany => b"too many",
        ConfigError::Range => b"range",
        ConfigError::Label => b"label",
        ConfigError::Twice => b"twice",
        ConfigError::NoMemory => b"no memory",
    }
}

/// Says a line piece by piece, up to a refusal.
fn say_all<S: Store>(store: &mut S, pieces: &[LinePart]) -> Result<(), PutError>
    ensures { Says (S.shown store.old) (flat_map piece_text pieces.now) (S.shown store.new) result }
{
    for part in pieces {
        say_piece(store, part)?;
    }
    Ok(())
}

fn say_piece<S: Store>(store: &mut S, piece: &LinePart) -> Result<(), PutError>
    ensures { Says (S.shown store.old) (piece_text piece.now) (S.shown store.new) result }
{
    match piece {
        LinePart::Text(bytes) => text(store, bytes),
        LinePart::Number(n) => number(store, *n),
        LinePart::ClipsOf(script) => clip_name(store, script),
        LinePart::Put(file) => output_name(store, file),
    }
}

/// Says the name of a file that a run puts.
fn output_name<S: Store>(store: &mut S, file: &Output) -> Result<(), PutError>
    ensures { Says (S.shown store.old) (output_name file.now) (S.shown store.new) result }
{
    let mut name = [0; OUTPUT_NAME_BYTES];
    let end = file.name_into(&mut name);
    text(store, &name[..end])
}

/// Says the name of the clip script of the client with the script of this name.
fn clip_name<S: Store>(store: &mut S, script: &[u8]) -> Result<(), PutError>
    ensures { Says (S.shown store.old) (clip_name script.now) (S.shown store.new) result }
{
    text(store, script)?;
    text(store, b".clip")
}

/// Says a text, which may be empty.
fn text<S: Store>(store: &mut S, bytes: &[u8]) -> Result<(), PutError>
    ensures { Says (S.shown store.old) bytes.now (S.shown store.new) result }
{
    if bytes.is_empty() {
        Ok(())
    } else {
        store.say(bytes)
    }
}

/// Says a number in decimal, digit by digit.
fn number<S: Store>(store: &mut S, n: u64) -> Result<(), PutError>
    ensures { Says (S.shown store.old) (decimal n) (S.shown store.new) result }
{
    if n < 10 {
        return text(store, &[b'0' + n as u8]);
    }
    number(store, n / 10)?;
    text(store, &[b'0' + (n % 10) as u8])
}
