//! The text of the events that a session has taken.

ghost use Rattle.std.specs.Prelude.{◌≡◌, ◌++◌, IfOk, OnOk};
ghost use Rattle.nit_report.specs.Terms.{ending_text, event_spelling, events_text, flat_map};
ghost use Rattle.nit_report.specs.Terms.{spelled, status_spelling, taken};

use crate::spelling::{put_counted, put_event, put_text};
use nit_events::{Call, Entry, Event, Reply, Status};
use nit_rect::NoMemory;
use std::alloc::Global;

/// How a session ended.
#[derive(Clone, Copy, Debug, PartialEq, Eq)]
pub struct Ending {
    /// How many events it lost.
    pub lost: u64,
    /// How many events are still queued, at most 64.
    pub left: u32,
    pub status: Status,
}

/// The text of the events of a session: a line for each event that it took, in order, and then a
/// line each for `lost`, `left` and `state`. It can be refused for want of memory alone.
pub fn events_text(
    alloc: Global,
    entries: &[Entry],
    sid: u32,
    end: &Ending,
) -> Result<Vec<u8>, NoMemory>
    ensures { IfOk result (λ v. v.items ≡ events_text entries.now sid end.now) }
{
    let mut out = Vec::new(alloc);
    for entry in entries {
        put_taken(alloc, &mut out, sid, entry)?;
    }
    put_ending(&mut out, end)?;
    Ok(out)
}

/// Writes the event that the session takes in this entry, where it takes one.
fn put_taken(alloc: Global, out: &mut Vec<u8>, sid: u32, entry: &Entry) -> Result<(), NoMemory>
    ensures { OnOk result (out.new.items
        ≡ out.old.items ++ flat_map (spelled event_spelling) (taken sid entry.now)) }
{
    match *entry {
        Entry::Call {
            sid: caller,
            call: Call::Take,
            reply: Reply::Event(event),
        } if caller == sid => put_line(alloc, out, &event),
        _ => Ok(()),
    }
}

fn put_line(alloc: Global, out: &mut Vec<u8>, event: &Event) -> Result<(), NoMemory>
    ensures { OnOk result (out.new.items ≡ out.old.items ++ spelled event_spelling event.now) }
{
    put_event(alloc, out, event)?;
    put_text(out, b"\n")
}

fn put_ending(out: &mut Vec<u8>, end: &Ending) -> Result<(), NoMemory>
    ensures { OnOk result (out.new.items ≡ out.old.items ++ ending_text end.now) }
{
    put_counted(out, b"lost", end.lost)?;
    put_counted(out, b"\nleft", end.left as u64)?;
    put_text(out, b"\nstate ")?;
    put_status(out, end.status)?;
    put_text(out, b"\n")
}

fn put_status(out: &mut Vec<u8>, status: Status) -> Result<(), NoMemory>
    ensures { OnOk result (out.new.items ≡ out.old.items ++ status_spelling status) }
{
    match status {
        Status::Live => put_text(out, b"live"),
        Status::Closed => put_text(out, b"closed"),
        Status::Killed => put_text(out, b"killed"),
    }
}
