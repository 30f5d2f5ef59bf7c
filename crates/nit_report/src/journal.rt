//! The text of a journal.

ghost use Rattle.std.specs.Prelude.{◌≡◌, ◌++◌, IfOk, OnOk};
ghost use Rattle.nit_report.specs.Terms.{AllByRecursion, FitsEntry, ReadsJournal, deliveries_of};
ghost use Rattle.nit_report.specs.Terms.{delivery, delivery_spelling, entry_spelling, flat_map};
ghost use Rattle.nit_report.specs.Terms.{journal_text};
ghost use Rattle.nit_events.specs.declared.entry.Entry.TheVariants as entry;

use crate::spelling::{put_counted, put_delivery, put_reply, put_text};
use nit_events::{Call, Delivery, Device, Entry, Reply, Routed};
use nit_rect::NoMemory;
use nit_script::{put_call, put_device};
use std::alloc::Global;

/// The text of a journal, a line for each entry. It can be refused for want of memory alone.
/// Entries that are within the format are read back from it: sessions 0..=15, codes 0..=767, turns
/// -127..=127, shots 1..=65536, other numbers below 1,000,000,000, and deliveries without a gap.
pub fn journal_text(alloc: Global, entries: &[Entry]) -> Result<Vec<u8>, NoMemory>
    ensures text { IfOk result (λ v. v.items ≡ journal_text entries.now) }
    ensures reads { AllByRecursion FitsEntry entries.now
        → IfOk result (λ v. ReadsJournal v.items entries.now) }
{
    let mut out = Vec::new(alloc);
    for entry in entries {
        put_entry(alloc, &mut out, entry)?;
        out.push(b'\n')?;
    }
    Ok(out)
}

fn put_entry(alloc: Global, out: &mut Vec<u8>, entry: &Entry) -> Result<(), NoMemory>
    ensures { OnOk result (out.new.items ≡ out.old.items ++ entry_spelling entry.now) }
{
    match entry {
        Entry::Call { sid, call, reply } => put_answered(alloc, out, *sid, call, reply),
        Entry::Input { dev, routed } => put_routed(alloc, out, dev, routed),
        Entry::Shot { number } => put_counted(out, b"shot", *number as u64),
        Entry::Final => put_text(out, b"final"),
    }
}

/// Writes the entry of a call.
fn put_answered(
    alloc: Global,
    out: &mut Vec<u8>,
    sid: u32,
    call: &Call,
    reply: &Reply,
) -> Result<(), NoMemory>
    ensures { OnOk result
        (out.new.items ≡ out.old.items ++ entry_spelling (entry.Call sid call.now reply.now)) }
{
    put_counted(out, b"call", sid as u64)?;
    put_text(out, b" ")?;
    put_reply(alloc, out, reply)?;
    put_text(out, b" < ")?;
    put_call(alloc, out, call)
}

/// Writes the entry of what the user does.
fn put_routed(
    alloc: Global,
    out: &mut Vec<u8>,
    device: &Device,
    routed: &Routed,
) -> Result<(), NoMemory>
    ensures { OnOk result
        (out.new.items ≡ out.old.items ++ entry_spelling (entry.Input device.now routed.now)) }
{
    put_text(out, b"input ")?;
    put_device(alloc, out, device)?;
    put_deliveries(alloc, out, routed)
}

fn put_deliveries(alloc: Global, out: &mut Vec<u8>, routed: &Routed) -> Result<(), NoMemory>
    ensures { OnOk result
        (out.new.items ≡ out.old.items ++ flat_map delivery_spelling (deliveries_of routed.now)) }
{
    put_if_any(alloc, out, &routed.a)?;
    put_if_any(alloc, out, &routed.b)?;
    put_if_any(alloc, out, &routed.c)
}

fn put_if_any(alloc: Global, out: &mut Vec<u8>, place: &Option<Delivery>) -> Result<(), NoMemory>
    ensures { OnOk result
        (out.new.items ≡ out.old.items ++ flat_map delivery_spelling (delivery place.now)) }
{
    match place {
        Some(delivery) => put_delivery(alloc, out, delivery),
        None => Ok(()),
    }
}
