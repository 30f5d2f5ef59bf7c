//! Words of a report at the end of bytes.

ghost use Rattle.std.specs.Prelude.{◌≡◌, ◌++◌, OnOk};
ghost use Rattle.nit_report.specs.Terms.{decimal, delivery_spelling, event_spelling, flat_map};
ghost use Rattle.nit_report.specs.Terms.{item_spelling, nat, reply_spelling};
ghost use Rattle.nit_events.specs.declared.call.Reply.TheVariants as reply;

use nit_events::{Delivery, Device, Event, Item, Reply};
use nit_rect::NoMemory;
use nit_script::put_device;
use std::alloc::Global;

/// Writes bytes.
pub fn put_text(out: &mut Vec<u8>, text: &[u8]) -> Result<(), NoMemory>
    ensures { OnOk result (out.new.items ≡ out.old.items ++ text.now) }
{
    out.extend_from_slice(text)?;
    Ok(())
}

/// Writes a number in decimal.
fn put_decimal(out: &mut Vec<u8>, number: u64) -> Result<(), NoMemory>
    ensures { OnOk result (out.new.items ≡ out.old.items ++ decimal number) }
{
    if number < 10 {
        out.push(b'0' + number as u8)?;
        return Ok(());
    }
    put_decimal(out, number / 10)?;
    out.push(b'0' + (number % 10) as u8)?;
    Ok(())
}

/// Writes a number with a space before it.
pub fn put_number(out: &mut Vec<u8>, number: u64) -> Result<(), NoMemory>
    ensures { OnOk result (out.new.items ≡ out.old.items ++ nat number) }
{
    put_text(out, b" ")?;
    put_decimal(out, number)
}

/// Writes a word and one number.
pub fn put_counted(out: &mut Vec<u8>, word: &[u8], number: u64) -> Result<(), NoMemory>
    ensures { OnOk result (out.new.items ≡ out.old.items ++ (word.now ++ nat number)) }
{
    put_text(out, word)?;
    put_number(out, number)
}

/// Writes a word, what is needed and what is left.
fn put_refused(out: &mut Vec<u8>, word: &[u8], need: u64, left: u64) -> Result<(), NoMemory>
    ensures { OnOk result (out.new.items ≡ out.old.items ++ (word.now ++ (nat need ++ nat left))) }
{
    put_counted(out, word, need)?;
    put_number(out, left)
}

/// Writes an event.
pub fn put_event(alloc: Global, out: &mut Vec<u8>, event: &Event) -> Result<(), NoMemory>
    ensures { OnOk result (out.new.items ≡ out.old.items ++ event_spelling event.now) }
{
    match *event {
        Event::Press(code) => put_device(alloc, out, &Device::Press(code)),
        Event::Release(code) => put_device(alloc, out, &Device::Release(code)),
        Event::Motion(x, y) => put_device(alloc, out, &Device::Motion(x, y)),
        Event::Wheel(turn) => put_device(alloc, out, &Device::Wheel(turn)),
        Event::Leave => put_text(out, b"leave"),
        Event::FocusEnter => put_text(out, b"focus-enter"),
        Event::FocusLeave => put_text(out, b"focus-leave"),
    }
}

fn put_item(alloc: Global, out: &mut Vec<u8>, item: &Item) -> Result<(), NoMemory>
    ensures { OnOk result (out.new.items ≡ out.old.items ++ item_spelling item.now) }
{
    match item {
        Item::Event(event) => put_event(alloc, out, event),
        Item::Kill => put_text(out, b"kill"),
    }
}

/// Writes a delivery, with what parts it from what stands before it.
pub fn put_delivery(alloc: Global, out: &mut Vec<u8>, delivery: &Delivery) -> Result<(), NoMemory>
    ensures { OnOk result (out.new.items ≡ out.old.items ++ delivery_spelling delivery.now) }
{
    put_counted(out, b" >", delivery.sid as u64)?;
    put_text(out, b" ")?;
    put_item(alloc, out, &delivery.item)
}

/// Writes a reply.
pub fn put_reply(alloc: Global, out: &mut Vec<u8>, reply: &Reply) -> Result<(), NoMemory>
    ensures { OnOk result (out.new.items ≡ out.old.items ++ reply_spelling reply.now) }
{
    match *reply {
        Reply::Done => put_text(out, b"done"),
        Reply::Handle(view) => put_counted(out, b"handle", view as u64),
        Reply::Event(event) => put_taken(alloc, out, &event),
        Reply::NoEvent => put_text(out, b"no-event"),
        Reply::NoSuchView(view) => put_counted(out, b"no-such-view", view as u64),
        Reply::BadRect => put_text(out, b"bad-rect"),
        Reply::BadSize => put_text(out, b"bad-size"),
        Reply::BadTitle => put_text(out, b"bad-title"),
        Reply::TooManyViews => put_text(out, b"too-many-views"),
        Reply::OutOfQuota { need, left } => put_refused(out, b"out-of-quota", need, left),
        Reply::NoReserve { need, left } => put_refused(out, b"no-reserve", need, left),
        Reply::Closed => put_text(out, b"closed"),
        Reply::Killed => put_text(out, b"killed"),
    }
}

/// Writes the reply that has an event.
fn put_taken(alloc: Global, out: &mut Vec<u8>, event: &Event) -> Result<(), NoMemory>
    ensures { OnOk result
        (out.new.items ≡ out.old.items ++ reply_spelling (reply.Event event.now)) }
{
    put_text(out, b"event ")?;
    put_event(alloc, out, event)
}
