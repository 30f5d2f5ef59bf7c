//! Numbers, events and deliveries in front of bytes, each with what follows it.

ghost use Rattle.std.specs.Prelude.{◌≡◌, Some};
ghost use Rattle.nit_report.specs.Terms.{Gives, delivery_at, event_at, event_told, item_at};
ghost use Rattle.nit_report.specs.Terms.{routed_at, session_field, shot_field};

use nit_events::{Delivery, Device, Event, Item, Routed};
use nit_script::{natural_field, take_byte, take_device, take_word};

/// The highest number of a session.
const MAX_SESSION: u32 = 15;

/// The highest number of a shot.
const MAX_SHOT: u32 = 65_536;

/// A session's number after a space.
pub fn session_field(bytes: &[u8]) -> Option<(u32, &[u8])>
    ensures { Gives (λ x. (x.0, x.1.now)) result (session_field bytes.now) }
{
    let (sid, rest) = natural_field(bytes)?;
    if sid <= MAX_SESSION {
        Some((sid, rest))
    } else {
        None
    }
}

/// A shot's number after a space.
pub fn shot_field(bytes: &[u8]) -> Option<(u32, &[u8])>
    ensures { Gives (λ x. (x.0, x.1.now)) result (shot_field bytes.now) }
{
    let (number, rest) = natural_field(bytes)?;
    if 1 <= number && number <= MAX_SHOT {
        Some((number, rest))
    } else {
        None
    }
}

/// An event.
#[tactic(auto, unfolding(crate::specs::EntryReaders::event_at))]
pub fn take_event(bytes: &[u8]) -> Option<(Event, &[u8])>
    ensures { Gives (λ x. (x.0, x.1.now)) result (event_at bytes.now) }
{
    if let Some((device, rest)) = take_device(bytes) {
        return Some((event_told(device), rest));
    }
    if let Some(rest) = take_word(bytes, b"leave") {
        return Some((Event::Leave, rest));
    }
    if let Some(rest) = take_word(bytes, b"focus-enter") {
        return Some((Event::FocusEnter, rest));
    }
    let rest = take_word(bytes, b"focus-leave")?;
    Some((Event::FocusLeave, rest))
}

/// What a session is told of a device.
fn event_told(device: Device) -> Event
    ensures { result ≡ event_told device }
{
    match device {
        Device::Press(code) => Event::Press(code),
        Device::Release(code) => Event::Release(code),
        Device::Motion(x, y) => Event::Motion(x, y),
        Device::Wheel(turn) => Event::Wheel(turn),
    }
}

#[tactic(auto, unfolding(crate::specs::EntryReaders::item_at, crate::specs::EntryReaders::kill_at))]
fn take_item(bytes: &[u8]) -> Option<(Item, &[u8])>
    ensures { Gives (λ x. (x.0, x.1.now)) result (item_at bytes.now) }
{
    if let Some((event, rest)) = take_event(bytes) {
        return Some((Item::Event(event), rest));
    }
    let rest = take_word(bytes, b"kill")?;
    Some((Item::Kill, rest))
}

#[tactic(auto, unfolding(crate::specs::EntryReaders::delivery_at))]
fn take_delivery(bytes: &[u8]) -> Option<(Delivery, &[u8])>
    ensures { Gives (λ x. (x.0, x.1.now)) result (delivery_at bytes.now) }
{
    let rest = take_word(bytes, b" >")?;
    let (sid, rest) = session_field(rest)?;
    let (item, rest) = take_item(take_byte(rest, b' ')?)?;
    Some((Delivery { sid, item }, rest))
}

/// Up to three deliveries.
#[tactic(auto, unfolding(crate::specs::EntryReaders::routed_at))]
pub fn take_routed(bytes: &[u8]) -> (Routed, &[u8])
    ensures { routed_at bytes.now ≡ Some (result.0, result.1.now) }
{
    let mut routed = Routed {
        a: None,
        b: None,
        c: None,
    };
    let Some((first, rest)) = take_delivery(bytes) else {
        return (routed, bytes);
    };
    routed.a = Some(first);
    let Some((second, behind)) = take_delivery(rest) else {
        return (routed, rest);
    };
    routed.b = Some(second);
    let Some((third, end)) = take_delivery(behind) else {
        return (routed, behind);
    };
    routed.c = Some(third);
    (routed, end)
}
