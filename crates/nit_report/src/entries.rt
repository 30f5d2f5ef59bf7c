//! An entry's line in front of bytes, and what follows it.

ghost use Rattle.nit_report.specs.Terms.{Gives, answered_at, behind_reply_at, entry_at};
ghost use Rattle.nit_report.specs.Terms.{entry_front_at, final_at, input_entry_at, shot_entry_at};

use crate::reading::{session_field, shot_field, take_routed};
use crate::replies::take_reply;
use nit_events::{Call, Entry};
use nit_script::{take_byte, take_call, take_device, take_word};

/// An entry's line with its line feed.
#[tactic(auto, unfolding(crate::specs::EntryReaders::entry_at))]
pub fn take_entry(bytes: &[u8]) -> Option<(Entry, &[u8])>
    ensures { Gives (λ x. (x.0, x.1.now)) result (entry_at bytes.now) }
{
    let Some((entry, rest)) = take_front(bytes) else {
        return None;
    };
    Some((entry, take_byte(rest, b'\n')?))
}

/// An entry's line up to its line feed.
#[tactic(auto, unfolding(crate::specs::EntryReaders::entry_front_at))]
fn take_front(bytes: &[u8]) -> Option<(Entry, &[u8])>
    ensures { Gives (λ x. (x.0, x.1.now)) result (entry_front_at bytes.now) }
{
    if let Some(found) = answered(bytes) {
        return Some(found);
    }
    if let Some(found) = input(bytes) {
        return Some(found);
    }
    if let Some(found) = shot(bytes) {
        return Some(found);
    }
    last(bytes)
}

/// A call and its reply.
#[tactic(auto, unfolding(crate::specs::EntryReaders::answered_at))]
fn answered(bytes: &[u8]) -> Option<(Entry, &[u8])>
    ensures { Gives (λ x. (x.0, x.1.now)) result (answered_at bytes.now) }
{
    let rest = take_word(bytes, b"call")?;
    let (sid, rest) = session_field(rest)?;
    let (reply, rest) = take_reply(take_byte(rest, b' ')?)?;
    let Some((call, rest)) = behind_reply(rest) else {
        return None;
    };
    Some((Entry::Call { sid, call, reply }, rest))
}

/// The call after its reply.
#[tactic(auto, unfolding(crate::specs::EntryReaders::behind_reply_at))]
fn behind_reply(bytes: &[u8]) -> Option<(Call, &[u8])>
    ensures { Gives (λ x. (x.0, x.1.now)) result (behind_reply_at bytes.now) }
{
    take_call(take_word(bytes, b" < ")?)
}

/// What the user does, with the deliveries.
#[tactic(auto, unfolding(crate::specs::EntryReaders::input_entry_at))]
fn input(bytes: &[u8]) -> Option<(Entry, &[u8])>
    ensures { Gives (λ x. (x.0, x.1.now)) result (input_entry_at bytes.now) }
{
    let rest = take_word(bytes, b"input ")?;
    let (dev, rest) = take_device(rest)?;
    let (routed, rest) = take_routed(rest);
    Some((Entry::Input { dev, routed }, rest))
}

#[tactic(auto, unfolding(crate::specs::EntryReaders::shot_entry_at))]
fn shot(bytes: &[u8]) -> Option<(Entry, &[u8])>
    ensures { Gives (λ x. (x.0, x.1.now)) result (shot_entry_at bytes.now) }
{
    let rest = take_word(bytes, b"shot")?;
    let (number, rest) = shot_field(rest)?;
    Some((Entry::Shot { number }, rest))
}

#[tactic(auto, unfolding(crate::specs::EntryReaders::final_at))]
fn last(bytes: &[u8]) -> Option<(Entry, &[u8])>
    ensures { Gives (λ x. (x.0, x.1.now)) result (final_at bytes.now) }
{
    let rest = take_word(bytes, b"final")?;
    Some((Entry::Final, rest))
}
