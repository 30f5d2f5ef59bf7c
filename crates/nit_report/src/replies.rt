//! Replies in front of bytes, each with what follows it.

ghost use Rattle.nit_report.specs.Terms.{Gives, bad_at, done_at, event_reply_at, handle_at};
ghost use Rattle.nit_report.specs.Terms.{holding_at, no_view_at, quota_at, reply_at, reserve_at};

use crate::reading::take_event;
use nit_events::Reply;
use nit_script::{natural_field, take_byte, take_word};

/// Any reply.
#[tactic(auto, unfolding(crate::specs::EntryReaders::reply_at))]
pub fn take_reply(bytes: &[u8]) -> Option<(Reply, &[u8])>
    ensures { Gives (λ x. (x.0, x.1.now)) result (reply_at bytes.now) }
{
    if let Some(found) = done(bytes) {
        return Some(found);
    }
    if let Some(found) = bad(bytes) {
        return Some(found);
    }
    holding(bytes)
}

/// A call was done, or nothing is queued, or the session is not served.
#[tactic(auto, unfolding(crate::specs::EntryReaders::done_at))]
fn done(bytes: &[u8]) -> Option<(Reply, &[u8])>
    ensures { Gives (λ x. (x.0, x.1.now)) result (done_at bytes.now) }
{
    if let Some(rest) = take_word(bytes, b"done") {
        return Some((Reply::Done, rest));
    }
    if let Some(rest) = take_word(bytes, b"no-event") {
        return Some((Reply::NoEvent, rest));
    }
    if let Some(rest) = take_word(bytes, b"closed") {
        return Some((Reply::Closed, rest));
    }
    let rest = take_word(bytes, b"killed")?;
    Some((Reply::Killed, rest))
}

/// What was asked for is out of range.
#[tactic(auto, unfolding(crate::specs::EntryReaders::bad_at))]
fn bad(bytes: &[u8]) -> Option<(Reply, &[u8])>
    ensures { Gives (λ x. (x.0, x.1.now)) result (bad_at bytes.now) }
{
    if let Some(rest) = take_word(bytes, b"bad-rect") {
        return Some((Reply::BadRect, rest));
    }
    if let Some(rest) = take_word(bytes, b"bad-size") {
        return Some((Reply::BadSize, rest));
    }
    if let Some(rest) = take_word(bytes, b"bad-title") {
        return Some((Reply::BadTitle, rest));
    }
    let rest = take_word(bytes, b"too-many-views")?;
    Some((Reply::TooManyViews, rest))
}

/// A reply with an event or with numbers.
#[tactic(auto, unfolding(crate::specs::EntryReaders::holding_at))]
fn holding(bytes: &[u8]) -> Option<(Reply, &[u8])>
    ensures { Gives (λ x. (x.0, x.1.now)) result (holding_at bytes.now) }
{
    if let Some(found) = taken(bytes) {
        return Some(found);
    }
    if let Some(found) = handle(bytes) {
        return Some(found);
    }
    if let Some(found) = no_view(bytes) {
        return Some(found);
    }
    if let Some(found) = quota(bytes) {
        return Some(found);
    }
    reserve(bytes)
}

#[tactic(auto, unfolding(crate::specs::EntryReaders::event_reply_at))]
fn taken(bytes: &[u8]) -> Option<(Reply, &[u8])>
    ensures { Gives (λ x. (x.0, x.1.now)) result (event_reply_at bytes.now) }
{
    let rest = take_word(bytes, b"event")?;
    let (event, rest) = take_event(take_byte(rest, b' ')?)?;
    Some((Reply::Event(event), rest))
}

#[tactic(auto, unfolding(crate::specs::EntryReaders::handle_at))]
fn handle(bytes: &[u8]) -> Option<(Reply, &[u8])>
    ensures { Gives (λ x. (x.0, x.1.now)) result (handle_at bytes.now) }
{
    let rest = take_word(bytes, b"handle")?;
    let (view, rest) = natural_field(rest)?;
    Some((Reply::Handle(view), rest))
}

#[tactic(auto, unfolding(crate::specs::EntryReaders::no_view_at))]
fn no_view(bytes: &[u8]) -> Option<(Reply, &[u8])>
    ensures { Gives (λ x. (x.0, x.1.now)) result (no_view_at bytes.now) }
{
    let rest = take_word(bytes, b"no-such-view")?;
    let (view, rest) = natural_field(rest)?;
    Some((Reply::NoSuchView(view), rest))
}

#[tactic(auto, unfolding(crate::specs::EntryReaders::quota_at))]
fn quota(bytes: &[u8]) -> Option<(Reply, &[u8])>
    ensures { Gives (λ x. (x.0, x.1.now)) result (quota_at bytes.now) }
{
    let rest = take_word(bytes, b"out-of-quota")?;
    let (need, rest) = natural_field(rest)?;
    let (left, rest) = natural_field(rest)?;
    let (need, left) = (need as u64, left as u64);
    Some((Reply::OutOfQuota { need, left }, rest))
}

#[tactic(auto, unfolding(crate::specs::EntryReaders::reserve_at))]
fn reserve(bytes: &[u8]) -> Option<(Reply, &[u8])>
    ensures { Gives (λ x. (x.0, x.1.now)) result (reserve_at bytes.now) }
{
    let rest = take_word(bytes, b"no-reserve")?;
    let (need, rest) = natural_field(rest)?;
    let (left, rest) = natural_field(rest)?;
    let (need, left) = (need as u64, left as u64);
    Some((Reply::NoReserve { need, left }, rest))
}
