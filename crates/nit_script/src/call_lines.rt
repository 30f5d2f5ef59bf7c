//! The calls of a client's script, each read from its first word to its last.

ghost use Rattle.nit_script.specs.Terms.{Gives, above_at, back_at, buffer_at, call_at, close_at};
ghost use Rattle.nit_script.specs.Terms.{destroy_at, front_at, offset_at, place_call_at};
ghost use Rattle.nit_script.specs.Terms.{refresh_at, session_call_at, title_at, upgrade_at};
ghost use Rattle.nit_script.specs.Terms.{view_at, view_call_at};
ghost use Rattle.nit_script.specs.CallReaders.{take_at};

use crate::bytes::take_word;
use crate::fields::{integer_field, natural_field, text_field};
use nit_events::Call;

/// The call in front, and what follows it.
#[tactic(auto, unfolding(crate::specs::CallReaders::call_at))]
pub fn take_call(bytes: &[u8]) -> Option<(Call, &[u8])>
    ensures { Gives (λ x. (x.0, x.1.now)) result (call_at bytes.now) }
{
    if let Some(found) = take_session_call(bytes) {
        return Some(found);
    }
    take_view_call(bytes)
}

/// A call that names no view.
#[tactic(auto, unfolding(crate::specs::CallReaders::session_call_at))]
fn take_session_call(bytes: &[u8]) -> Option<(Call, &[u8])>
    ensures { Gives (λ x. (x.0, x.1.now)) result (session_call_at bytes.now) }
{
    if let Some(found) = buffer(bytes) {
        return Some(found);
    }
    if let Some(found) = view(bytes) {
        return Some(found);
    }
    if let Some(found) = refresh(bytes) {
        return Some(found);
    }
    if let Some(found) = take(bytes) {
        return Some(found);
    }
    if let Some(found) = upgrade(bytes) {
        return Some(found);
    }
    close(bytes)
}

/// A call that names a view.
#[tactic(auto, unfolding(crate::specs::CallReaders::view_call_at))]
fn take_view_call(bytes: &[u8]) -> Option<(Call, &[u8])>
    ensures { Gives (λ x. (x.0, x.1.now)) result (view_call_at bytes.now) }
{
    if let Some(found) = place(bytes) {
        return Some(found);
    }
    if let Some(found) = offset(bytes) {
        return Some(found);
    }
    if let Some(found) = front(bytes) {
        return Some(found);
    }
    if let Some(found) = back(bytes) {
        return Some(found);
    }
    if let Some(found) = above(bytes) {
        return Some(found);
    }
    if let Some(found) = title(bytes) {
        return Some(found);
    }
    destroy(bytes)
}

#[tactic(auto, unfolding(crate::specs::CallReaders::buffer_at))]
fn buffer(bytes: &[u8]) -> Option<(Call, &[u8])>
    ensures { Gives (λ x. (x.0, x.1.now)) result (buffer_at bytes.now) }
{
    let rest = take_word(bytes, b"buffer")?;
    let (w, rest) = natural_field(rest)?;
    let (h, rest) = natural_field(rest)?;
    Some((Call::Buffer(w, h), rest))
}

#[tactic(auto, unfolding(crate::specs::CallReaders::view_at))]
fn view(bytes: &[u8]) -> Option<(Call, &[u8])>
    ensures { Gives (λ x. (x.0, x.1.now)) result (view_at bytes.now) }
{
    let rest = take_word(bytes, b"view")?;
    Some((Call::View, rest))
}

#[tactic(auto, unfolding(crate::specs::CallReaders::refresh_at))]
fn refresh(bytes: &[u8]) -> Option<(Call, &[u8])>
    ensures { Gives (λ x. (x.0, x.1.now)) result (refresh_at bytes.now) }
{
    let rest = take_word(bytes, b"refresh")?;
    let (x, rest) = integer_field(rest)?;
    let (y, rest) = integer_field(rest)?;
    let (w, rest) = natural_field(rest)?;
    let (h, rest) = natural_field(rest)?;
    Some((Call::Refresh(x, y, w, h), rest))
}

#[tactic(auto, unfolding(crate::specs::CallReaders::take_at))]
fn take(bytes: &[u8]) -> Option<(Call, &[u8])>
    ensures { Gives (λ x. (x.0, x.1.now)) result (take_at bytes.now) }
{
    let rest = take_word(bytes, b"take")?;
    Some((Call::Take, rest))
}

#[tactic(auto, unfolding(crate::specs::CallReaders::upgrade_at))]
fn upgrade(bytes: &[u8]) -> Option<(Call, &[u8])>
    ensures { Gives (λ x. (x.0, x.1.now)) result (upgrade_at bytes.now) }
{
    let rest = take_word(bytes, b"upgrade")?;
    let (units, rest) = natural_field(rest)?;
    Some((Call::Upgrade(units), rest))
}

#[tactic(auto, unfolding(crate::specs::CallReaders::close_at))]
fn close(bytes: &[u8]) -> Option<(Call, &[u8])>
    ensures { Gives (λ x. (x.0, x.1.now)) result (close_at bytes.now) }
{
    let rest = take_word(bytes, b"close")?;
    Some((Call::Close, rest))
}

#[tactic(auto, unfolding(crate::specs::CallReaders::place_call_at))]
fn place(bytes: &[u8]) -> Option<(Call, &[u8])>
    ensures { Gives (λ x. (x.0, x.1.now)) result (place_call_at bytes.now) }
{
    let rest = take_word(bytes, b"place")?;
    let (view, rest) = natural_field(rest)?;
    let (x, rest) = integer_field(rest)?;
    let (y, rest) = integer_field(rest)?;
    let (w, rest) = natural_field(rest)?;
    let (h, rest) = natural_field(rest)?;
    Some((Call::Place(view, x, y, w, h), rest))
}

#[tactic(auto, unfolding(crate::specs::CallReaders::offset_at))]
fn offset(bytes: &[u8]) -> Option<(Call, &[u8])>
    ensures { Gives (λ x. (x.0, x.1.now)) result (offset_at bytes.now) }
{
    let rest = take_word(bytes, b"offset")?;
    let (view, rest) = natural_field(rest)?;
    let (x, rest) = integer_field(rest)?;
    let (y, rest) = integer_field(rest)?;
    Some((Call::Offset(view, x, y), rest))
}

#[tactic(auto, unfolding(crate::specs::CallReaders::front_at))]
fn front(bytes: &[u8]) -> Option<(Call, &[u8])>
    ensures { Gives (λ x. (x.0, x.1.now)) result (front_at bytes.now) }
{
    let rest = take_word(bytes, b"front")?;
    let (view, rest) = natural_field(rest)?;
    Some((Call::Front(view), rest))
}

#[tactic(auto, unfolding(crate::specs::CallReaders::back_at))]
fn back(bytes: &[u8]) -> Option<(Call, &[u8])>
    ensures { Gives (λ x. (x.0, x.1.now)) result (back_at bytes.now) }
{
    let rest = take_word(bytes, b"back")?;
    let (view, rest) = natural_field(rest)?;
    Some((Call::Back(view), rest))
}

#[tactic(auto, unfolding(crate::specs::CallReaders::above_at))]
fn above(bytes: &[u8]) -> Option<(Call, &[u8])>
    ensures { Gives (λ x. (x.0, x.1.now)) result (above_at bytes.now) }
{
    let rest = take_word(bytes, b"above")?;
    let (view, rest) = natural_field(rest)?;
    let (other, rest) = natural_field(rest)?;
    Some((Call::Above(view, other), rest))
}

#[tactic(auto, unfolding(crate::specs::CallReaders::title_at))]
fn title(bytes: &[u8]) -> Option<(Call, &[u8])>
    ensures { Gives (λ x. (x.0, x.1.now)) result (title_at bytes.now) }
{
    let rest = take_word(bytes, b"title")?;
    let (view, rest) = natural_field(rest)?;
    let Some((text, rest)) = text_field(rest) else {
        return None;
    };
    Some((Call::Title(view, text), rest))
}

#[tactic(auto, unfolding(crate::specs::CallReaders::destroy_at))]
fn destroy(bytes: &[u8]) -> Option<(Call, &[u8])>
    ensures { Gives (λ x. (x.0, x.1.now)) result (destroy_at bytes.now) }
{
    let rest = take_word(bytes, b"destroy")?;
    let (view, rest) = natural_field(rest)?;
    Some((Call::Destroy(view), rest))
}
