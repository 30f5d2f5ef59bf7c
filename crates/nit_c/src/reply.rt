//! Replies and events as C reads them.

ghost use Rattle.std.specs.Prelude.{◌≡◌};
ghost use Rattle.nit_c.specs.Terms.{c_answer, c_event, c_reply, no_event, only_kind};

use crate::numbers;
use crate::numbers::{
    BAD_RECT, BAD_SIZE, BAD_TITLE, DONE, FOCUS_ENTER, FOCUS_LEAVE, HANDLE, LEAVE, MOTION, NO_EVENT,
    NO_RESERVE, NO_SUCH_VIEW, NOTHING, OUT_OF_QUOTA, PRESS, RELEASE, SESSION_CLOSED,
    SESSION_KILLED, TOO_MANY_VIEWS, WHEEL, unserved_number,
};
use nit_events::{Event, Reply};
use nit_host::Unserved;

/// What a client is told, or what becomes of it. `kind` is 1 to 7 in the order of
/// `nit_events::Event`, 8 where the client is locked out, and 0 where there is nothing. A field
/// that the kind does not name is 0.
#[repr(C)]
#[derive(Clone, Copy)]
pub struct NitEvent {
    /// 0..=8.
    pub kind: u32,
    /// A key's or a button's code, 0..=767.
    pub code: u32,
    /// A column of the screen.
    pub x: u16,
    /// A row of the screen.
    pub y: u16,
    /// What the wheel turned by, -127..=127.
    pub turn: i32,
}

/// The answer to a client's call. `kind` is 1 to 13 in the order of `nit_events::Reply`, and the
/// number of the refusal where the call was not served. A field that the kind does not name is 0.
#[repr(C)]
#[derive(Clone, Copy)]
pub struct NitReply {
    /// The kind of the answer.
    pub kind: u32,
    /// The handle of a view, from 1.
    pub handle: u32,
    /// The event that was taken.
    pub event: NitEvent,
    /// How many units the call needs.
    pub need: u64,
    /// How many units are left.
    pub left: u64,
}

/// An event that is none.
pub(crate) const EMPTY: NitEvent = NitEvent {
    kind: NOTHING,
    code: 0,
    x: 0,
    y: 0,
    turn: 0,
};

/// An answer that is its kind alone.
pub(crate) fn only_kind(kind: u32) -> NitReply
    ensures { result ≡ only_kind kind }
{
    NitReply {
        kind,
        handle: 0,
        event: EMPTY,
        need: 0,
        left: 0,
    }
}

/// An event that is its kind and a code.
fn of_code(kind: u32, code: u16) -> NitEvent
    ensures { result ≡ record no_event { kind = kind; code = code } }
{
    NitEvent {
        kind,
        code: u32::from(code),
        ..EMPTY
    }
}

/// An event as C reads it.
pub(crate) fn event_of(event: &Event) -> NitEvent
    ensures { result ≡ c_event event.now }
{
    match *event {
        Event::Press(code) => of_code(PRESS, code),
        Event::Release(code) => of_code(RELEASE, code),
        Event::Motion(x, y) => NitEvent {
            kind: MOTION,
            x,
            y,
            ..EMPTY
        },
        Event::Wheel(turn) => NitEvent {
            kind: WHEEL,
            turn: i32::from(turn),
            ..EMPTY
        },
        Event::Leave => of_code(LEAVE, 0),
        Event::FocusEnter => of_code(FOCUS_ENTER, 0),
        Event::FocusLeave => of_code(FOCUS_LEAVE, 0),
    }
}

/// A reply as C reads it.
fn reply_of(reply: &Reply) -> NitReply
    ensures { result ≡ c_reply reply.now }
{
    match *reply {
        Reply::Done => only_kind(DONE),
        Reply::Handle(handle) => NitReply {
            handle,
            ..only_kind(HANDLE)
        },
        Reply::Event(event) => NitReply {
            event: event_of(&event),
            ..only_kind(numbers::EVENT)
        },
        Reply::NoEvent => only_kind(NO_EVENT),
        Reply::NoSuchView(handle) => NitReply {
            handle,
            ..only_kind(NO_SUCH_VIEW)
        },
        Reply::BadRect => only_kind(BAD_RECT),
        Reply::BadSize => only_kind(BAD_SIZE),
        Reply::BadTitle => only_kind(BAD_TITLE),
        Reply::TooManyViews => only_kind(TOO_MANY_VIEWS),
        Reply::OutOfQuota { need, left } => NitReply {
            need,
            left,
            ..only_kind(OUT_OF_QUOTA)
        },
        Reply::NoReserve { need, left } => NitReply {
            need,
            left,
            ..only_kind(NO_RESERVE)
        },
        Reply::Closed => only_kind(SESSION_CLOSED),
        Reply::Killed => only_kind(SESSION_KILLED),
    }
}

/// What a host answers to a call, as C reads it.
pub(crate) fn answer_of(answer: &Result<Reply, Unserved>) -> NitReply
    ensures { result ≡ c_answer answer.now }
{
    match answer {
        Ok(reply) => reply_of(reply),
        Err(why) => only_kind(unserved_number(*why)),
    }
}
