//! The numbers by which C is told what a call answers.

ghost use Rattle.std.specs.Prelude.{◌≡◌};
ghost use Rattle.nit_c.specs.Terms.{config_number, mode_number, number_or_none, status_number};
ghost use Rattle.nit_c.specs.Terms.{unseated_number, unserved_number};

use nit_config::ConfigError;
use nit_events::{Mode, Status};
use nit_host::{Unseated, Unserved};

/// The handle has no server.
pub(crate) const NO_SERVER: u32 = 0;

/// It is done.
pub(crate) const DONE: u32 = 1;

// Replies of a session.

/// A new view.
pub(crate) const HANDLE: u32 = 2;

/// An event was taken.
pub(crate) const EVENT: u32 = 3;

/// No event waits.
pub(crate) const NO_EVENT: u32 = 4;

/// The client has no such view.
pub(crate) const NO_SUCH_VIEW: u32 = 5;

/// A number of a rectangle or an offset is out of range.
pub(crate) const BAD_RECT: u32 = 6;

/// A side of a buffer is out of range.
pub(crate) const BAD_SIZE: u32 = 7;

/// The text is no title.
pub(crate) const BAD_TITLE: u32 = 8;

/// The client has all views that it may have.
pub(crate) const TOO_MANY_VIEWS: u32 = 9;

/// Too little is left of the donation.
pub(crate) const OUT_OF_QUOTA: u32 = 10;

/// Too little is left of the reserve.
pub(crate) const NO_RESERVE: u32 = 11;

/// The client has left.
pub(crate) const SESSION_CLOSED: u32 = 12;

/// The user has locked the client out.
pub(crate) const SESSION_KILLED: u32 = 13;

// What is not served.

/// The server has no seat of this number.
pub(crate) const NO_SEAT: u32 = 32;

/// A client sits there.
pub(crate) const SEAT_TAKEN: u32 = 33;

/// Another seat has the label, or had it last.
pub(crate) const LABEL_TAKEN: u32 = 34;

/// The bytes are no label.
pub(crate) const BAD_LABEL: u32 = 35;

/// The bytes are no text.
pub(crate) const BAD_TEXT: u32 = 36;

/// A number of a device event is out of range.
pub(crate) const BAD_DEVICE: u32 = 37;

/// There are fewer words than the client's buffer has.
pub(crate) const SHORT_WORDS: u32 = 38;

/// The words of a frame are not as many as the screen has pixels.
pub(crate) const WRONG_FRAME: u32 = 39;

/// The client has made all views that it ever may.
pub(crate) const HANDLES_USED_UP: u32 = 40;

/// The server has served all entries that it will ever serve.
pub(crate) const WORN_OUT: u32 = 41;

/// Memory ran out.
pub(crate) const NO_MEMORY: u32 = 42;

/// The handle has a server.
pub(crate) const IS_OPEN: u32 = 43;

/// A number of a plan is out of range.
pub(crate) const BAD_PLAN: u32 = 44;

/// The client under the pointer is not the one that the last look showed there.
pub(crate) const MOVED: u32 = 45;

/// The seat has another client.
pub(crate) const OTHER_CLIENT: u32 = 46;

/// No seat of the layer is free.
pub(crate) const NO_FREE_SEAT: u32 = 47;

// Refusals of the text of a configuration.

/// It is too long.
pub(crate) const CONFIG_TOO_LONG: u32 = 64;

/// It is no TOML.
pub(crate) const CONFIG_SYNTAX: u32 = 65;

/// A value is of another kind.
pub(crate) const CONFIG_KIND: u32 = 66;

/// A required key is not there, or there is no client.
pub(crate) const CONFIG_MISSING: u32 = 67;

/// There is a key that is none of a configuration.
pub(crate) const CONFIG_UNKNOWN: u32 = 68;

/// There are too many clients.
pub(crate) const CONFIG_TOO_MANY: u32 = 69;

/// A number, a name or a word is out of range.
pub(crate) const CONFIG_RANGE: u32 = 70;

/// A label is none.
pub(crate) const CONFIG_LABEL: u32 = 71;

/// Two clients have the same label.
pub(crate) const CONFIG_TWICE: u32 = 72;

// Kinds of what a client is told, or what becomes of it.

/// Nothing.
pub(crate) const NOTHING: u32 = 0;

/// A key or a button goes down.
pub(crate) const PRESS: u32 = 1;

/// It goes up.
pub(crate) const RELEASE: u32 = 2;

/// The pointer moves.
pub(crate) const MOTION: u32 = 3;

/// The wheel turns.
pub(crate) const WHEEL: u32 = 4;

/// The pointer is another's.
pub(crate) const LEAVE: u32 = 5;

/// The client has the focus.
pub(crate) const FOCUS_ENTER: u32 = 6;

/// It has lost the focus.
pub(crate) const FOCUS_LEAVE: u32 = 7;

/// It is locked out.
pub(crate) const KILL: u32 = 8;

// Modes.

/// Flat.
pub(crate) const MODE_FLAT: u32 = 0;

/// X-ray.
pub(crate) const MODE_XRAY: u32 = 1;

/// Kill.
pub(crate) const MODE_KILL: u32 = 2;

// States of a seat.

/// There is no such seat.
pub(crate) const SEAT_NONE: u32 = 0;

/// A client sits there.
pub(crate) const SEAT_LIVE: u32 = 1;

/// It was never taken, or the last client left.
pub(crate) const SEAT_CLOSED: u32 = 2;

/// The last client was locked out.
pub(crate) const SEAT_KILLED: u32 = 3;

/// The number of no seat.
const NONE: u32 = u32::MAX;

/// A number, or that of none.
pub(crate) fn number_or_none(number: Option<u32>) -> u32
    ensures { result ≡ number_or_none number }
{
    match number {
        Some(number) => number,
        None => NONE,
    }
}

/// Why a call is not served.
pub(crate) fn unserved_number(why: Unserved) -> u32
    ensures { result ≡ unserved_number why }
{
    match why {
        Unserved::NoSeat => NO_SEAT,
        Unserved::OtherClient => OTHER_CLIENT,
        Unserved::NoView => NO_SUCH_VIEW,
        Unserved::BadDevice => BAD_DEVICE,
        Unserved::ShortWords => SHORT_WORDS,
        Unserved::HandlesUsedUp => HANDLES_USED_UP,
        Unserved::Moved => MOVED,
        Unserved::WornOut => WORN_OUT,
    }
}

/// Why a client is not given a seat.
pub(crate) fn unseated_number(why: Unseated) -> u32
    ensures { result ≡ unseated_number why }
{
    match why {
        Unseated::NoSeat => NO_SEAT,
        Unseated::Taken => SEAT_TAKEN,
        Unseated::LabelTaken => LABEL_TAKEN,
        Unseated::NoneFree => NO_FREE_SEAT,
        Unseated::WornOut => WORN_OUT,
    }
}

/// Why a configuration is refused.
pub(crate) fn config_number(error: ConfigError) -> u32
    ensures { result ≡ config_number error }
{
    match error {
        ConfigError::NoMemory => NO_MEMORY,
        ConfigError::Syntax => CONFIG_SYNTAX,
        ConfigError::Kind => CONFIG_KIND,
        ConfigError::Missing => CONFIG_MISSING,
        ConfigError::Unknown => CONFIG_UNKNOWN,
        ConfigError::TooMany => CONFIG_TOO_MANY,
        ConfigError::Range => CONFIG_RANGE,
        ConfigError::Label => CONFIG_LABEL,
        ConfigError::Twice => CONFIG_TWICE,
    }
}

/// The number of a mode.
pub(crate) fn mode_number(mode: Mode) -> u32
    ensures { result ≡ mode_number mode }
{
    match mode {
        Mode::Flat => MODE_FLAT,
        Mode::Xray => MODE_XRAY,
        Mode::Kill => MODE_KILL,
    }
}

/// The number of a seat's status.
pub(crate) fn status_number(status: Status) -> u32
    ensures { result ≡ status_number status }
{
    match status {
        Status::Live => SEAT_LIVE,
        Status::Closed => SEAT_CLOSED,
        Status::Killed => SEAT_KILLED,
    }
}
