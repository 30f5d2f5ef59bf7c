//! Why a call of a session is refused, each reason by itself.

ghost use Rattle.std.specs.Prelude.{◌≡◌, ◌&&◌, nat_lt};
ghost use Rattle.nit_journal.specs.Terms.{buffer_left, buffer_need, by_quota, by_reserve};
ghost use Rattle.nit_journal.specs.Terms.{by_status, is_place, is_rectangle, is_side, is_title};
ghost use Rattle.nit_journal.specs.Terms.{most_views, unless, view_left, view_need, ◌orelse◌};

use nit_events::{Reply, Status, Text};
use nit_glyph::is_title;
use nit_rect::{FIRST_PLACE, LAST_PLACE, MOST_SIDE, Rect};
use nit_slots::{Account, MOST_VIEWS};

/// The first of two refusals.
pub fn first_of(first: Option<Reply>, second: Option<Reply>) -> Option<Reply>
    ensures { result ≡ first orelse second }
{
    first.or(second)
}

/// A session that is over refuses every call.
pub fn by_status(status: Status) -> Option<Reply>
    ensures { result ≡ by_status status }
{
    match status {
        Status::Live => None,
        Status::Closed => Some(Reply::Closed),
        Status::Killed => Some(Reply::Killed),
    }
}

/// A buffer of w by h has sides of 1..=4096, and the donation pays for it in place of the old one.
pub fn by_buffer(mut account: Account, w: u32, h: u32) -> Option<Reply>
    ensures { result ≡ unless (is_side w && is_side h) Reply.BadSize
        orelse by_quota (buffer_need w h) (buffer_left account.donation account.views) }
{
    if !is_side(w) || !is_side(h) {
        return Some(Reply::BadSize);
    }
    match account.try_buffer(w, h) {
        Ok(()) => None,
        Err(short) => Some(Reply::OutOfQuota {
            need: short.need,
            left: short.left,
        }),
    }
}

/// There are fewer than 64 views, and the donation pays for one more.
pub fn by_view(mut account: Account) -> Option<Reply>
    ensures { result ≡ unless (nat_lt account.views most_views) Reply.TooManyViews
        orelse by_quota view_need (view_left account.donation account.views account.words) }
{
    if account.views() >= MOST_VIEWS {
        return Some(Reply::TooManyViews);
    }
    match account.try_view() {
        Ok(()) => None,
        Err(short) => Some(Reply::OutOfQuota {
            need: short.need,
            left: short.left,
        }),
    }
}

/// The donation may still be raised by n units.
pub fn by_upgrade(mut account: Account, n: u32) -> Option<Reply>
    ensures { result ≡ by_reserve n account.reserve }
{
    match account.upgrade(n) {
        Ok(()) => None,
        Err(short) => Some(Reply::NoReserve {
            need: short.need,
            left: short.left,
        }),
    }
}

/// The four are the numbers of a rectangle.
pub fn by_rectangle(x: i32, y: i32, w: u32, h: u32) -> Option<Reply>
    ensures { result ≡ unless (is_rectangle x y w h) Reply.BadRect }
{
    if Rect::new(x, y, w, h).is_some() {
        None
    } else {
        Some(Reply::BadRect)
    }
}

/// An offset is -32768..=32767 each way.
pub fn by_offset(x: i32, y: i32) -> Option<Reply>
    ensures { result ≡ unless (is_place x && is_place y) Reply.BadRect }
{
    if is_place(x) && is_place(y) {
        None
    } else {
        Some(Reply::BadRect)
    }
}

/// The text is a title.
pub fn by_title(text: &Text) -> Option<Reply>
    ensures { result ≡ unless (is_title text.now) Reply.BadTitle }
{
    if is_title(text.as_bytes()) {
        None
    } else {
        Some(Reply::BadTitle)
    }
}

/// Whether a buffer may have a side of n words.
fn is_side(n: u32) -> bool
    ensures { result ≡ is_side n }
{
    1 <= n && n <= MOST_SIDE
}

/// Whether z is in the range of a place.
fn is_place(z: i32) -> bool
    ensures { result ≡ is_place z }
{
    FIRST_PLACE <= z && z <= LAST_PLACE
}
