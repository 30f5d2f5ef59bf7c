use crate::event::Event;
use crate::text::Text;

/// What a session asks of the server. A view is named by its handle. Numbers that the scene does
/// not allow are answered by a refusal.
#[derive(Clone, Copy, Debug, PartialEq, Eq)]
pub enum Call {
    /// The session's buffer has this width and height, in words.
    Buffer(u32, u32),
    /// A new view.
    View,
    /// The view has this rectangle of the screen: x, y, width, height.
    Place(u32, i32, i32, u32, u32),
    /// The view shows its buffer moved by this offset: x, y.
    Offset(u32, i32, i32),
    /// The view stands in front of all views of its layer.
    Front(u32),
    /// The view stands behind all views of its layer.
    Back(u32),
    /// The first view stands directly in front of the second.
    Above(u32, u32),
    /// The view has this title.
    Title(u32, Text),
    /// The view is gone.
    Destroy(u32),
    /// The pixels that show this part of the session's buffer are loaded again: x, y, width,
    /// height.
    Refresh(i32, i32, u32, u32),
    /// The oldest queued event is taken out.
    Take,
    /// The donation rises by this many units of the reserve.
    Upgrade(u32),
    /// The session ends.
    Close,
}

/// The server's answer to a call.
#[derive(Clone, Copy, Debug, PartialEq, Eq)]
pub enum Reply {
    Done,
    /// The handle of the new view.
    Handle(u32),
    /// The event that was taken.
    Event(Event),
    /// No event is queued.
    NoEvent,
    /// The session has no view of this handle.
    NoSuchView(u32),
    /// A number of a rectangle or an offset is out of range.
    BadRect,
    /// A side of a buffer is 0 or over 4096.
    BadSize,
    /// The text is no title.
    BadTitle,
    /// The session has 64 views.
    TooManyViews,
    /// The call needs more units than are left of the donation.
    OutOfQuota { need: u64, left: u64 },
    /// The call needs more units than are left of the reserve.
    NoReserve { need: u64, left: u64 },
    /// The session was closed.
    Closed,
    /// The session was killed.
    Killed,
}
