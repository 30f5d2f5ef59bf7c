//! Why a host does not serve.

/// Why a call of a seat's client, or a device event, was not served.
#[derive(Clone, Copy, Debug, PartialEq, Eq)]
pub enum Unserved {
    /// There is no such seat.
    NoSeat,
    /// The seat has another client now.
    OtherClient,
    /// The client has ended, or has no view of this handle.
    NoView,
    /// A key's or a button's code is over 767, or a turn of the wheel is -128.
    BadDevice,
    /// The words that were handed in are fewer than the buffer has.
    ShortWords,
    /// The client asks for a view, and has had 2^32 - 3 of them: its handles are used up.
    HandlesUsedUp,
    /// A button would go to another client than the last look showed under the pointer.
    Moved,
    /// The host has served 2^62 entries.
    WornOut,
}

/// Why a client was not given a seat.
#[derive(Clone, Copy, Debug, PartialEq, Eq)]
pub enum Unseated {
    /// There is no such seat.
    NoSeat,
    /// A client sits there.
    Taken,
    /// Another seat has the label, or had it last.
    LabelTaken,
    /// No seat of the layer is free.
    NoneFree,
    /// The host has had 2^48 - 1 clients.
    WornOut,
}

/// Why a part of the frame was not copied.
#[derive(Clone, Copy, Debug, PartialEq, Eq)]
pub enum Uncopied {
    /// The part reaches beyond the screen.
    BadRect,
    /// Its rows overlap, or end behind the last of the words.
    WrongFrame,
}

/// Why a plan of a screen and its seats is refused.
#[derive(Clone, Copy, Debug, PartialEq, Eq)]
pub enum PlanError {
    /// Memory ran out.
    NoMemory,
    /// The screen is not 1..=4096 pixels wide and 1..=4096 high, a dot of its texts is not 1..=8
    /// pixels wide and high, or it has a bar that leaves no row below.
    Screen,
    /// There are not 1 to 64 seats.
    Seats,
    /// A donation is not 256..=268,435,456 units.
    Donation,
    /// A layer is over 7.
    Layer,
}
