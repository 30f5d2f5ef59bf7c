/// What a session is told.
#[derive(Clone, Copy, Debug, PartialEq, Eq)]
pub enum Event {
    Press(u16),
    Release(u16),
    Motion(u16, u16),
    Wheel(i8),
    /// The pointer has left the session's pixels.
    Leave,
    /// The session has the focus now.
    FocusEnter,
    /// The session has lost the focus.
    FocusLeave,
}

/// Whether a session is served.
#[derive(Clone, Copy, Debug, PartialEq, Eq)]
pub enum Status {
    Live,
    /// It has ended itself.
    Closed,
    /// The user has locked it out.
    Killed,
}

/// What the user's input does to a session.
#[derive(Clone, Copy, Debug, PartialEq, Eq)]
pub enum Item {
    /// The event is queued.
    Event(Event),
    /// The session is locked out.
    Kill,
}

/// An item, and the number of the session that it goes to.
#[derive(Clone, Copy, Debug, PartialEq, Eq)]
pub struct Delivery {
    pub sid: u32,
    pub item: Item,
}

/// The deliveries of one device event, in order: `a` is filled before `b`, and `b` before `c`.
#[derive(Clone, Copy, Debug, PartialEq, Eq)]
pub struct Routed {
    pub a: Option<Delivery>,
    pub b: Option<Delivery>,
    pub c: Option<Delivery>,
}
