/// What the user does.
#[derive(Clone, Copy, Debug, PartialEq, Eq)]
pub enum Device {
    /// A key or button goes down, by its code 0..=767.
    Press(u16),
    /// A key or button goes up, by its code 0..=767.
    Release(u16),
    /// The pointer moves to this column and row.
    Motion(u16, u16),
    /// The wheel turns by -127..=127.
    Wheel(i8),
}

/// How the screen is shown.
#[derive(Clone, Copy, Debug, PartialEq, Eq)]
pub enum Mode {
    /// As the clients paint it.
    Flat,
    /// With labels, and unfocused clients dimmed.
    Xray,
    /// With labels, tinted; a click locks a client out.
    Kill,
}
