use nit_events::{Call, Device};

/// What a client paints into its own buffer, over the places (i, j) with `x <= i < x + w` and
/// `y <= j < y + h` that the buffer has.
#[derive(Clone, Copy, Debug, PartialEq, Eq)]
pub enum Stroke {
    /// All these places become `c`, an RRGGBB below 2^24.
    Fill {
        x: u32,
        y: u32,
        w: u32,
        h: u32,
        c: u32,
    },
    /// The places where `(i - x) + (j - y)` is even become `c`, and the others `d`.
    Check {
        x: u32,
        y: u32,
        w: u32,
        h: u32,
        c: u32,
        d: u32,
    },
}

/// A line of a client's script.
#[derive(Clone, Copy, Debug, PartialEq, Eq)]
pub enum Line {
    /// The client calls the server.
    Call(Call),
    /// The client paints.
    Stroke(Stroke),
    /// The end of a phase.
    Phase,
}

/// A line of an input script.
#[derive(Clone, Copy, Debug, PartialEq, Eq)]
pub enum InputLine {
    /// The user does something.
    Device(Device),
    /// A picture is taken.
    Shot,
    /// The end of a phase.
    Phase,
}
