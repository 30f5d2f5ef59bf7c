//! The limits that several crates share.

/// The first column and the first row of a rectangle.
pub const FIRST_PLACE: i32 = -32_768;

/// The last column and the last row of a rectangle.
pub const LAST_PLACE: i32 = 32_767;

/// The greatest width and height of a rectangle.
pub const MOST_LENGTH: u32 = 32_767;

/// The columns of the widest screen.
pub const MOST_WIDTH: u32 = 4096;

/// The rows of the highest screen.
pub const MOST_HEIGHT: u32 = 4096;

/// The columns of the widest screen of a run, and of the widest film.
pub const MOST_RUN_WIDTH: u32 = 1024;

/// The rows of the highest screen of a run, and of the highest film.
pub const MOST_RUN_HEIGHT: u32 = 768;

/// The longest side of a buffer, in words.
pub const MOST_SIDE: u32 = 4096;

/// The most sessions on one screen.
pub const MOST_SESSIONS: usize = 64;

/// The most sessions of a run.
pub const MOST_RUN_SESSIONS: usize = 16;

/// The most views of all sessions together.
pub const MOST_SLOTS: usize = 4096;

/// What a session opens with at least, in units.
pub const LEAST_UNITS: u32 = 256;

/// What a session ever has at most, in units.
pub const MOST_UNITS: u32 = 268_435_456;

/// What a session of a run ever has at most, in units, and each session that opens with no more.
pub const MOST_RUN_UNITS: u32 = 8_388_608;

/// The first byte of printable ASCII.
pub const FIRST_PRINTABLE: u8 = 0x20;

/// The last byte of printable ASCII.
pub const LAST_PRINTABLE: u8 = 0x7E;
