//! Rectangles of the screen as sets of pixels, and the answer for want of memory of every crate
//! above.
//!
//! A [`Rect`] is seen as its four numbers. It covers the pixel (px, py) exactly where
//! `x <= px < x + w` and `y <= py < y + h`. Rectangles meet, lie in one another and are cut as
//! these sets.
//!
//! The tests are in `nit_tests`: `parts`.
#![tactic(auto)]

mod limits;
mod memory;
mod point;
mod rect;
mod span;
mod strips;

pub use limits::{
    FIRST_PLACE, FIRST_PRINTABLE, LAST_PLACE, LAST_PRINTABLE, LEAST_UNITS, MOST_HEIGHT,
    MOST_LENGTH, MOST_RUN_HEIGHT, MOST_RUN_SESSIONS, MOST_RUN_UNITS, MOST_RUN_WIDTH, MOST_SESSIONS,
    MOST_SIDE, MOST_SLOTS, MOST_UNITS, MOST_WIDTH,
};
pub use memory::NoMemory;
pub use point::Point;
pub use rect::Rect;
pub use strips::Strips;
