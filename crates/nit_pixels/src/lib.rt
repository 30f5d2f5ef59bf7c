//! The words of a pixel buffer, which their owner writes and others read at the same time without a
//! lock.
//!
//! A [`PixelBuffer`] has the words of one owner. Its one [`Key`] makes the owner's end, a
//! [`Canvas`], and the canvas splits readers' ends off, each a [`Lens`]. Each end can be sent to a
//! thread of its own, as long as the buffer is lent. The canvas stores words and reads exactly what
//! it stored. A lens reads at each place a word that the owner's script leaves there after some of
//! its lines, and no contract says after which. Both are a `Glass` and keep a log of their loads
//! that contracts alone know.
//!
//! A canvas and one lens, which [`Canvas::watch`] makes, agree on a list of [`Stages`] of which one
//! has what stands at each place now. The canvas stores at a place only what these have there, and
//! the lens loads no other word, until [`Canvas::agree`] has both agree on other stages.
//!
//! Each load and each store is one atomic step on one word. Only [`PixelBuffer::new`] takes memory,
//! and no call waits for another thread.
//!
//! The tests are in `nit_tests`: `scripts`.
#![tactic(auto)]

mod buffer;
mod canvas;
mod lens;
mod standing;
mod steps;
mod watching;
mod zeros;

pub use buffer::{Key, PixelBuffer};
pub use canvas::Canvas;
pub use lens::Lens;
pub use standing::Standing;
pub use watching::Stages;
