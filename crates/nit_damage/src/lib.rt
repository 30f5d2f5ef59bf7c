//! Which pixels of the screen are to be drawn again, cut into rectangles with one owner each.
//!
//! A [`Cutter`] is given a set of pixels by one of five begins: those of a rectangle that a view
//! owns, those of a view that was moved, those of a view that is gone, those of a rectangle behind
//! the first so many views, or the whole screen. [`Cutter::next`] then hands out pieces, one after
//! the other. Each piece has pixels and one owner, and every pixel of the set comes in one piece,
//! once.
//!
//! A cutter is seen as the lists that it keeps and its room. How often a pixel is still to come is
//! told by these lists and the stack (`to_come`). A begin makes the cutter fit the stack (`Fits`),
//! and it fits it until that stack is changed. What was still to come before a begin is dropped.
//!
//! It cuts a rectangle by the views in front, one view after the other, and keeps what is left of
//! it round each cut as further rectangles. All room is taken by [`Cutter::with_room`]; no other
//! call takes memory.
//!
//! The tests are in `nit_tests`: `parts`.
#![tactic(auto)]

mod cutter;
mod cutting;
mod laws;
mod places;
mod rest;

pub use cutter::Cutter;
pub use laws::owned_pixels;
pub use nit_stack::Piece;
