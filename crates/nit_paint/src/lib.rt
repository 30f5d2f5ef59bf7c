//! Loading the pixels of a screen again: each pixel's word comes from its source.
//!
//! A [`Piece`](nit_stack::Piece) is a rectangle of the screen whose pixels have one owner.
//! [`paint_piece`] paints one: where a view owns it, by one load for each pixel to which its
//! session's buffer reaches. It says by one fact, `Repainted`, which pixels changed, to what, and
//! what was loaded for them, and takes no memory.
//!
//! `Repainted` tells pixels by their numbers and words by the numbers of their sessions. [`laws`]
//! has what follows of it alone: how two parts of a screen that are painted one after the other
//! make one.
//!
//! The tests are in `nit_tests`: `parts`.
#![tactic(auto)]

mod block;
pub mod laws;
mod pieces;
mod reach;
mod runs;

pub use pieces::paint_piece;
