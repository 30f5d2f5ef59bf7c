//! Loading exactly the damage of a screen again.
//!
//! A screen has a raw word for each pixel, and a frame of the words that it shows. When the stack
//! of views has changed, or what a session has drawn, some of the raw words have to be loaded again
//! through the words of the sessions, each once, and no other. The calls of this crate do that
//! for one kind of change each:
//!
//! - [`Painter::paint_changed`]: one view has moved, has another rectangle or offset, or is gone.
//!   What it owned before or owns now is loaded.
//! - [`Painter::paint_session`]: what all views of a session own, or what of it shows a part of its
//!   buffer.
//! - [`Painter::paint_whole`]: all pixels.
//!
//! Where all views of a session go, they are taken away from the rear one to the front one, each as
//! a view that is gone. So a pixel that several of them cover is loaded once, when the front one
//! goes, and then shows a view of another session or the bare screen (`IsTaken`, `uncovered`).
//!
//! Each call begins with a set of pixels on a [`nit_damage::Cutter`], which hands them out as
//! rectangles with one owner each, and paints these one after the other
//! ([`Painter::paint_to_come`]), by the words of all sessions that are handed in. The promise is
//! `Repainted` of nit_paint: exactly the marked pixels were loaded, each once, and what they hold
//! then. In mode Flat a view's pixels show their raw words. In the other modes
//! [`Painter::show_session`] sets what was loaded to what is shown there, and
//! [`Painter::show_whole`] makes the whole frame. Both go by the cutter's pieces too.
//!
//! All of it is done on one [`Painter`], which has the cutter and the raw words.
//!
//! Nothing is known here of sessions' rights, of the journal or of input. No call takes memory.
//!
//! The tests are in `nit_tests`: `scenes`.
#![tactic(auto)]

mod buffers;
mod changes;
pub mod laws;
mod painter;
mod part;
mod pieces;
mod showing;

pub use changes::ViewBefore;
pub use painter::Painter;
