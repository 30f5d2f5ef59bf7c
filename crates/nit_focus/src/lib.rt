//! Where the user's input goes: the mode, the pointer, the held codes, and the sessions that are
//! focused, hovered and receiving.
//!
//! A [`Focus`] is seen as the state of the user's input beside the screen's size and the list of
//! the sessions that a click makes the focused one. [`Focus::input`] takes one device event and
//! answers with at most three deliveries, in order. It is told which session the pointer points at
//! once it has moved: [`Focus::clamp`] says where that will be.
//!
//! - What is pressed first fixes a receiver: the pointed session for a button, the focused one for
//! a key. The
//!   receiver gets all that the user does until nothing is held any more, so a drag stays with the
//!   session that it began in.
//! - While nothing is held, the session under the pointer is told of motions and of the wheel, and
//! of being left.
//! - In the mode `Xray` sessions are told of the focus alone, and in `Kill` of nothing: there a
//! click locks the
//!   pointed session out, and the mode is `Flat` again.
//! - A session that is killed or closed is forgotten: it gets nothing more.
//!
//! Codes are at most 767, sessions are below 64, and no call takes memory.
//!
//! The tests are in `nit_top_tests`.
#![tactic(auto)]

mod focus;
mod held;
mod state;
mod told;

pub use focus::Focus;
