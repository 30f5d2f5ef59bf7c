//! Runs by rounds, on one thread: what rounds are, what they draw, and what their shots show.
//!
//! The actors are the clients, in order, and then the user. In each round every actor does its next
//! line, unless it has ended its phase. The line `phase` is an actor's line of its round. A new
//! phase begins with the round after the one in which the last actor ended the old one; until then
//! the actors that ended theirs do nothing. A script of which no line is left has ended its last
//! phase.
//!
//! [`Turns`] gives these lines one by one, and takes no memory. The [`laws`] say what rounds are:
//! each line of every script stands in them once, an actor that does a line has done exactly those
//! before it, and a journal with the entries of the rounds is whole.
//!
//! [`run_rounds`] does all of them on a scene, and shows the frames of the shots to a [`Viewer`]. A
//! [`Desk`] is one, which puts the pictures of these frames. What a shot shows is drawn from the
//! configuration and the scripts alone, line by line.
//!
//! Nothing here waits. What actors do on threads of their own is in `nit_actor`, whose user puts
//! its shots by a desk too.
//!
//! The tests are in `nit_top_tests`.
#![tactic(auto)]

mod copying;
mod desk;
mod drawing;
pub mod laws;
mod part;
mod places;
mod running;
mod stale;
mod turn;
mod turns;
mod viewer;

pub use desk::{Desk, PictureName, SHOT_NAME_BYTES, shot_name_into};
pub use running::run_rounds;
pub use turn::Turn;
pub use turns::Turns;
pub use viewer::Viewer;
