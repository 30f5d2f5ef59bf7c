//! What each actor of a run does on threads, line by line, and the gate that it passes before each
//! line.
//!
//! The actors are the clients, in order, and then the user. On one thread they go by rounds, as
//! `nit_rounds` says; its desk puts the pictures of the shots here too.
//!
//! # On threads
//!
//! [`run_actor`] does all lines of one client's pass over a hall. [`run_mine`] does those of the
//! user and of some passes by turns, and puts the pictures of the shots by a desk while other
//! threads run. [`run_beside`] starts a thread for each pass and does the rest on the calling
//! thread. All of them may wait, and what they promise holds if they return. Which line comes when
//! is up to the threads; that each actor's lines are done in order, each once, is kept by the hall
//! and shows when all passes are done.
//!
//! [`run_clips`], [`run_mine_clips`] and [`run_beside_clips`] do the same where each client has a
//! clip script too. They do a client's clip calls of a phase when its own next line ends the phase,
//! or after its last line.
//!
//! # Alone
//!
//! [`run_alone`] does the lines of one client, on a room without a lock. The user only ends phases
//! with it.
//!
//! The tests are in `nit_tests`: `scenes`, and by whole runs in `nit_top_tests`.
#![tactic(auto)]

mod actor;
mod beside;
mod crew;
mod gate;
pub mod laws;
mod mine;
mod pair;
mod single;
mod user;

pub use actor::run_actor;
pub use beside::{UserAndDesk, run_beside, run_beside_clips};
pub use crew::Unstarted;
pub use gate::{Gate, GatedHall, Open};
pub use mine::{run_mine, run_mine_clips};
pub use pair::{Pair, run_clips};
pub use single::run_alone;
