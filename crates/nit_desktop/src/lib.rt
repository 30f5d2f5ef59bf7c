//! A screen for a host program: it serves for as long as the machine runs, and clients come and go.
//!
//! A [`Desktop`] keeps no journal. What contracts see of it is the state itself, and each call of
//! it is one step from the state before to the state after: an entry, as the journal's definitions
//! have it, or a session that opens again. So what the laws of steps say holds along all that a
//! host does: each client is served as if it were alone since its session opened, releases follow
//! presses, and the user's input goes to live sessions (`nit_journal::laws`).
//!
//! The words of all sessions are the caller's: each step is handed a source of them ([`Glasses`]).
//!
//! [`Glasses`]: nit_word::Glasses
//!
//! All memory is taken by [`Desktop::new`]. A refused call changes nothing.
//!
//! The tests are in `nit_tests`: `scenes`.
#![tactic(auto)]

mod desktop;

pub use desktop::Desktop;
