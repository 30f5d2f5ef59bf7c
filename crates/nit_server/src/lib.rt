//! The server: all sessions, their views and the user's input, as one machine. It has no pixel.
//!
//! A [`Server`] keeps the machine of each session, the stack of all views, and where the user's
//! input goes. Its value is the state that the definitions of the journal speak of, with the slot
//! of each view beside it. A call of a session is one step of that state ([`Server::accept`]); a
//! device event is routed ([`Server::route`]) and then delivered ([`Server::tell_all`]), or locks a
//! session out ([`Server::end_session`]).
//!
//! All memory is taken by [`Server::new`]. What a caller has to know is asked for by
//! [`Server::refused`]: a call that it names no refusal for is accepted.
//!
//! The tests are in `nit_tests`: `scenes`, and by whole runs in `nit_top_tests`.
#![tactic(auto)]

mod member;
mod server;

pub use nit_events::Status;
pub use server::{Counts, Server, killed};
