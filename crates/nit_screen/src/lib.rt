//! A screen: a server with what it shows. One event is one call, and there is no journal, so a
//! screen serves for as long as the machine runs.
//!
//! A [`Screen`] keeps a [`Server`](nit_server::Server), the raw word of each pixel, and the frame
//! that they make. A call of a session, a device event and the last picture are each one step from
//! the state before to the state after, as the definitions of the journal have it. Exactly the
//! pixels that a step makes dirty are loaded again, each once, by its source in the state after it,
//! through the words of all sessions that are handed in with the step ([`Glasses`]). Pixels that
//! are not dirty keep their source and their word ([`laws`]).
//!
//! [`Glasses`]: nit_word::Glasses
//!
//! All memory is taken by [`Screen::new`]. A refused call changes nothing.
//!
//! The tests are in `nit_tests`: `scenes`.
#![tactic(auto)]

pub mod laws;
mod screen;

pub use screen::Screen;
