//! A display server that a host program drives, with the words of its clients.
//!
//! A host has up to 64 seats. A client comes to a free one under a label ([`Host::seat`]), calls
//! ([`Host::call`]), hands in words ([`Host::refresh`]) and goes. What the user does is one call
//! ([`Host::input`]), and so is a look at what of the frame changed ([`Host::look`],
//! [`Host::damage`]). A call names its client ([`Client`]), so that none of a former client of the
//! seat is served.
//!
//! What contracts see of a host is a value of its own, [`HostModel`](specs::Host): the state, the
//! words that each seat's client handed in, the last entry, and what is remembered of the last
//! look, which is its frame, its views, and who came since. Each call answers and leaves what the
//! definitions say of it, and nothing else. The frame is a function of that value: each pixel
//! shows, as the mode has it, the word that its session handed in last for the place, so that no
//! word is ever stale.
//!
//! All memory is taken at opening. A call that is not served changes nothing.
//!
//! The tests are in `nit_tests`: `scenes`; those of `embed/tests` run all of it.
#![tactic(auto)]

mod client;
mod host;
pub mod laws;
mod planning;
mod refusal;
mod sheet;

pub use client::Client;
pub use host::Host;
pub use planning::{ScreenPlan, SeatPlan, plan};
pub use refusal::{PlanError, Uncopied, Unseated, Unserved};
