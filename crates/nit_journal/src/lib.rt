//! The journal, and what it means: the machine of a session, what the stack is after an entry, the
//! state that a journal leads to, which journals are legal, and what a client sees of one.
//!
//! [`refusing`] has the reasons for which a session's machine refuses a call, for every crate that
//! keeps a session.
//!
//! The tests are in `nit_tests`: `scripts`, and by audits in `nit_top_tests`.
#![tactic(auto)]

mod journal;
pub mod laws;
pub mod refusing;

pub use journal::Journal;
