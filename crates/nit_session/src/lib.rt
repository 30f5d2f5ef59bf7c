//! One session, served by itself: what it answers to its calls, and what the user's input does to
//! it. It is the machine of nit_journal in code, with its account and its queue of events.
//!
//! [`Machine::serve`] serves a call, and [`Machine::receive`] takes an event or the kill. A call
//! may be served in two steps: [`Machine::refused`] says why it is refused, and
//! [`Machine::accept`] serves one that is not. The machine knows no other session, no view's place
//! and no slot. All its memory is taken when it opens.
//!
//! It has no tests of its own: its contracts say all of each answer and of the session after it.
//! The plans of scripts and the audit stand on it, and are tried on whole runs in
//! `nit_top_tests`.
#![tactic(auto)]

mod machine;

pub use machine::Machine;
