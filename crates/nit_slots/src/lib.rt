//! What a session pays for and what it holds: its account of memory, its view handles, and the
//! slots that the views of all sessions stand in.
//!
//! An account is kept in units. A view costs 256 of them and a word of the buffer 8. The donation
//! pays; the reserve is what the donation may still be raised by. A refusal comes exactly where
//! more is needed than is left, says both numbers in a [`Need`], and changes nothing.
//!
//! A [`Table`] gives a session's views their handles 1, 2, 3 and so on, and puts each view into a
//! free slot of the [`Slots`] that all tables share. A slot is used again, a handle never. Only
//! [`Slots::new`] and [`Table::new`] take memory.
//!
//! The tests are in `nit_tests`: `scripts`, `scenes`.
#![tactic(auto)]

mod account;
mod need;
mod slots;
mod table;

pub use account::{Account, MOST_VIEWS, room, table_size, view_slots};
pub use need::Need;
pub use slots::Slots;
pub use table::Table;
