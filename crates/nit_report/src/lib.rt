//! What a run reports: pictures in the P6 form of Netpbm's PPM, and the texts of the journal and of
//! each client's events. [`generate`] makes the files of a generated run, and [`gen_config`] its
//! configuration.
//!
//! A text is a list of lines, and each line ends with one line feed. Words are parted by one space.
//! Calls and what the user does are spelled as in their scripts (see `nit_script`), and numbers are
//! in decimal.
//!
//! | entry of the journal | line |
//! |---|---|
//! | a call | `call`, the session's number, the reply, `<`, the call |
//! | a device event | `input`, the device's line, and for each delivery `>`, the session's number,
//! the item |
//! | a shot | `shot` and its number |
//! | the last picture | `final` |
//!
//! A reply is `done`, `handle N`, `event EVENT`, `no-event`, `no-such-view N`, `bad-rect`,
//! `bad-size`, `bad-title`, `too-many-views`, `out-of-quota NEED LEFT`, `no-reserve NEED LEFT`,
//! `closed` or `killed`. An item is an event or `kill`. An event is a device's line or `leave`,
//! `focus-enter` or `focus-leave`.
//!
//! The tests are in `nit_tests`: `scripts`.
#![tactic(auto)]

mod drawn_lines;
mod entries;
mod error;
mod events;
mod generated_client;
mod generated_config;
mod generated_user;
mod generator;
mod journal;
mod laws;
mod parse;
mod picture;
mod reading;
mod replies;
mod spelling;
mod stream;
pub mod write;

pub use error::JournalError;
pub use events::{Ending, events_text};
pub use generated_config::{gen_config, script_name};
pub use generator::{Files, generate};
pub use journal::journal_text;
pub use laws::{
    generated_client_counts, generated_user_counts, journal_first_bad_is_one,
    journal_reading_is_one,
};
pub use parse::parse_journal;
pub use picture::{ppm_into, ppm_len};
