//! What a run is made of, and what it promises, whoever asks for it and however it is performed.
//!
//! A run is made of a setup: a configuration, a script for each client, the user's script, and
//! whether the clients go by rounds or beside each other. The definitions say which setups can be
//! run, which journals and which files such a run may leave, and what holds of both: the headline.
//! The [`laws`] prove it of every journal and of all files that fit a setup, so no body of code is
//! read for it.
//!
//! - [`Scripts`] are the scripts of a setup, and [`Output`] is a file that a run puts, and
//!   writes its name.
//! - [`Region`] is the part of the screen that a film shows.
//!
//! Setups are made of words and files in `nit_setup`, and run in `nit_perform`. The tests are those
//! of whole commands, in `nit_top_tests`.
#![tactic(auto)]

pub mod laws;
mod output;
mod region;
mod scripts;

pub use output::{LabelBytes, OUTPUT_NAME_BYTES, Output};
pub use region::Region;
pub use scripts::Scripts;
