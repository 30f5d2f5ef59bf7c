//! The configuration of a run: the screen, the input script, and the clients with their donations.
//!
//! A configuration is a TOML file with these keys. Any table counts as a table and any array of
//! tables as one, however it is spelled.
//!
//! | place | key | value |
//! |---|---|---|
//! | top | `screen` | a table, required |
//! | top | `input` | a table, required |
//! | top | `client` | an array of tables, required, 1..=16 of them |
//! | `screen` | `width` | an integer, required, 1..=1024 pixels |
//! | `screen` | `height` | an integer, required, 1..=768 pixels |
//! | `screen` | `bar` | a boolean, by default false; true only at a height of 8 or more |
//! | `input` | `script` | a string, required, the name of a file |
//! | each `client` | `label` | a string, required, a label that no other client has |
//! | each `client` | `donation` | an integer, required, 256..=8388608 units |
//! | each `client` | `script` | a string, required, the name of a file |
//! | each `client` | `layer` | an integer, 0..=7, by default 0 |
//! | each `client` | `focus` | the string `click` or `none`, by default `click` |
//!
//! The name of a file is 1 to 255 bytes of printable ASCII, 0x20..=0x7E.
//!
//! [`read_config`] reads such a file, or answers the first [`ConfigError`] that applies to the
//! whole of it. Each text has one configuration or meets one refusal, and not both
//! ([`configuration_is_one`], [`refusal_is_one`], [`each_text_is_judged`]). What is read is within
//! the ranges above, which
//! `IsRunConfiguration` says in the contracts; a server can be opened with more
//! (`IsConfiguration`).
//!
//! The tests are in `nit_tests`: `scripts`, and by whole runs in `nit_top_tests`.
#![tactic(auto)]

mod build;
mod config;
mod error;
mod fault;
mod keys;
mod laws;
mod name;
mod ranges;
mod read;
mod refusals;
mod tree;

pub use config::{Config, Member};
pub use error::ConfigError;
pub use fault::fault_line;
pub use laws::{
    configuration_is_one, each_text_is_judged, refusal_is_one, run_is_configured,
    still_is_configured,
};
pub use name::FileName;
pub use read::read_config;
