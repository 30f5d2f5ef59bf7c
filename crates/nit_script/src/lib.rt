//! Scripts as bytes, read and written: what clients do, and what the user does.
//!
//! A script is a list of lines, and each line ends with one line feed. A file of no bytes has no
//! lines. There are no comments and no empty lines. Words are parted by exactly one space, and
//! nothing stands before the first or after the last word.
//!
//! | name | spelling |
//! |---|---|
//! | NAT | `0`, or 1 to 9 digits of which the first is not `0` |
//! | INT | a NAT, or `-` and a NAT other than `0` |
//! | COLOUR | six digits of `0`..`9` and `A`..`F`, read as RRGGBB |
//! | TEXT | 0 to 40 bytes of 0x20..=0x7E, up to the line feed |
//!
//! The lines of a client's script are `buffer NAT NAT`, `view`, `place NAT INT INT NAT NAT`,
//! `offset NAT INT INT`, `front NAT`, `back NAT`, `above NAT NAT`, `title NAT =TEXT`, `destroy
//! NAT`,
//! `refresh INT INT NAT NAT`, `take`, `upgrade NAT`, `close`, `fill NAT NAT NAT NAT COLOUR`,
//! `check NAT NAT NAT NAT COLOUR COLOUR` and `phase`.
//!
//! The lines of an input script are `press NAT` and `release NAT` with a code of at most 767,
//! `motion NAT NAT` with places of at most 65535, `wheel INT` with a turn of -127..=127, `shot` and
//! `phase`. A line with a number past its bound has no reading.
//!
//! The tests are in `nit_tests`: `scripts`, and by whole runs in `nit_top_tests`.
#![tactic(auto)]

mod bytes;
mod call_lines;
mod counts;
mod device_lines;
mod error;
mod fields;
mod laws;
mod line;
mod lines;
mod numbers;
mod parse;
mod print;
mod script;
mod script_line;
mod stroke_lines;
mod write;

pub use bytes::{take_byte, take_word};
pub use call_lines::take_call;
pub use counts::{phase_lines, phases};
pub use device_lines::take_device;
pub use error::ScriptError;
pub use fields::{natural_field, text_field};
pub use laws::{first_bad_is_one, phases_count, reading_is_one, reading_is_whole};
pub use line::{InputLine, Line, Stroke};
pub use numbers::natural;
pub use parse::{MOST_LINES, parse_client, parse_input, parse_lines};
pub use print::{print_client, print_input, print_lines, put_call, put_device};
pub use script::{Client, Input};
pub use script_line::ScriptLine;
