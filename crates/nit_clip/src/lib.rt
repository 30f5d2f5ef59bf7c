//! The clipboard: what clients ask of it, their clip scripts, and the list of what was asked and
//! answered.
//!
//! A clip script is a list of lines, each with a line feed at its end: `copy =TEXT`, `paste` and
//! `phase`, with the rules of a client's script. Its first 65,536 lines are read.
//!
//! [`Clip`] keeps the list. A call of a session that has not the focus is answered `NotFocused`.
//! Otherwise `Copy` is answered `Copied`, and `Paste` gives the text of the last `Copy` that was
//! answered so. [`clip_text`] spells a list, a line for each entry.
//!
//! The clipboard is no part of the server's state: a journal has no entry of it. A clip list stands
//! beside a journal, and each of its entries says how many entries of the journal stand before it.
//!
//! The tests are in `nit_tests`: `scenes`, and by whole runs in `nit_top_tests`.
#![tactic(auto)]

mod call;
mod clip;
pub mod laws;
mod line;
mod lines;
mod parse;
mod script;
mod text;

pub use call::{ClipCall, ClipEntry, ClipReply};
pub use clip::Clip;
pub use line::ClipLine;
pub use nit_script::ScriptError as ClipError;
pub use parse::parse_clip;
pub use script::ClipScript;
pub use text::clip_text;
