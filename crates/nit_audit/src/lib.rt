//! Whether a journal is one of a run: [`audit`] does again what its entries say, and compares.
//!
//! A list of entries is good where it is legal, each client's calls are the first ones of its
//! script, the device events and shots are the first ones of the input script, the phases of their
//! lines never fall, and the last picture comes only when all is done. [`audit`] answers
//! [`Verdict::Yes`] exactly where the entries are good and the last one is the last picture.
//! Otherwise it names the first entry with which they are not good, counted from 1, or the place
//! after them where only the last picture is lacking.
//!
//! The audit is independent of the server's stack and slots: the views stand in a plain list here,
//! front first, and have no slots. So a mistake of the server's stack or slots does not show in
//! both. Each session is a [`nit_session::Machine`], which knows neither.
//!
//! The tests are in `nit_top_tests`.
#![tactic(auto)]

mod auditing;
mod client_course;
mod keys;
pub mod laws;
mod replay;
mod same;
mod user_course;
mod views;

pub use auditing::{Verdict, audit};
