//! A client's script that shows a list of frames, one in each phase.
//!
//! A [`Nest`] holds frames of one screen size as lines of a script. [`Nest::script`] puts them
//! into another script: the buffer before all, and each frame's lines at the beginning of its
//! phase. So a client shows what another server's screen has shown. [`find_forbidden`] finds the
//! first line that may not stand in the other script, since it would change the buffer or its
//! words.
//!
//! The tests are in `nit_tests`: `scenes`, and by whole runs in `nit_top_tests`.
#![tactic(auto)]

mod error;
mod frame;
pub mod laws;
mod nest;
mod rows;
mod weaving;

pub use error::NestError;
pub use nest::Nest;
pub use weaving::find_forbidden;
