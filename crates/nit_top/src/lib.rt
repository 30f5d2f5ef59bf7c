//! The top call: from the words of the command line to the files that are put and the line that is
//! said.
//!
//! - `still W H SCRIPT`: the run of one client's script, whose user does nothing, on a screen of W
//!   by H.
//! - `turns CONFIG`: the run of a configuration's clients and its input script, all by turns.
//! - `run CONFIG`: the same, with each client on a thread of its own.
//! - `gen N`: the files of the generated run of number N are put, and then run as `run` does.
//! - `audit CONFIG JOURNAL`: whether the journal is one of a run of the scripts; nothing is put.
//! - `clip CONFIG`: the same as `run`, with a clip script for each client; what these asked and
//!   were answered is put last.
//! - `capture CONFIG X Y W H`: the same as `run`, and the film of a region of the screen is put
//!   last.
//! - `nested OUTER INNER`: the same as `run` for OUTER, whose first client shows the frames of a
//!   run by turns of INNER; the journal of that one is put last.
//!
//! What the words ask for, and reading files, of which a run's setup is made, stand in `nit_setup`;
//! what a run is and promises in `nit_run`; the ways to perform one, and the files that it puts, in
//! `nit_perform`. Here `run` has the work of each command, and `report` its end and the line that
//! is said. The tests are those of whole commands, in `nit_top_tests`.
//!
//! In each case the work is: read the files and judge them one by one; take all memory of the run;
//! run, and put the files; say how it went. What a run is made of, its configuration and its
//! scripts, is called its setup. A generated run reads no file: its files are made, and put before
//! the run. An audit reads the files of a setup and a journal, and begins no run. A nested run
//! reads the files of two, and keeps those back that the inner run would put.
//!
//! `still` and `turns` go by rounds on one scene, on the calling thread. `run` opens a hall, in
//! which the clients' calls are served one at a time, and each client draws on words of its own
//! without a lock; the user is on the calling thread. The files are the same: the picture of each
//! shot as `shot-1.ppm` and so on, and then `final.ppm`, in which each client's words are those
//! that its script leaves. `turns` and `run` put texts behind them: `events-LABEL.txt` for each
//! client, and `journal.txt`. After a put that was refused no other is tried, and the run goes on
//! to its end.
#![tactic(auto)]

mod audit;
pub mod laws;
mod report;
mod run;
mod top;

pub use report::finish::Done;
pub use top::{nitpicker, nitpicker_alone, starts_threads};
