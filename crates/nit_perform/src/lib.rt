//! To do a setup: its memory, the run, and the files that the run puts.
//!
//! Each way to run a setup takes all memory first, and leaves the store as it was where memory runs
//! out before the first line. Then it goes to its end, and gives what it leaves, a [`Ran`]: the
//! whole journal, how many pictures were taken, and the put that was refused, if there is one. The
//! journal is one of the setup, and the files are those that a run of the setup puts with this
//! journal, up to the refused one.
//!
//! - [`run_turns`] goes by rounds on one scene. It puts each shot, the last picture and the texts.
//! - [`run_one`] does one client whose user does nothing, and puts the last picture.
//! - [`run_beside`] has each client on a thread of its own, over a hall in which the calls are
//!   served one at a time. Each client draws on words of its own without a lock; the user is on the
//!   calling thread.
//! - [`run_with_clips`] does the same with a clip script for each client, and puts the clip list.
//! - [`run_filmed`] does the same through a store that films the pictures, and puts the [`Film`].
//! - [`nest_run`] goes by rounds and puts nothing: it makes the script that shows the frames.
//!
//! [`put_files`] puts the files of a generated run before it, and [`put_inner_journal`] a journal
//! behind the files of another run. [`ThreadHost`] is what a run with threads is given of the
//! machine.
//!
//! The tests are those of whole commands, in `nit_top_tests`.
#![tactic(auto)]

mod added;
mod alone;
mod beside;
mod capture;
mod clips;
mod film;
mod film_store;
mod filmed;
mod generated;
mod host;
mod inner;
mod last;
mod memory;
mod opening;
mod pairs;
mod puts;
mod ran;
mod texts;
mod turns;

pub use added::put_inner_journal;
pub use alone::run_one;
pub use beside::run_beside;
pub use capture::run_filmed;
pub use clips::run_with_clips;
pub use film::Film;
pub use generated::put_files;
pub use host::ThreadHost;
pub use inner::{Inner, nest_run};
pub use ran::{PutFault, Ran};
pub use turns::run_turns;
