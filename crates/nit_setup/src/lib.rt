//! From the words of the command line and the files of a store to the setup of a run.
//!
//! [`parse_words`] says what the words ask for, [`parse_alone`] where this starts no thread, and
//! [`parse_beside`] where it starts threads. One call then reads all files that they name, one after
//! the other, and judges each as it is read: [`read_still`] the script of a picture, [`read_run`] a
//! configuration and its scripts, [`read_clips`] these and a clip script for each client,
//! [`read_audit`] these and a journal, and [`read_nested`] two configurations with their scripts.
//! The scripts of a generated run are read from the bytes of its own files ([`read_files`]).
//!
//! Where a file cannot be read or is refused, or memory runs out, the answer is a [`Stop`]: how the
//! work ends, and the file that it ends at. The files before it are valid then, and what the store
//! was asked for is told name by name. A stop borrows nothing: of a file that the words name it
//! says which one that is, and of a script it holds the name. [`first_other`] names the script that
//! has another number of phases than an inner run has frames.
//!
//! The tests are those of whole commands, in `nit_top_tests`.
#![tactic(auto)]

mod clips;
mod generated;
mod load;
mod misfit;
mod outer;
mod read;
mod scripts;
mod still;
mod stop;
mod words;

pub use generated::read_files;
pub use misfit::{first_other, frame_count};
pub use read::{
    Loaded, OneScript, TwoRuns, WithClips, WithJournal, read_audit, read_clips, read_nested,
    read_run, read_still,
};
pub use stop::{End, Fault, ScriptName, Stop, StopName, at, at_first, at_second, nowhere};
pub use words::{Asked, AskedAlone, AskedBeside, parse_alone, parse_beside, parse_words};
