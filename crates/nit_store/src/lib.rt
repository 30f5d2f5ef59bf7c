//! The outside as a trait: files are read and put, and text is said.
//!
//! A [`Store`] has two counts of failures, one of reads and one of puts and sayings. It answers
//! `Failed` only where the count of that kind rose in the call, and nothing else raises a count. A
//! store may also tell its files, what was said and which names were asked for; then each answer
//! says what became of them.
//!
//! [`MemoryStore`] fails at chosen calls, [`NeverFails`] at none, and [`DiskStore`] is the real
//! files and the standard output.
//!
//! The tests are in `nit_top_tests`.
#![tactic(auto)]

mod disk_store;
mod files;
pub mod laws;
mod memory_store;
mod names;
mod never_fails;
mod store;

pub use disk_store::DiskStore;
pub use files::have_different_names;
pub use memory_store::MemoryStore;
pub use names::name_of;
pub use never_fails::NeverFails;
pub use store::{PutError, ReadError, Store};
