//! A book of journal entries that only grows, each with the raw words of the screen after it, and
//! shares of it that go to other threads.
//!
//! A [`Book`] stands behind a lock. Each actor holds a [`Share`], which remembers its number, how
//! often it has counted, and the entries that the book had when the share last met it. When a share
//! meets the book again, contracts know that its count is the one that the book has kept for it,
//! and that what it has seen is a front of the book's entries. So a thread knows what it has done,
//! and what was there before, though other threads went on in between.
//!
//! Contracts alone know entries, counts and `seen`: neither a book nor a share keeps any of them in
//! memory. Only [`Book::new`] takes memory, and no call waits for another thread.
//!
//! The tests are in `nit_tests`: `parts`.
#![tactic(auto)]

mod book;
mod share;
mod steps;
mod turn;
mod view;

pub use book::{Book, HasRaw};
pub use share::Share;
