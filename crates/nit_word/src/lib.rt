//! Pixel words, and the glasses through which they are seen.
//!
//! A word is a number below 2^24, read as `0x00RRGGBB`. A [`Glass`] shows the words of one owner.
//! Each word that is loaded through it is 0 or one that its ink has at that place, and it may keep
//! a log of what was loaded. [`Plain`] is a glass over words of its own, which are all that its ink
//! has, and [`Inked`] is one whose ink is some fixed colours.
//!
//! [`dim`] darkens a word, as X-ray mode shows what is not in focus, and [`tint`] reddens it, as
//! kill mode shows every view. [`dim_row`] and [`tint_row`] do the same to each word of a row.
//!
//! The tests are in `nit_tests`: `parts`.
#![tactic(auto)]

mod glass;
mod glasses;
mod inked;
mod plain;
mod setting;
mod shade;
mod words;

pub use glass::Glass;
pub use glasses::{Beside, Glasses, Lent};
pub use inked::Inked;
pub use plain::Plain;
pub use shade::{dim, dim_row, tint, tint_row};

/// The word that the bare screen shows, where no view is.
pub const BARE: u32 = 0x000020;
