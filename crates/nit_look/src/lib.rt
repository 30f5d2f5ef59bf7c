//! What of a picture is not as it was when it was last looked at.
//!
//! [`look`] brings an old copy of a picture up to date, and tells the least rectangle that has all
//! pixels at which the two differed.
//!
//! [`Parts`] are at most 16 areas of a screen, no two of which meet. Whoever changes an area adds
//! it, and each pixel that was added lies in one of them. [`put_part`] copies a part of a picture
//! among rows of another length.
//!
//! The tests are in `nit_tests`: `parts`.
#![tactic(auto)]

mod area;
mod edges;
mod joining;
mod parts;
mod picture;
mod putting;
mod span;

pub use area::Area;
pub use parts::{MOST_PARTS, Parts};
pub use picture::look;
pub use putting::{has_room, put_part};
