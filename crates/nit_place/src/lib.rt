//! Where the label of a view stands on the screen.
//!
//! [`place_label`] gives the first place, row by row from the top, at which a rectangle lies in
//! pixels that one view owns. It takes no memory, and it looks at the edges of views alone: in a
//! row it goes on at the right edge of a view that is in the way, and after a row at the next
//! bottom of a view in front.
//!
//! [`labels_apart`] says that labels of two views share no pixel, and [`least_place`] that the
//! place is the least one. Both speak of the definition of a label's place in `nit_stack`.
//!
//! The tests are in `nit_tests`: `parts`.
#![tactic(auto)]

mod laws;
mod part;
mod place;
mod search;

pub use laws::{labels_apart, least_place, mapped_place};
pub use place::place_label;
