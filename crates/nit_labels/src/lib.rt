//! Where the labels of all views stand on the screen, in one pass over the map of owners.
//!
//! [`places`] gives each owner the first place, row by row from the top, at which a rectangle of
//! its width lies in pixels that it owns. It goes from the last pixel to the first, so that what is
//! found later is nearer to the top left, and takes the same few steps for each pixel, whatever the
//! number of owners. Of rows with the same owners it looks for places in the topmost alone: what is
//! free in one of them is free there too.
#![tactic(auto)]

mod down;
mod finding;
mod map;
mod row;

pub use finding::places;
