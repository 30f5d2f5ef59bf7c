//! Films of a rectangle of the screen: [`Capture`] writes one picture by picture, and [`Player`]
//! plays one.
//!
//! A film is a list of pictures. Its stream is the bytes `NCAP`, the width and the height in two
//! bytes each, a record for each picture, and one byte 0. Numbers of two bytes have the lower byte
//! first. A record is one byte 1, how many tiles differ from the picture before in two bytes, and
//! these tiles. The picture before the first is black. A tile of 16 by 16 pixels, cut off at the
//! right and lower edge, is its number in two bytes and the runs of its pixels by rows. A run is
//! its length less one, and one byte each of red, green and blue; within its tile it is as long as
//! equal pixels last.
//!
//! So a film has one stream, and a stream no second film. A film of a rectangle tells of the pixels
//! inside it alone: pictures that agree there have the same stream ([`film_tells_no_more`]).
//!
//! The tests are in `nit_tests`: `parts`.
#![tactic(auto)]

mod capture;
mod cut;
mod grid;
mod laws;
mod player;
mod reading;
mod runs;
mod writing;

pub use capture::Capture;
pub use laws::{film_goes_on, film_is_one, film_tells_no_more, picture_is_cut, record_is_one};
pub use player::{Played, Player};
