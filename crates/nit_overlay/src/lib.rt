//! What the screen shows, by the mode: labels, rings, dimmed or tinted words, and the status bar.
//!
//! A frame has one word for each pixel of the screen, row by row from the top. [`frame_into`] makes
//! it from the raw words of the pixels, which the clients have painted, and from a [`Look`]: the
//! stack of views, the labels, the mode, the focus and the places of the labels. [`frame_by_map`]
//! makes it too, where a map has the owner of each pixel. [`overlay_rect`] does the same for the
//! pixels of a rectangle alone, and [`overlay_piece`] for a rectangle whose pixels have one owner
//! that is known. [`bar_into`] sets the pixels of the status bar alone. None takes memory.
//!
//! The first rule that applies to a pixel gives its word.
//!
//! - In the status bar it is white on black: the bar's text stands at the top left, and what does
//!   not fit on the screen is cut off at the right.
//! - Where no view covers it, it is the word of the bare screen.
//! - In mode Flat it is the raw word.
//! - In the label of the view that owns it, it is white on black.
//! - On the ring of the view, its first and last rows and columns, it is red in mode Kill. In mode
//!   Xray it is white where the view's session has the focus, and grey elsewhere.
//! - In mode Xray it is the raw word where the session has the focus, and the dimmed word
//!   elsewhere. In mode Kill it is the tinted word.
//!
//! In mode Xray no client without the focus can show the white of labels or the grey of rings, and
//! in mode Kill none can show white or black ([`laws::marks_are_the_servers`]).
//!
//! A frame may be kept: where just the pixels whose shown word may differ are set to what is shown
//! now, it is the new frame ([`laws::kept_frames`]). In mode Flat and below the bar the shown word
//! depends on the raw word, and on whether the pixel has an owner, alone. So there the raw words of
//! what was painted are the frame's.
//!
//! An area whose pixels have one owner is cut into bands of rows that are painted alike, at most
//! five, and a band into runs of columns that have one rule. A piece comes with its owner, so
//! nothing is searched. Where owners are not known, each row is first cut into pieces that have one
//! owner or none, and each piece is painted as such an area. So the stack is searched once for each
//! piece of a row, and not for each pixel. By a map each row is cut into runs of one owner, and no
//! view is searched for. A narrow run that meets no label is painted pixel by pixel. Where it has at
//! most four pixels, each is looked up by its slot, and the end of the run is not sought.
//!
//! The tests are in `nit_tests`: `parts`.
#![tactic(auto)]

mod area;
mod bar;
pub mod laws;
mod look;
mod mapped;
mod narrow;
mod overlay;
mod owner;
mod paint;
mod piece;
mod row_part;
mod span;
mod stripe;

pub use bar::bar_into;
pub use look::{LetteredLook, Look};
pub use mapped::{NO_SLOT, frame_by_map};
pub use overlay::{frame_into, overlay_rect};
pub use piece::overlay_piece;
