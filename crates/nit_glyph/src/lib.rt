//! Titles, labels, and the pictures of texts.
//!
//! A session has a [`Label`] and each of its views a [`Title`]. Both are short texts of few
//! characters, are checked once, where they are made, and can then be copied like numbers. From
//! them come the texts that the server itself writes on the screen: [`label_text`] is what stands
//! on a view, as `terminal:tab 1`, and [`bar_text`] what stands in the status bar, as
//! `xray:terminal`. Contracts see each of these as the list of its bytes.
//!
//! A text is drawn in glyphs, of which there are 41, small or large ([`Glyphs`]). Small ones have
//! three columns and five rows, large ones five and seven, and any two large ones differ in at
//! least five dots ([`large_glyphs_differ`]). The picture of n characters has a margin of one dot
//! on every side, and one free column between two characters: in small glyphs it has `4n + 1`
//! columns and 7 rows, in large ones `6n + 1` and 9.
//!
//! A [`Lettering`] is a choice of glyphs and a scale, 1 to 8: each dot is a square of so many
//! pixels a side. [`text_size`] and [`text_bit`] say how large a picture is and at which pixels it
//! has a dot; [`label_size`] and [`label_bit`] say so for small glyphs at scale 1.
//!
//! No two texts look alike: where two pictures have the same size and the same dots, their texts
//! are the same ([`pictures_tell_texts`]). This holds in every lettering, of all texts of the 41
//! glyphs, and so of each text that the server writes ([`texts_have_glyphs`]).
//!
//! The tests are in `nit_tests`: `parts`.
#![tactic(auto)]

mod characters;
mod label;
mod lettering;
mod padded;
mod picture;
mod table;
mod text;
mod title;

pub use label::{Label, is_label};
pub use lettering::{Glyphs, Lettering};
pub use picture::{
    glyph, glyph_bit, label_bit, label_size, large_glyph, large_glyphs_differ, pictures_tell_texts,
    text_bit, text_size, texts_have_glyphs,
};
pub use text::{LabelText, bar_text, label_text};
pub use title::{Title, is_title};
