//! The pictures of texts.

ghost use Rattle.std.specs.Prelude.{◌≡◌, ℕ, ◌+◌, ◌*◌, ◌<◌, ◌≤◌, ◌==◌, List, length, find};
ghost use Rattle.std.specs.Prelude.{Option, IfSome, IsTrue, is_some, ◌≢◌};
ghost use Rattle.nit_glyph.specs.Terms.{IsLettering, IsOfGlyphs, Large, Lettering, SamePicture};
ghost use Rattle.nit_glyph.specs.Terms.{Small, bar_text_of, columns_of, dot, dots_apart, glyph_row};
ghost use Rattle.nit_glyph.specs.Terms.{glyph_rows, is_label, is_title, label_text_of};
ghost use Rattle.nit_glyph.specs.Terms.{most_label_text, most_picture_height, most_picture_width};
ghost use Rattle.nit_glyph.specs.Terms.{option_map, picture_height, picture_width, plain};
ghost use Rattle.nit_glyph.specs.Terms.{row_has_dot, rows_of, step_of, text_dot};

use crate::lettering::{Glyphs, Lettering};
use crate::table::{LARGE_GLYPHS, SMALL_GLYPHS};
use crate::text::LabelText;

/// The rows of a character in a table of characters with five rows.
fn five_rows_in(table: &[(u8, [u8; 5])], c: u8) -> Option<[u8; 5]>
    ensures { result ≡ option_map (λ g. g.1) (find (λ g. g.0 == c) table.now) }
{
    let glyph = table.iter().find(|glyph| glyph.0 == c)?;
    Some(glyph.1)
}

/// The rows of a character in a table of characters with seven rows.
fn seven_rows_in(table: &[(u8, [u8; 7])], c: u8) -> Option<[u8; 7]>
    ensures { result ≡ option_map (λ g. g.1) (find (λ g. g.0 == c) table.now) }
{
    let glyph = table.iter().find(|glyph| glyph.0 == c)?;
    Some(glyph.1)
}

/// The five rows of a character's small glyph, from the top, or `None` where it has no glyph.
///
/// In a row the bit of value 4 is the left column, and the bit of value 1 the right one.
#[tactic(auto, unfolding(crate::specs::Pictures::glyph_rows))]
pub fn glyph(c: u8) -> Option<[u8; 5]>
    ensures { result ≡ glyph_rows Small c }
{
    five_rows_in(&SMALL_GLYPHS, c)
}

/// The seven rows of a character's large glyph, from the top, or `None` where it has no glyph.
///
/// In a row the bit of value 16 is the left column, and the bit of value 1 the right one.
#[tactic(auto, unfolding(crate::specs::Pictures::glyph_rows))]
pub fn large_glyph(c: u8) -> Option<[u8; 7]>
    ensures { result ≡ glyph_rows Large c }
{
    seven_rows_in(&LARGE_GLYPHS, c)
}

/// The width and the height, in pixels, of the picture of `n` characters, where `n` is 1 to 33: at
/// most 1592 by 72.
pub fn text_size(lettering: Lettering, n: u32) -> (u32, u32)
    requires lettering { IsLettering lettering }
    requires some { 1 ≤ n }
    requires short { n ≤ most_label_text }
    ensures size { result ≡ (picture_width lettering n, picture_height lettering) }
    ensures narrow { result.0 ≤ most_picture_width }
    ensures low { result.1 ≤ most_picture_height }
{
    let step = lettering.glyphs.columns() + 1;
    let rows = lettering.glyphs.rows() + 2;
    (lettering.scale * (step * n + 1), lettering.scale * rows)
}

/// The width and the height, in pixels, of the plain picture of `n` characters, where `n` is 1 to
/// 33.
pub fn label_size(n: u32) -> (u32, u32)
    requires some { 1 ≤ n }
    requires short { n ≤ most_label_text }
    ensures { result ≡ (4 * n + 1, 7) }
{
    text_size(Lettering::PLAIN, n)
}

/// One row of a character's glyph, from the top, and 0 where it has no glyph.
fn glyph_row(glyphs: Glyphs, c: u8, row: u32) -> u8
    requires { row < rows_of glyphs }
    ensures { result ≡ glyph_row glyphs c row }
{
    match glyphs {
        Glyphs::Small => match glyph(c) {
            Some(rows) => rows[row as usize],
            None => 0,
        },
        Glyphs::Large => match large_glyph(c) {
            Some(rows) => rows[row as usize],
            None => 0,
        },
    }
}

/// Whether a row of a glyph has a dot in a column; the column behind the last is free.
fn row_has_dot(glyphs: Glyphs, row: u8, column: u32) -> bool
    ensures { result ≡ row_has_dot glyphs row column }
{
    let columns = glyphs.columns();
    if column >= columns {
        return false;
    }
    let bit = 1u8 << (columns - 1 - column);
    row & bit == bit
}

/// Whether the picture of the text in these glyphs has a dot at the column `x` and the row `y`,
/// where each dot is one pixel, and the pixel lies in the picture: columns count from the left and
/// rows from the top, both from 0.
#[tactic(auto, unfolding(crate::specs::Pictures::dot))]
pub fn glyph_bit(glyphs: Glyphs, text: &LabelText, x: u32, y: u32) -> bool
    requires in_width { x < step_of glyphs * length text.now + 1 }
    requires in_height { y < rows_of glyphs + 2 }
    ensures { result ≡ dot glyphs text.now x y }
{
    if x == 0 || y == 0 || y > glyphs.rows() {
        return false;
    }
    let step = glyphs.columns() + 1;
    let character = text.as_bytes()[((x - 1) / step) as usize];
    row_has_dot(glyphs, glyph_row(glyphs, character, y - 1), (x - 1) % step)
}

/// Whether the picture of the text has a dot at the column `x` and the row `y`, which lie in the
/// picture.
pub fn text_bit(lettering: Lettering, text: &LabelText, x: u32, y: u32) -> bool
    requires lettering { IsLettering lettering }
    requires in_width { x < picture_width lettering (length text.now) }
    requires in_height { y < picture_height lettering }
    ensures { result ≡ text_dot lettering text.now x y }
{
    glyph_bit(
        lettering.glyphs,
        text,
        x / lettering.scale,
        y / lettering.scale,
    )
}

/// Whether the plain picture of the text has a dot at the column `x` and the row `y`, which lie in
/// the picture.
pub fn label_bit(text: &LabelText, x: u32, y: u32) -> bool
    requires in_width { x < 4 * length text.now + 1 }
    requires in_height { y < 7 }
    ensures { result ≡ dot Small text.now x y }
{
    text_bit(Lettering::PLAIN, text, x, y)
}

/// Different texts have different pictures, however they are lettered: two texts of the glyphs
/// whose pictures have the same size and the same dots are the same text.
pub fn pictures_tell_texts()
    ensures { (l : Lettering) (s t : List ℕ) → IsLettering l → IsOfGlyphs s → IsOfGlyphs t
        → SamePicture l s t → s ≡ t }
{}

/// The large glyphs are of the same characters as the small ones, and any two of them differ in at
/// least five dots.
pub fn large_glyphs_differ()
    ensures characters { (c : ℕ) → is_some (glyph_rows Large c) ≡ is_some (glyph_rows Small c) }
    ensures dots { (c d : ℕ) → IsTrue (is_some (glyph_rows Large c))
        → IsTrue (is_some (glyph_rows Large d)) → c ≢ d → 5 ≤ dots_apart Large c d }
{}

/// The text of every view and of the status bar is a text of the glyphs.
pub fn texts_have_glyphs()
    ensures view { (label title : List ℕ) → IsTrue (is_label label) → IsTrue (is_title title)
        → IsOfGlyphs (label_text_of label title) }
    ensures bar { (mode : List ℕ) (focus : Option (List ℕ)) → IsTrue (is_label mode)
        → IfSome focus (λ label. IsTrue (is_label label)) → IsOfGlyphs (bar_text_of mode focus) }
{}
