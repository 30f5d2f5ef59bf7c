//! A run of pixels that have one rule.

ghost use Rattle.std.specs.Prelude.{◌≡◌, ℕ, ◌+◌, ◌/◌, ◌<◌, ◌≤◌, List, length, slice_index};
ghost use Rattle.nit_overlay.specs.Terms.{IsInTag, IsPainted, IsRowPart, IsRowToPaint};
ghost use Rattle.nit_overlay.specs.Terms.{IsRunToPaint, IsTagged, most_width, word_by};

use crate::row_part::RowPart;
use nit_glyph::{LabelText, Lettering, glyph_bit};
use nit_word::{dim_row, tint_row};

/// A text on the screen, whose picture has its first pixel in this column and row.
#[derive(Clone, Copy)]
pub(crate) struct Tag {
    pub text: LabelText,
    pub lettering: Lettering,
    pub left: u32,
    pub top: u32,
}

/// How a pixel is painted.
#[derive(Clone, Copy)]
pub(crate) enum Rule {
    /// With this word.
    Fill(u32),
    /// With its raw word.
    Raw,
    /// With its raw word, dimmed.
    Dim,
    /// With its raw word, tinted.
    Tint,
    /// With a dot of a text's picture or the black of its ground.
    Text(Tag),
}

/// Paints these pixels of a row by the rule.
pub(crate) fn paint_part(rule: &Rule, part: RowPart, raw: &[u32], out: &mut [u32])
    requires row { IsRowToPaint part raw.now out.old }
    requires tagged { IsTagged rule.now part.from part.to part.y }
    ensures { IsPainted (λ x w. word_by rule.now x part.y w) raw.now out.old out.new part.from
        part.to }
{
    let (start, end) = (part.from as usize, part.to as usize);
    paint(
        rule,
        &raw[start..end],
        &mut out[start..end],
        part.from,
        part.y,
    );
}

/// Paints these pixels of a row, all in the picture of the text. No raw word is needed.
pub(crate) fn paint_tag(tag: &Tag, part: RowPart, out: &mut [u32])
    requires part { IsRowPart (length out.old) part }
    requires tagged { IsInTag tag.now part.from part.to part.y }
    ensures { (raw : List ℕ) → IsPainted (λ x w. word_by (Rule.Text tag.now) x part.y 0)
        raw out.old out.new part.from part.to }
{
    let (start, end) = (part.from as usize, part.to as usize);
    paint_text(tag, &mut out[start..end], part.from, part.y);
}

/// Gives the pixels from the column `from` to before `to` this word.
pub(crate) fn fill_part(word: u32, out: &mut [u32], from: u32, to: u32)
    requires in_order { from ≤ to }
    requires within { to ≤ length out.old }
    ensures { (raw : List ℕ) → IsPainted (λ x w. word) raw out.old out.new from to }
{
    out[from as usize..to as usize].fill(word);
}

/// Paints `out`, which are pixels of the row y from the column x on, by the rule.
fn paint(rule: &Rule, raw: &[u32], out: &mut [u32], x: u32, y: u32)
    requires { IsRunToPaint rule.now x y raw.now out.old }
    ensures { (k : ℕ) → k < length raw.now
        → slice_index out.new k ≡ word_by rule.now (x + k) y (slice_index raw.now k) }
{
    match rule {
        Rule::Fill(word) => out.fill(*word),
        Rule::Raw => out.copy_from_slice(raw),
        Rule::Dim => {
            out.copy_from_slice(raw);
            dim_row(out);
        }
        Rule::Tint => {
            out.copy_from_slice(raw);
            tint_row(out);
        }
        Rule::Text(tag) => paint_text(tag, out, x, y),
    }
}

/// Paints `out`, which are pixels of the row y from the column x on, all in the picture of the
/// text.
fn paint_text(tag: &Tag, out: &mut [u32], x: u32, y: u32)
    requires tagged { IsInTag tag.now x (x + length out.old) y }
    requires across { x + length out.old ≤ most_width }
    ensures { (k : ℕ) → k < length out.old
        → slice_index out.new k ≡ word_by (Rule.Text tag.now) (x + k) y 0 }
{
    let scale = tag.lettering.scale;
    let row = unscaled(y - tag.top, scale);
    'dots: for (k, word) in out.iter_mut().enumerate() {
        let column = unscaled(x + k as u32 - tag.left, scale);
        let dot = glyph_bit(tag.lettering.glyphs, &tag.text, column, row);
        *word = if dot { 0xFFFFFF } else { 0 };
    }
}

/// The column or row of the glyphs that a column or row of pixels lies in.
fn unscaled(at: u32, scale: u32) -> u32
    requires { 1 ≤ scale }
    ensures { result ≡ at / scale }
{
    match scale {
        1 => at,
        _ => at / scale,
    }
}
