//! The status bar.

ghost use Rattle.std.specs.Prelude.{◌≡◌, ℕ, ◌*◌, ◌<◌, List, length, nat_lt, slice_index};
ghost use Rattle.std.specs.Prelude.{if◌then◌else◌, true};
ghost use Rattle.nit_overlay.specs.Terms.{IsLettering, picture_height, picture_width};
ghost use Rattle.nit_overlay.specs.Terms.{IsBarToShow, IsLook, IsPainted, bar_text, bar_word};
ghost use Rattle.nit_overlay.specs.Terms.{mode_word, pixel, point, scenery};

use crate::look::LetteredLook;
use crate::paint::{Tag, fill_part, paint_tag};
use crate::row_part::RowPart;
use crate::stripe::{height_of, width_of};
use nit_events::Mode;
use nit_glyph::{Label, LabelText, Lettering, bar_text};

fn mode_word(mode: Mode) -> &'static [u8]
    ensures { result.now ≡ mode_word mode }
{
    match mode {
        Mode::Flat => b"flat",
        Mode::Xray => b"xray",
        Mode::Kill => b"kill",
    }
}

fn mode_label(mode: Mode) -> Label
    ensures { result ≡ mode_word mode }
{
    Label::new(mode_word(mode)).unwrap()
}

/// The text of the bar.
fn text_of(lettered: &LetteredLook) -> LabelText
    requires { IsLook lettered.now }
    ensures { result ≡ bar_text (scenery lettered.now) }
{
    let mode = mode_label(lettered.look.mode);
    match lettered.look.focus {
        Some(session) => bar_text(&mode, Some(&lettered.look.labels[session as usize])),
        None => bar_text(&mode, None),
    }
}

/// Whether the row y is one of the bar.
pub(crate) fn is_bar_row(lettered: &LetteredLook, y: u32) -> bool
    ensures { result ≡ nat_lt y lettered.now.look.stack.now.bar }
{
    y < lettered.look.stack.bar()
}

/// The first column of the row y after the picture of the bar's text: 0 below the picture.
fn text_end(lettering: Lettering, text: &LabelText, y: u32) -> u32
    requires { IsLettering lettering }
    ensures { result ≡ (if nat_lt y (picture_height lettering)
        then picture_width lettering (length text.now) else 0) }
{
    if y < height_of(lettering) {
        width_of(lettering, text)
    } else {
        0
    }
}

/// Paints these pixels of a row of the bar.
pub(crate) fn overlay_bar(lettered: &LetteredLook, part: RowPart, out: &mut [u32])
    requires { IsBarToShow lettered.now part out.old }
    ensures { (raw : List ℕ) → IsPainted (λ x w. bar_word (scenery lettered.now) (point x part.y))
        raw out.old out.new part.from part.to }
{
    let text = text_of(lettered);
    let lettering = lettered.lettering;
    let cut = text_end(lettering, &text, part.y)
        .min(part.to)
        .max(part.from);
    let tag = Tag {
        text,
        lettering,
        left: 0,
        top: 0,
    };
    if part.from < cut {
        paint_tag(&tag, RowPart { to: cut, ..part }, out);
    }
    fill_part(0, out, cut, part.to);
}

/// Sets the words of the bar's pixels, which are the first of `out`, to what is shown there; all
/// other words stay. `out` has a word for each pixel of the screen, row by row from the top. No
/// memory is taken.
pub fn bar_into(lettered: &LetteredLook, out: &mut [u32])
    requires look { IsLook lettered.now }
    requires out { length out.old
        ≡ lettered.now.look.stack.now.width * lettered.now.look.stack.now.height }
    ensures pixels { (k : ℕ) → slice_index out.new k
        ≡ (if nat_lt k (lettered.now.look.stack.now.width * lettered.now.look.stack.now.bar)
        then bar_word (scenery lettered.now) (pixel lettered.now.look.stack.now.width k)
        else slice_index out.old k) }
    ensures length { length out.new ≡ length out.old }
{
    let (width, _height) = lettered.look.stack.size();
    'rows: for y in 0..lettered.look.stack.bar() {
        let at = y as usize * width as usize;
        let part = RowPart {
            y,
            from: 0,
            to: width,
        };
        overlay_bar(lettered, part, &mut out[at..at + width as usize]);
    }
}
