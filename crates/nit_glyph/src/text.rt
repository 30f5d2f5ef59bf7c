//! The texts that the server writes on the screen.

ghost use Rattle.std.specs.Prelude.{◌≡◌, ◌+◌, ◌≤◌, ◌∷◌, ◌++◌, length, codes};
ghost use Rattle.nit_glyph.specs.Terms.{IsOfGlyphs, bar_text_of, label_text_of, most_label};
ghost use Rattle.nit_glyph.specs.Terms.{most_label_text, most_title, option_copied};

use crate::label::Label;
use crate::padded::Padded;
use crate::title::Title;
use std::marker::Model;

/// The most bytes that a text has: those of a label, `:` and those of a title.
const MAX_LEN: usize = 33;

/// A text on the screen, which contracts see as its bytes.
///
/// It has 1 to 33 bytes, each of which has a glyph.
#[derive(Clone, Copy, Debug, PartialEq, Eq)]
pub struct LabelText {
    text: Padded<MAX_LEN>,
}

impl Model for LabelText {
    ghost use Rattle.std.specs.Prelude.{ℕ, ◌≤◌, List, length};
    ghost use Rattle.nit_glyph.specs.Pictures.{IsOfGlyphs};

    ghost Value = { List ℕ };

    ghost view = { λ t. t.text };

    ghost invariant = { λ t. (1 ≤ length t.text) × IsOfGlyphs t.text };

    ghost inverse = { λ text. record { text = text } };
}

impl LabelText {
    /// The text of a label alone.
    fn of_label(label: &Label) -> LabelText
        ensures text { result ≡ label.now }
        ensures short { length result ≤ most_label }
    {
        let mut text = Padded::empty();
        text.append(label.as_bytes());
        LabelText { text }
    }

    /// Adds `:` and `part` at the end.
    fn append(&mut self, part: &[u8])
        requires room { length self.old + 1 + length part.now ≤ most_label_text }
        requires glyphs { IsOfGlyphs part.now }
        ensures { self.new ≡ self.old ++ codes ":" ++ part.now }
    {
        self.text.append(b":");
        self.text.append(part);
    }

    /// The bytes of the text.
    pub fn as_bytes(&self) -> &[u8]
        ensures bytes { result.now ≡ self.now }
        ensures some { 1 ≤ length self.now }
        ensures short { length self.now ≤ most_label_text }
        ensures glyphs { IsOfGlyphs self.now }
    {
        self.text.as_bytes()
    }
}

/// The text of a view: its session's label, and `:` and the title where the title is not empty.
pub fn label_text(label: &Label, title: &Title) -> LabelText
    ensures { result ≡ label_text_of label.now title.now }
{
    let mut text = LabelText::of_label(label);
    let title = title.as_bytes();
    if !title.is_empty() {
        text.append(title);
    }
    text
}

/// The text of the status bar: the mode's word, which has at most 12 bytes, and `:` and the focused
/// session's label where there is one.
pub fn bar_text(mode: &Label, focus: Option<&Label>) -> LabelText
    requires { length mode.now ≤ most_title }
    ensures { result ≡ bar_text_of mode.now (option_copied focus.entry) }
{
    let mut text = LabelText::of_label(mode);
    if let Some(focused) = focus {
        text.append(focused.as_bytes());
    }
    text
}
