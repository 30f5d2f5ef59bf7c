//! The labels of sessions.

ghost use Rattle.std.specs.Prelude.{◌≡◌, ◌≤◌, ◌↔◌, length, IsTrue, IsSome, IfSome};
ghost use Rattle.nit_glyph.specs.Terms.{is_label, most_label};

use crate::characters::are_label_bytes;
use crate::padded::Padded;
use std::marker::Model;

/// The most bytes that a label has.
const MAX_LEN: usize = 20;

/// The label of a session, which contracts see as its bytes.
///
/// A label has 1 to 20 bytes, each of them `a` to `z`, `0` to `9`, `-`, `.` or `_`.
#[derive(Clone, Copy, Debug, PartialEq, Eq)]
pub struct Label {
    text: Padded<MAX_LEN>,
}

impl Model for Label {
    ghost use Rattle.std.specs.Prelude.{ℕ, List, IsTrue};
    ghost use Rattle.nit_glyph.specs.Texts.{is_label};

    ghost Value = { List ℕ };

    ghost view = { λ l. l.text };

    ghost invariant = { λ l. IsTrue (is_label l.text) };

    ghost inverse = { λ text. record { text = text } };
}

impl Label {
    /// The label of these bytes, or `None` where they are no label.
    pub fn new(text: &[u8]) -> Option<Label>
        ensures exactly { IsSome result ↔ IsTrue (is_label text.now) }
        ensures bytes { IfSome result (λ label. label ≡ text.now) }
        ensures label { IfSome result (λ label. IsTrue (is_label label)) }
        ensures some { IfSome result (λ label. 1 ≤ length label) }
        ensures short { IfSome result (λ label. length label ≤ most_label) }
    {
        if !is_label(text) {
            return None;
        }
        Some(Label::of(text))
    }

    /// The label of these bytes, which are one.
    pub fn of(text: &[u8]) -> Label
        requires { IsTrue (is_label text.now) }
        ensures { result ≡ text.now }
    {
        let mut label = Padded::empty();
        label.append(text);
        Label { text: label }
    }

    /// The bytes of the label.
    pub fn as_bytes(&self) -> &[u8]
        ensures bytes { result.now ≡ self.now }
        ensures label { IsTrue (is_label self.now) }
        ensures some { 1 ≤ length self.now }
        ensures short { length self.now ≤ most_label }
    {
        self.text.as_bytes()
    }
}

/// Whether these bytes are a label.
pub fn is_label(text: &[u8]) -> bool
    ensures { result ≡ is_label text.now }
{
    !text.is_empty() && text.len() <= MAX_LEN && are_label_bytes(text)
}
