//! The titles of views.

ghost use Rattle.std.specs.Prelude.{◌≡◌, ◌≤◌, ◌↔◌, length, IsTrue, IsSome, IfSome};
ghost use Rattle.nit_glyph.specs.Terms.{is_title, most_title};

use crate::characters::are_title_bytes;
use crate::padded::Padded;
use std::marker::Model;

/// The most bytes that a title has.
const MAX_LEN: usize = 12;

/// The title of a view, which contracts see as its bytes.
///
/// A title has at most 12 bytes, each of them `a` to `z`, `0` to `9`, `-`, `.`, `_` or the space.
#[derive(Clone, Copy, Debug, PartialEq, Eq)]
pub struct Title {
    text: Padded<MAX_LEN>,
}

impl Model for Title {
    ghost use Rattle.std.specs.Prelude.{ℕ, List, IsTrue};
    ghost use Rattle.nit_glyph.specs.Texts.{is_title};

    ghost Value = { List ℕ };

    ghost view = { λ t. t.text };

    ghost invariant = { λ t. IsTrue (is_title t.text) };

    ghost inverse = { λ text. record { text = text } };
}

impl Title {
    /// The title of these bytes, or `None` where they are no title.
    pub fn new(text: &[u8]) -> Option<Title>
        ensures exactly { IsSome result ↔ IsTrue (is_title text.now) }
        ensures bytes { IfSome result (λ title. title ≡ text.now) }
        ensures title { IfSome result (λ title. IsTrue (is_title title)) }
        ensures short { IfSome result (λ title. length title ≤ most_title) }
    {
        if !is_title(text) {
            return None;
        }
        Some(Title::of(text))
    }

    /// The title of these bytes, which are one.
    pub fn of(text: &[u8]) -> Title
        requires { IsTrue (is_title text.now) }
        ensures { result ≡ text.now }
    {
        let mut title = Padded::empty();
        title.append(text);
        Title { text: title }
    }

    /// The bytes of the title.
    pub fn as_bytes(&self) -> &[u8]
        ensures bytes { result.now ≡ self.now }
        ensures title { IsTrue (is_title self.now) }
        ensures short { length self.now ≤ most_title }
    {
        self.text.as_bytes()
    }
}

/// Whether these bytes are a title.
pub fn is_title(text: &[u8]) -> bool
    ensures { result ≡ is_title text.now }
{
    text.len() <= MAX_LEN && are_title_bytes(text)
}
