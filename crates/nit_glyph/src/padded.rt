//! A short text, held in place.

ghost use Rattle.std.specs.Prelude.{◌≡◌, ◌+◌, ◌≤◌, [], ◌++◌, length};
ghost use Rattle.nit_glyph.specs.Terms.{bytes_eq, nat_list_eq_equiv, partial_equiv_from_equiv};

use std::marker::Model;

/// A text of at most `N` bytes, held in place: the first `len` bytes of the array are the text, and
/// the others are 0. So equal texts are equal values.
#[derive(Clone, Copy, Debug)]
pub(crate) struct Padded<const N: usize> {
    bytes: [u8; N],
    len: usize,
}

impl<const N: usize> Model for Padded<N> {
    ghost use Rattle.std.specs.Prelude.{ℕ, List, length, take};
    ghost use Rattle.nit_glyph.specs.Padded.{padded, IsPadded};

    ghost Value = { List ℕ };

    ghost view = { λ p. take p.len p.bytes };

    ghost invariant = { λ p. IsPadded N p.bytes p.len };

    ghost inverse = { λ text. record { bytes = padded N text; len = length text } };

    ghost inverse_ok = { λ p h i. record { bytes = h.zeros i; len = h.counted i } };
}

impl<const N: usize> Padded<N> {
    /// The text of no bytes.
    pub(crate) fn empty() -> Self
        ensures { result ≡ [] }
    {
        Padded {
            bytes: [0; N],
            len: 0,
        }
    }

    /// Adds `text` at the end.
    pub(crate) fn append(&mut self, text: &[u8])
        requires { length self.old + length text.now ≤ N }
        ensures { self.new ≡ self.old ++ text.now }
    {
        let start = self.len;
        let end = start + text.len();
        let bytes = &mut self.bytes[..];
        bytes[start..end].copy_from_slice(text);
        self.len = end;
    }

    /// The bytes of the text.
    pub(crate) fn as_bytes(&self) -> &[u8]
        ensures bytes { result.now ≡ self.now }
        ensures short { length self.now ≤ N }
    {
        &self.bytes[..self.len]
    }
}

impl<const N: usize> PartialEq for Padded<N> {
    ghost eq = { bytes_eq };

    ghost laws = { partial_equiv_from_equiv nat_list_eq_equiv };

    fn eq(&self, other: &Self) -> bool {
        self.as_bytes() == other.as_bytes()
    }
}

impl<const N: usize> Eq for Padded<N> {
    ghost laws = { nat_list_eq_equiv };
}
