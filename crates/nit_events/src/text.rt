ghost use Rattle.std.specs.Prelude.{◌≡◌, ◌↔◌, IsTrue, IsSome, IfSome};
ghost use Rattle.nit_events.specs.Terms.{is_printable, is_text, list_all};

use nit_rect::{FIRST_PRINTABLE, LAST_PRINTABLE};
use std::marker::Model;

/// How many bytes a text may have.
const MOST: usize = 40;

/// Up to 40 bytes of printable ASCII, 0x20..=0x7E, seen as their list.
#[derive(Clone, Copy, Debug, PartialEq, Eq)]
pub struct Text {
    bytes: [u8; MOST],
    len: u8,
}

impl Model for Text {
    ghost use Rattle.std.specs.Prelude.{◌≡◌, ℕ, List, length, take, drop, true};
    ghost use Rattle.nit_events.specs.Text.{is_text, HasZerosBehind, bytes_again, with_zeros};
    ghost use Rattle.nit_events.specs.Text.{length_again};

    ghost Value = { List ℕ };

    ghost view = { λ t. take t.len t.bytes };

    ghost invariant = { λ t. HasZerosBehind t.bytes t.len × (is_text (take t.len t.bytes) ≡ true) };

    ghost inverse = { λ s. record { bytes = with_zeros s; len = length s } };

    ghost inverse_ok = { λ t h i. record {
      bytes = bytes_again t.bytes t.len h.0 i;
      len = length_again t.bytes t.len h.0 i;
    } };
}

impl Text {
    /// The text of these bytes. None exactly where there are more than 40, or one is not printable.
    pub fn new(bytes: &[u8]) -> Option<Text>
        ensures some { IsSome result ↔ IsTrue (is_text bytes.now) }
        ensures value { IfSome result (λ t. t ≡ bytes.now) }
    {
        if !is_text(bytes) {
            return None;
        }
        Some(Text::of(bytes))
    }

    /// The text of these bytes, which are one.
    pub fn of(bytes: &[u8]) -> Text
        requires { IsTrue (is_text bytes.now) }
        ensures { result ≡ bytes.now }
    {
        let mut kept = [0u8; MOST];
        kept[..bytes.len()].copy_from_slice(bytes);
        Text {
            bytes: kept,
            len: bytes.len() as u8,
        }
    }

    /// The bytes.
    pub fn as_bytes(&self) -> &[u8]
        ensures value { result.now ≡ self.now }
        ensures text { IsTrue (is_text result.now) }
    {
        &self.bytes[..self.len as usize]
    }
}

/// Whether these bytes are a text.
fn is_text(bytes: &[u8]) -> bool
    ensures { result ≡ is_text bytes.now }
{
    bytes.len() <= MOST && are_printable(bytes)
}

fn are_printable(bytes: &[u8]) -> bool
    ensures { result ≡ list_all is_printable bytes.now }
{
    bytes
        .iter()
        .all(|b| FIRST_PRINTABLE <= *b && *b <= LAST_PRINTABLE)
}
