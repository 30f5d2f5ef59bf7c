//! Colours, texts, and the fields of a line, each with the space before it.

ghost use Rattle.std.specs.Prelude.{◌≡◌, ◌<◌, IfSome};
ghost use Rattle.nit_script.specs.Terms.{Gives, colour_at, colour_field, hex_value, int_field};
ghost use Rattle.nit_script.specs.Terms.{is_printable, nat_field, nibble_at, prefix_len, text_at};
ghost use Rattle.nit_script.specs.Terms.{text_field};

use crate::bytes::take_byte;
use crate::numbers::{take_integer, take_natural};
use nit_events::Text;

/// A number after a space.
pub fn natural_field(bytes: &[u8]) -> Option<(u32, &[u8])>
    ensures { Gives (λ x. (x.0, x.1.now)) result (nat_field bytes.now) }
{
    take_natural(take_byte(bytes, b' ')?)
}

/// A number that may have a minus, after a space.
pub fn integer_field(bytes: &[u8]) -> Option<(i32, &[u8])>
    ensures { Gives (λ x. (x.0, x.1.now)) result (int_field bytes.now) }
{
    take_integer(take_byte(bytes, b' ')?)
}

/// A colour after a space.
pub fn colour_field(bytes: &[u8]) -> Option<(u32, &[u8])>
    ensures { Gives (λ x. (x.0, x.1.now)) result (colour_field bytes.now) }
{
    take_colour(take_byte(bytes, b' ')?)
}

/// A text after an equals sign.
pub fn text_field(bytes: &[u8]) -> Option<(Text, &[u8])>
    ensures { Gives (λ x. (x.0, x.1.now)) result (text_field bytes.now) }
{
    take_text(take_byte(take_byte(bytes, b' ')?, b'=')?)
}

#[tactic(auto, unfolding(crate::specs::FieldReaders::colour_at))]
fn take_colour(bytes: &[u8]) -> Option<(u32, &[u8])>
    ensures { Gives (λ x. (x.0, x.1.now)) result (colour_at bytes.now) }
{
    let (a, rest) = take_nibble(bytes)?;
    let (b, rest) = take_nibble(rest)?;
    let (c, rest) = take_nibble(rest)?;
    let (d, rest) = take_nibble(rest)?;
    let (e, rest) = take_nibble(rest)?;
    let (f, rest) = take_nibble(rest)?;
    Some((((((a * 16 + b) * 16 + c) * 16 + d) * 16 + e) * 16 + f, rest))
}

fn take_nibble(bytes: &[u8]) -> Option<(u32, &[u8])>
    ensures read { Gives (λ x. (x.0, x.1.now)) result (nibble_at bytes.now) }
    ensures below { IfSome result (λ x. x.0 < 16) }
{
    match bytes {
        [first, rest @ ..] => Some((hex_digit(*first)?, rest)),
        [] => None,
    }
}

fn hex_digit(byte: u8) -> Option<u32>
    ensures read { Gives (λ x. x) result (hex_value byte) }
    ensures below { IfSome result (λ x. x < 16) }
{
    match byte {
        b'0'..=b'9' => Some((byte - b'0') as u32),
        b'A'..=b'F' => Some((byte - b'A') as u32 + 10),
        _ => None,
    }
}

/// The printable bytes in front, where they are a text.
#[tactic(auto, using(crate::proofs::Digits::front), unfolding(crate::specs::FieldReaders::text_at))]
fn take_text(bytes: &[u8]) -> Option<(Text, &[u8])>
    ensures { Gives (λ x. (x.0, x.1.now)) result (text_at bytes.now) }
{
    let (front, rest) = bytes.split_at(printable_count(bytes));
    Some((Text::new(front)?, rest))
}

/// How many printable bytes stand in front.
fn printable_count(bytes: &[u8]) -> usize
    ensures { result ≡ prefix_len is_printable bytes.now }
{
    bytes
        .iter()
        .take_while(|b| 0x20 <= **b && **b <= 0x7E)
        .count()
}
