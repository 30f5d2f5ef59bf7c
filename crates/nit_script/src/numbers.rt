//! Numbers in front of bytes.

ghost use Rattle.std.specs.Prelude.{◌≡◌, ◌<◌, ◌≤◌, ◌^◌, length, IfSome, IfNone, ℕ};
ghost use Rattle.nit_script.specs.Terms.{AllDigits, Gives, decimal, digits_value, int_at};
ghost use Rattle.nit_script.specs.Terms.{is_ascii_digit, is_number, nat_at, prefix_len};

use crate::bytes::take_byte;

/// The number below 10^9 that the whole text spells: `0`, or 1 to 9 digits of which the first is
/// not
/// `0`. None exactly where it spells none.
pub fn natural(text: &[u8]) -> Option<u32>
    ensures found { IfSome result (λ n. (n < 10 ^ 9) × (text.now ≡ decimal n)) }
    ensures none { IfNone result ((n : ℕ) → n < 10 ^ 9 → text.now ≡ decimal n → ⊥) }
{
    let (found, rest) = take_natural(text)?;
    if rest.is_empty() { Some(found) } else { None }
}

/// A number, and what follows it.
#[tactic(auto, using(crate::proofs::Digits::digits), unfolding(crate::specs::FieldReaders::nat_at))]
pub fn take_natural(bytes: &[u8]) -> Option<(u32, &[u8])>
    ensures read { Gives (λ x. (x.0, x.1.now)) result (nat_at bytes.now) }
    ensures below { IfSome result (λ x. x.0 < 10 ^ 9) }
{
    let (digits, rest) = bytes.split_at(digit_count(bytes));
    if is_natural(digits) {
        Some((value_of(digits), rest))
    } else {
        None
    }
}

/// A number that may have a minus in front, which 0 has not, and what follows it.
#[tactic(auto, unfolding(crate::specs::FieldReaders::int_at))]
pub fn take_integer(bytes: &[u8]) -> Option<(i32, &[u8])>
    ensures { Gives (λ x. (x.0, x.1.now)) result (int_at bytes.now) }
{
    if let Some(rest) = take_byte(bytes, b'-') {
        let (number, rest) = take_natural(rest)?;
        if number == 0 {
            return None;
        }
        Some((-(number as i32), rest))
    } else {
        let (number, rest) = take_natural(bytes)?;
        Some((number as i32, rest))
    }
}

/// How many digits stand in front.
fn digit_count(bytes: &[u8]) -> usize
    ensures { result ≡ prefix_len is_ascii_digit bytes.now }
{
    bytes.iter().take_while(|b| b.is_ascii_digit()).count()
}

/// Whether digits are 1 to 9, the first of several not 0.
fn is_natural(digits: &[u8]) -> bool
    ensures { result ≡ is_number digits.now }
{
    let len = digits.len();
    0 < len && len <= 9 && (digits[0] != b'0' || len == 1)
}

/// The number that at most nine digits spell.
#[tactic(auto, using(crate::proofs::Digits::values))]
fn value_of(digits: &[u8]) -> u32
    requires few { length digits.now ≤ 9 }
    requires all { AllDigits 10 digits.now }
    ensures value { result ≡ digits_value 10 digits.now }
    ensures below { result < 10 ^ 9 }
{
    let mut value: u32 = 0;
    for digit in digits {
        value = value * 10 + (*digit - b'0') as u32;
    }
    value
}
