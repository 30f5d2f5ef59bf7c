//! What follows a byte or a word in front of bytes.

ghost use Rattle.nit_script.specs.Terms.{Gives, byte_at, word_at};

/// What follows a byte.
pub fn take_byte(bytes: &[u8], wanted: u8) -> Option<&[u8]>
    ensures { Gives (λ x. x.now) result (byte_at wanted bytes.now) }
{
    match bytes {
        [first, rest @ ..] if *first == wanted => Some(rest),
        _ => None,
    }
}

/// What follows a word.
pub fn take_word<'a>(bytes: &'a [u8], wanted: &[u8]) -> Option<&'a [u8]>
    ensures { Gives (λ x. x.now) result (word_at wanted.now bytes.now) }
{
    bytes.strip_prefix(wanted)
}
