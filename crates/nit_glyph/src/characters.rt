//! The characters of labels and titles.

ghost use Rattle.std.specs.Prelude.{◌≡◌};
ghost use Rattle.nit_glyph.specs.Terms.{is_label_byte, is_title_byte, list_all};

/// Whether a label may have this byte: `a` to `z`, `0` to `9`, `-`, `.` or `_`.
pub(crate) fn is_label_byte(c: u8) -> bool
    ensures { result ≡ is_label_byte c }
{
    c.is_ascii_lowercase() || c.is_ascii_digit() || matches!(c, b'-' | b'.' | b'_')
}

/// Whether a title may have this byte: one of a label, or the space.
pub(crate) fn is_title_byte(c: u8) -> bool
    ensures { result ≡ is_title_byte c }
{
    is_label_byte(c) || c == b' '
}

/// Whether a label may have each of these bytes.
pub(crate) fn are_label_bytes(text: &[u8]) -> bool
    ensures { result ≡ list_all is_label_byte text.now }
{
    text.iter().all(|c| is_label_byte(*c))
}

/// Whether a title may have each of these bytes.
pub(crate) fn are_title_bytes(text: &[u8]) -> bool
    ensures { result ≡ list_all is_title_byte text.now }
{
    text.iter().all(|c| is_title_byte(*c))
}
