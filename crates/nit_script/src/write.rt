//! Words and fields at the end of bytes.

ghost use Rattle.std.specs.Prelude.{◌≡◌, ◌++◌, ◌%◌, OnOk, OnErr};
ghost use Rattle.nit_script.specs.Terms.{KeepsBytes, colour, field_spelling, flat_map, hex};
ghost use Rattle.nit_script.specs.Terms.{hex_digits, int, nat, text};

use nit_events::Text;
use nit_rect::NoMemory;
use std::alloc::Global;

/// A field of a line.
#[derive(Clone, Copy)]
pub enum Field {
    Natural(u32),
    Integer(i32),
    Colour(u32),
    Text(Text),
}

/// Writes a word and its fields. Where memory runs out, what was written is cut off again.
pub fn put_words(
    alloc: Global,
    out: &mut Vec<u8>,
    word: &[u8],
    fields: &[Field],
) -> Result<(), NoMemory>
    ensures written { OnOk result (out.new.items
        ≡ out.old.items ++ (word.now ++ flat_map field_spelling fields.now)) }
    ensures unchanged { OnErr result (out.new.items ≡ out.old.items) }
{
    let before = out.len();
    let written = put_parts(alloc, out, word, fields);
    if written.is_err() {
        out.truncate(before);
    }
    written
}

/// Writes a word and its fields, or a front of them.
#[tactic(auto, using(crate::proofs::LinePieces::keeps))]
fn put_parts(
    alloc: Global,
    out: &mut Vec<u8>,
    word: &[u8],
    fields: &[Field],
) -> Result<(), NoMemory>
    ensures written { OnOk result (out.new.items
        ≡ out.old.items ++ (word.now ++ flat_map field_spelling fields.now)) }
    ensures kept { OnErr result (KeepsBytes out.old.items out.new.items) }
{
    out.extend_from_slice(word)?;
    put_fields(alloc, out, fields)
}

#[tactic(auto, using(crate::proofs::LinePieces::keeps))]
fn put_fields(alloc: Global, out: &mut Vec<u8>, fields: &[Field]) -> Result<(), NoMemory>
    ensures written { OnOk result (out.new.items
        ≡ out.old.items ++ flat_map field_spelling fields.now) }
    ensures kept { OnErr result (KeepsBytes out.old.items out.new.items) }
{
    for field in fields {
        put_field(alloc, out, field)?;
    }
    Ok(())
}

fn put_field(alloc: Global, out: &mut Vec<u8>, field: &Field) -> Result<(), NoMemory>
    ensures written { OnOk result (out.new.items ≡ out.old.items ++ field_spelling field.now) }
    ensures kept { OnErr result (KeepsBytes out.old.items out.new.items) }
{
    match field {
        Field::Natural(number) => put_natural(alloc, out, *number),
        Field::Integer(number) => put_integer(alloc, out, *number),
        Field::Colour(colour) => put_colour(out, *colour),
        Field::Text(text) => put_text(out, text),
    }
}

#[tactic(auto, using(crate::proofs::LinePieces::keeps))]
fn put_natural(alloc: Global, out: &mut Vec<u8>, number: u32) -> Result<(), NoMemory>
    ensures written { OnOk result (out.new.items ≡ out.old.items ++ nat number) }
    ensures kept { OnErr result (KeepsBytes out.old.items out.new.items) }
{
    let digits = format!(in alloc; " {number}")?;
    out.extend_from_slice(digits.as_bytes())?;
    Ok(())
}

#[tactic(auto, using(crate::proofs::LinePieces::keeps))]
fn put_integer(alloc: Global, out: &mut Vec<u8>, number: i32) -> Result<(), NoMemory>
    ensures written { OnOk result (out.new.items ≡ out.old.items ++ int number) }
    ensures kept { OnErr result (KeepsBytes out.old.items out.new.items) }
{
    let digits = format!(in alloc; " {number}")?;
    out.extend_from_slice(digits.as_bytes())?;
    Ok(())
}

#[tactic(auto, using(crate::proofs::LinePieces::keeps))]
fn put_colour(out: &mut Vec<u8>, number: u32) -> Result<(), NoMemory>
    ensures written { OnOk result (out.new.items ≡ out.old.items ++ colour number) }
    ensures kept { OnErr result (KeepsBytes out.old.items out.new.items) }
{
    out.push(b' ')?;
    out.extend_from_slice(&colour_digits(number))?;
    Ok(())
}

#[tactic(auto, using(crate::proofs::LinePieces::keeps))]
fn put_text(out: &mut Vec<u8>, title: &Text) -> Result<(), NoMemory>
    ensures written { OnOk result (out.new.items ≡ out.old.items ++ text title.now) }
    ensures kept { OnErr result (KeepsBytes out.old.items out.new.items) }
{
    out.extend_from_slice(b" =")?;
    out.extend_from_slice(title.as_bytes())?;
    Ok(())
}

/// The last six digits of a number in base 16.
#[tactic(auto, using(crate::proofs::LinePieces::sixes))]
fn colour_digits(colour: u32) -> [u8; 6]
    ensures { result ≡ hex_digits 6 colour }
{
    [
        hex_digit(colour / 0x10_0000),
        hex_digit(colour / 0x1_0000),
        hex_digit(colour / 0x1000),
        hex_digit(colour / 0x100),
        hex_digit(colour / 0x10),
        hex_digit(colour),
    ]
}

/// The last digit of a number in base 16.
fn hex_digit(number: u32) -> u8
    ensures { result ≡ hex (number % 16) }
{
    let digit = (number % 16) as u8;
    if digit < 10 {
        b'0' + digit
    } else {
        b'A' - 10 + digit
    }
}
