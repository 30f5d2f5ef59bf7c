//! What a file is to hold, by a line of a case. `cases` has the language.

use crate::cases::bytes_of;
use crate::cases::table::{Case, number, worded};
use crate::checks::{fail, found_in, rule, same_by};
use std::alloc::Global;
use std::process::Abort;

/// A file holds what this line wants.
pub fn assert_file(
    rt: &impl Abort,
    alloc: Global,
    case: &Case,
    files: &[(String, Vec<u8>)],
    line: &str,
) {
    let (word, rest) = worded(line);
    let (name, want) = worded(rest);
    let found = found_in(rt, case.title, name, bytes_of(files, name));
    if word == "is" {
        let is_so = is_so(rt, alloc, case, found, want);
        same_by(rt, case.title, line, &is_so, &true);
    } else {
        let want = bytes(rt, alloc, case, word, want);
        same_by(rt, case.title, line, &found, &want.as_slice());
    }
}

/// The bytes that are wanted.
fn bytes(rt: &impl Abort, alloc: Global, case: &Case, word: &str, want: &str) -> Vec<u8> {
    match word {
        "holds" => case.text(rt, alloc, want).into_bytes(),
        "bytes" => hexadecimal(rt, alloc, &case.text(rt, alloc, want)),
        "picture" => picture(rt, alloc, case, want),
        _ => {
            fail(rt, word);
            Vec::new(alloc)
        }
    }
}

/// Whether it is as is wanted.
fn is_so(rt: &impl Abort, alloc: Global, case: &Case, found: &[u8], want: &str) -> bool {
    let (word, want) = worded(want);
    match word {
        "long" => found.len() as u64 == number(rt, want),
        "among" => is_among(rt, case, found, want),
        "all" => is_all(rt, found, want),
        "begins" => found.starts_with(case.text(rt, alloc, want).as_bytes()),
        "marked" => is_marked(rt, found, want),
        "one-of" => is_text(rt, alloc, case, found, want),
        _ => {
            fail(rt, word);
            false
        }
    }
}

/// The bytes of a text that has each of them in two hexadecimal digits.
fn hexadecimal(rt: &impl Abort, alloc: Global, text: &str) -> Vec<u8> {
    let mut bytes = Vec::new(alloc);
    for digits in text.split_whitespace() {
        let byte = u8::from_str_radix(digits, 16).expect(rt, "two digits");
        bytes.push(byte).expect(rt, "memory");
    }
    bytes
}

/// A picture of this width, height and text of rows.
fn picture(rt: &impl Abort, alloc: Global, case: &Case, want: &str) -> Vec<u8> {
    let (size, rows) = want.rsplit_once(' ').expect(rt, "a size and rows");
    let rows = case.text(rt, alloc, rows);
    assert_shape(rt, case, size, &rows);
    let head = format!(in alloc; "P6\n{size}\n255\n").expect(rt, "memory");
    let mut bytes = head.into_bytes();
    push_rows(rt, case, &mut bytes, &rows);
    bytes
}

/// The rows are as many as the size W H says, of as many letters.
fn assert_shape(rt: &impl Abort, case: &Case, size: &str, rows: &str) {
    let (width, height) = worded(size);
    let width = number(rt, width);
    let mut count: u64 = 0;
    for row in rows.lines() {
        let is_whole = row.len() as u64 == width;
        rule(rt, "a row has W letters", case.title, is_whole);
        count = count.saturating_add(1);
    }
    let is_whole = count == number(rt, height);
    rule(rt, "a picture has H rows", case.title, is_whole);
}

fn push_rows(rt: &impl Abort, case: &Case, bytes: &mut Vec<u8>, rows: &str) {
    for letter in rows.as_bytes() {
        if *letter != b'\n' {
            let pixel = found_in(rt, case.title, "a colour", colour(*letter));
            bytes.extend_from_slice(&pixel).expect(rt, "memory");
        }
    }
}

/// The letters, and the red, green and blue of each.
const COLOURS: [(u8, [u8; 3]); 12] = [
    (b'.', [0x00, 0x00, 0x20]),
    (b'R', [0xFF, 0x00, 0x00]),
    (b'G', [0x00, 0xFF, 0x00]),
    (b'B', [0x00, 0x00, 0xFF]),
    (b'K', [0x00, 0x00, 0x00]),
    (b'W', [0xFF, 0xFF, 0xFF]),
    (b'M', [0x80, 0x80, 0x80]),
    (b'r', [0x7F, 0x00, 0x00]),
    (b'b', [0x00, 0x00, 0x7F]),
    (b'n', [0x00, 0x00, 0x10]),
    (b'g', [0x00, 0x7F, 0x00]),
    (b't', [0x80, 0x00, 0x7F]),
];

/// The colour of a letter.
fn colour(letter: u8) -> Option<[u8; 3]> {
    for (of, colour) in &COLOURS {
        if *of == letter {
            return Some(*colour);
        }
    }
    None
}

/// Whether each pixel of a picture, whose front has 13 bytes, has one of these colours.
fn is_among(rt: &impl Abort, case: &Case, picture: &[u8], letters: &str) -> bool {
    assert_letters(rt, case, letters);
    let pixels = picture.get(13..).unwrap_or(&[]);
    !pixels.is_empty()
        && pixels
            .chunks(3)
            .all(|pixel| has_colour(pixel, letters.as_bytes()))
}

/// Each of these letters is a colour.
fn assert_letters(rt: &impl Abort, case: &Case, letters: &str) {
    for letter in letters.as_bytes() {
        let _pixel = found_in(rt, case.title, "a colour", colour(*letter));
    }
}

fn has_colour(pixel: &[u8], letters: &[u8]) -> bool {
    letters.iter().any(|letter| is_colour(pixel, *letter))
}

fn is_colour(pixel: &[u8], letter: u8) -> bool {
    match colour(letter) {
        Some(colour) => pixel == colour.as_slice(),
        None => false,
    }
}

/// Whether the bytes behind so many are all this one.
fn is_all(rt: &impl Abort, bytes: &[u8], want: &str) -> bool {
    let (byte, front) = worded(want);
    let byte = number(rt, byte);
    let rest = bytes.get(number(rt, front) as usize..).unwrap_or(&[]);
    !rest.is_empty() && rest.iter().all(|one| *one as u64 == byte)
}

/// Whether it is one of the texts of these names.
fn is_text(rt: &impl Abort, alloc: Global, case: &Case, found: &[u8], names: &str) -> bool {
    for name in names.split(' ') {
        if case.text(rt, alloc, name).as_bytes() == found {
            return true;
        }
    }
    false
}

/// Whether there are so many bytes, with this mark.
fn is_marked(rt: &impl Abort, bytes: &[u8], want: &str) -> bool {
    let (length, digits) = worded(want);
    let wanted = u32::from_str_radix(digits, 16).expect(rt, "eight digits");
    bytes.len() as u64 == number(rt, length) && mark(bytes) == wanted
}

/// A number that tells a text from most others: each byte adds to 31 times the number so far, cut
/// off to 32 bits.
fn mark(bytes: &[u8]) -> u32 {
    let mut mark: u32 = 0;
    for byte in bytes {
        mark = mark.wrapping_mul(31).wrapping_add(u32::from(*byte));
    }
    mark
}
