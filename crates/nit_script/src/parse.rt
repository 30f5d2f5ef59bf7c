//! Scripts, line by line.

ghost use Rattle.std.specs.Prelude.{◌≡◌, ◌≤◌, ℕ, List, length, Ok, Err, IfOk};
ghost use Rattle.nit_script.specs.Terms.{InputLine, IsFirstBad, IsFirstBadClient, IsFirstBadInput};
ghost use Rattle.nit_script.specs.Terms.{IsOkAnd, IsScriptAnswer, IsTooLong, IsTooLongClient};
ghost use Rattle.nit_script.specs.Terms.{IsTooLongInput, Line, Reads, ReadsClient, ReadsInput};
ghost use Rattle.nit_script.specs.Terms.{UnlessMemory, most_lines};

use crate::error::ScriptError;
use crate::script::{Client, Input};
use crate::script_line::ScriptLine;
use std::alloc::Global;

/// How many lines a script may have.
pub const MOST_LINES: u32 = 65_536;

/// The client's script that the bytes spell. `Bad` comes exactly where one of the first 65,536
/// lines has no reading, and names the first such line, from 1; bytes after the last line feed are
/// a line without a reading. `TooLong` comes exactly where each of these has a reading and a byte
/// stands after them. Otherwise the script is read, unless memory runs out.
pub fn parse_client(alloc: Global, bytes: &[u8]) -> Result<Client, ScriptError>
    // What is read is spelled so, and what is spelled so is read, unless memory runs out.
    ensures read { IfOk result (λ c. ReadsClient bytes.now c × (length c ≤ most_lines)) }
    ensures reads { (lines : List Line)
        → ReadsClient bytes.now lines → length lines ≤ most_lines
        → UnlessMemory result (result ≡ Ok lines) }

    // Exactly the first line without a reading is named.
    ensures bad { (line : ℕ) → result ≡ Err (ScriptError.Bad line)
        → IsFirstBadClient bytes.now line }
    ensures is_bad { (line : ℕ) → IsFirstBadClient bytes.now line →
        UnlessMemory result (result ≡ Err (ScriptError.Bad line)) }

    // Exactly where bytes stand after 65,536 lines.
    ensures long { result ≡ Err ScriptError.TooLong → IsTooLongClient bytes.now }
    ensures is_long { IsTooLongClient bytes.now
        → UnlessMemory result (result ≡ Err ScriptError.TooLong) }
{
    match parse_lines(alloc, bytes) {
        Ok(lines) => Ok(Client { lines }),
        Err(error) => Err(error),
    }
}

/// The input script that the bytes spell. It refuses as [`parse_client`] does, by the lines of an
/// input script.
pub fn parse_input(alloc: Global, bytes: &[u8]) -> Result<Input, ScriptError>
    // What is read is spelled so, and what is spelled so is read, unless memory runs out.
    ensures read { IfOk result (λ c. ReadsInput bytes.now c × (length c ≤ most_lines)) }
    ensures reads { (lines : List InputLine)
        → ReadsInput bytes.now lines → length lines ≤ most_lines
        → UnlessMemory result (result ≡ Ok lines) }

    // Exactly the first line without a reading is named.
    ensures bad { (line : ℕ) → result ≡ Err (ScriptError.Bad line)
        → IsFirstBadInput bytes.now line }
    ensures is_bad { (line : ℕ) → IsFirstBadInput bytes.now line →
        UnlessMemory result (result ≡ Err (ScriptError.Bad line)) }

    // Exactly where bytes stand after 65,536 lines.
    ensures long { result ≡ Err ScriptError.TooLong → IsTooLongInput bytes.now }
    ensures is_long { IsTooLongInput bytes.now
        → UnlessMemory result (result ≡ Err ScriptError.TooLong) }
{
    match parse_lines(alloc, bytes) {
        Ok(lines) => Ok(Input { lines }),
        Err(error) => Err(error),
    }
}

/// The lines that the bytes spell, of one kind. It refuses as [`parse_client`] does, by the lines
/// of this kind.
pub fn parse_lines<L: ScriptLine>(alloc: Global, bytes: &[u8]) -> Result<Vec<L>, ScriptError>
    // What is read is spelled so, and what is spelled so is read, unless memory runs out.
    ensures read { IfOk result (λ v. Reads L.Fits L.spelling bytes.now v.items
        × (length v.items ≤ most_lines)) }
    ensures reads { (lines : List L)
        → Reads L.Fits L.spelling bytes.now lines → length lines ≤ most_lines
        → UnlessMemory result (IsOkAnd result (λ v. v.items ≡ lines)) }

    // Exactly the first line without a reading is named.
    ensures bad { (line : ℕ) → result ≡ Err (ScriptError.Bad line)
        → IsFirstBad L.Fits L.spelling bytes.now line }
    ensures is_bad { (line : ℕ) → IsFirstBad L.Fits L.spelling bytes.now line →
        UnlessMemory result (result ≡ Err (ScriptError.Bad line)) }

    // Exactly where bytes stand after 65,536 lines.
    ensures long { result ≡ Err ScriptError.TooLong → IsTooLong L.Fits L.spelling bytes.now }
    ensures is_long { IsTooLong L.Fits L.spelling bytes.now
        → UnlessMemory result (result ≡ Err ScriptError.TooLong) }
{
    L::one_in_front();
    read_lines(alloc, bytes)
}

fn read_lines<L: ScriptLine>(alloc: Global, bytes: &[u8]) -> Result<Vec<L>, ScriptError>
    ensures { IsScriptAnswer L.Fits L.spelling bytes.now result }
{
    let mut lines = Vec::new(alloc);
    let mut rest = bytes;
    for number in 0..MOST_LINES {
        if rest.is_empty() {
            return Ok(lines);
        }
        let Some((found, after)) = L::take(rest) else {
            return Err(ScriptError::Bad { line: number + 1 });
        };
        lines.push(found)?;
        rest = after;
    }
    if rest.is_empty() {
        Ok(lines)
    } else {
        Err(ScriptError::TooLong)
    }
}
