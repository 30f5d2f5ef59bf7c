//! Clip scripts.

ghost use Rattle.std.specs.Prelude.{◌≡◌, ◌≤◌, ℕ, List, length, Ok, Err, IfOk};
ghost use Rattle.nit_clip.specs.Terms.{ClipLine, IsFirstBadClip, IsTooLongClip, ReadsClip};
ghost use Rattle.nit_clip.specs.Terms.{UnlessMemory, most_lines};

use crate::ClipError;
use crate::script::ClipScript;
use nit_script::parse_lines;
use std::alloc::Global;

/// The clip script that the bytes spell. `Bad` comes exactly where one of the first 65,536 lines
/// has no reading, and names the first such line, from 1; bytes after the last line feed are a
/// line without a reading. `TooLong` comes exactly where each of these has a reading and a byte
/// stands after them. Otherwise the script is read, unless memory runs out.
pub fn parse_clip(alloc: Global, bytes: &[u8]) -> Result<ClipScript, ClipError>
    // What is read is spelled so, and what is spelled so is read, unless memory runs out.
    ensures read { IfOk result (λ c. ReadsClip bytes.now c × (length c ≤ most_lines)) }
    ensures reads { (lines : List ClipLine) → ReadsClip bytes.now lines
        → length lines ≤ most_lines → UnlessMemory result (result ≡ Ok lines) }

    // Exactly the first line without a reading is named.
    ensures bad { (line : ℕ) →
        result ≡ Err (ClipError.Bad line) → IsFirstBadClip bytes.now line }
    ensures is_bad { (line : ℕ) → IsFirstBadClip bytes.now line →
        UnlessMemory result (result ≡ Err (ClipError.Bad line)) }

    // Exactly where bytes stand after 65,536 lines.
    ensures long { result ≡ Err ClipError.TooLong → IsTooLongClip bytes.now }
    ensures is_long { IsTooLongClip bytes.now →
        UnlessMemory result (result ≡ Err ClipError.TooLong) }
{
    match parse_lines(alloc, bytes) {
        Ok(lines) => Ok(ClipScript { lines }),
        Err(error) => Err(error),
    }
}
