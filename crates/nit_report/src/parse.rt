//! Journals, line by line.

ghost use Rattle.std.specs.Prelude.{◌≡◌, ◌≤◌, ℕ, List, length, Err, IfOk, IsOkAnd};
ghost use Rattle.nit_report.specs.Terms.{Entry, IsFirstBadEntry, IsJournalAnswer, ReadsJournal};
ghost use Rattle.nit_report.specs.Terms.{UnlessNoMemory, most_read};

use crate::entries::take_entry;
use crate::error::JournalError;
use nit_events::Entry;
use std::alloc::Global;

/// The entries that the bytes spell, of which there are at most 2^27. `Bad` comes exactly where a
/// line spells no entry, and names the first such line, from 1; bytes after the last line feed are
/// a line that spells none. Otherwise the entries are read, unless memory runs out.
pub fn parse_journal(alloc: Global, bytes: &[u8]) -> Result<Vec<Entry>, JournalError>
    requires { length bytes.now ≤ most_read }

    // What is read is spelled so, and what is spelled so is read, unless memory runs out.
    ensures read { IfOk result (λ v. ReadsJournal bytes.now v.items) }
    ensures reads { (entries : List Entry) → ReadsJournal bytes.now entries →
        UnlessNoMemory result (IsOkAnd result (λ v. v.items ≡ entries)) }
    // There are no more entries than bytes.
    ensures few { IfOk result (λ v. length v.items ≤ length bytes.now) }

    // Exactly the first line that spells no entry is named.
    ensures bad { (line : ℕ) → result ≡ Err (JournalError.Bad line)
        → IsFirstBadEntry bytes.now line }
    ensures is_bad { (line : ℕ) → IsFirstBadEntry bytes.now line →
        UnlessNoMemory result (result ≡ Err (JournalError.Bad line)) }
{
    entries_of(alloc, bytes)
}

fn entries_of(alloc: Global, bytes: &[u8]) -> Result<Vec<Entry>, JournalError>
    requires { length bytes.now ≤ most_read }
    ensures { IsJournalAnswer (λ v. v.items) bytes.now result }
{
    let mut entries = Vec::new(alloc);
    let mut rest = bytes;
    while !rest.is_empty() {
        let Some((entry, after)) = take_entry(rest) else {
            return Err(JournalError::Bad {
                line: entries.len() as u32 + 1,
            });
        };
        entries.push(entry)?;
        rest = after;
    }
    Ok(entries)
}
