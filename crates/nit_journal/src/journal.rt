//! The journal as the server keeps it: its room is taken at opening, and an entry takes no memory.

ghost use Rattle.std.specs.Prelude.{◌≡◌, ◌-◌, ◌≤◌, ◌++◌, ◌∷◌, [], IfOk};
ghost use Rattle.nit_journal.specs.Terms.{most_entries};

use nit_events::{Call, Entry, Reply};
use nit_rect::NoMemory;
use std::alloc::Global;
use std::marker::Model;

/// The entries so far, and for how many more there is room. Contracts see both.
#[derive(Drop)]
pub struct Journal {
    entries: Vec<Entry>,
    spare: usize,
}

impl Model for Journal {
    ghost use Rattle.std.specs.Prelude.{◌+◌, ◌≤◌, vec_len, vec_capacity};
    ghost use Rattle.nit_journal.specs.Journal.{JournalModel};

    ghost Value = { JournalModel };

    ghost view = { λ j. record { entries = j.entries.items; spare = j.spare } };

    ghost invariant = { λ j. vec_len j.entries + j.spare ≤ vec_capacity j.entries };
}

impl Journal {
    /// An empty journal with room for `n` entries, of which there are at most 1,114,113.
    pub fn with_room(alloc: Global, n: usize) -> Result<Journal, NoMemory>
        requires { n ≤ most_entries }
        ensures { IfOk result (λ j. j ≡ record { entries = []; spare = n }) }
    {
        Ok(Journal {
            entries: Vec::with_capacity(alloc, n)?,
            spare: n,
        })
    }

    /// The entry is last. It takes no memory.
    pub fn append(&mut self, entry: Entry)
        requires { 1 ≤ self.old.spare }
        ensures { self.new
            ≡ record { entries = self.old.entries ++ entry ∷ []; spare = self.old.spare - 1 } }
    {
        // The check finds the types inside an `Entry` only where the function names them.
        let _types: Option<(Call, Reply)> = None;
        self.entries.push_reserved(entry);
        self.spare -= 1;
    }

    /// All entries, in order.
    pub fn entries(&self) -> &[Entry]
        ensures { result.now ≡ self.now.entries }
    {
        self.entries.as_slice()
    }

    /// All entries, in order.
    pub fn into_entries(self) -> Vec<Entry>
        ensures { result.items ≡ self.entries }
    {
        let Journal { entries, spare: _ } = self;
        entries
    }
}
