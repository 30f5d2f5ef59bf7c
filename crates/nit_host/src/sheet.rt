//! The words of one seat, as they were handed in.

ghost use Rattle.std.specs.Prelude.{◌≡◌, ◌+◌, ◌-◌, ◌*◌, ◌<◌, ◌≤◌, ◌%◌, ◌^◌, ◌++◌, All, IfOk};
ghost use Rattle.std.specs.Prelude.{length, slice_index, vec_capacity, vec_len, ℕ};
ghost use Rattle.nit_host.specs.Terms.{IsWord, SheetModel, blank_sheet, filled_up, handed_over};
ghost use Rattle.nit_host.specs.Terms.{is_between, low_bytes, plain_sight, set_where, zeros};

use nit_rect::NoMemory;
use nit_word::Glass;
use std::alloc::Global;
use std::marker::Model;

/// A word of a pixel is below this number.
const WORDS: u32 = 1 << 24;

/// The glass of a seat. Words from the first place that was never reached on are 0 and are not
/// kept, so that a blank sheet takes no time.
#[derive(Drop)]
pub(crate) struct Sheet {
    owner: u32,
    size: usize,
    reached: Vec<u32>,
}

impl Model for Sheet {
    ghost use Rattle.std.specs.Prelude.{◌≤◌, All, length, vec_capacity};
    ghost use Rattle.nit_host.specs.Below.{IsWord, filled_up, plain_sight};
    ghost use Rattle.nit_host.specs.Sheet.{SheetModel};

    ghost Value = { SheetModel };

    ghost view = { λ s. record {
      sight = plain_sight s.owner (filled_up s.size s.reached.items);
      room = vec_capacity s.reached;
    } };

    ghost invariant = { λ s. All IsWord s.reached.items × (length s.reached.items ≤ s.size) };
}

impl Sheet {
    /// A sheet of so many words, which are 0, with room for them. Only this takes memory.
    pub(crate) fn new(alloc: Global, owner: u32, size: usize) -> Result<Sheet, NoMemory>
        ensures sight { IfOk result (λ s. s.sight ≡ blank_sheet owner size) }
        ensures room { IfOk result (λ s. size ≤ s.room) }
    {
        Ok(Sheet {
            owner,
            size,
            reached: Vec::with_capacity(alloc, size)?,
        })
    }

    /// Each word is 0 again.
    pub(crate) fn wipe(&mut self)
        ensures sight { self.new.sight ≡ blank_sheet self.old.sight.owner self.old.sight.size }
        ensures room { self.old.room ≤ self.new.room }
    {
        self.reached.clear();
    }

    /// Sets the words at the places from `from` to before `to` to the low three bytes of those that
    /// stand there in `words`, which has these places, as the sheet has.
    pub(crate) fn hand_in(&mut self, from: usize, to: usize, words: &[u32])
        requires order { from ≤ to }
        requires words { to ≤ length words.now }
        requires places { to ≤ self.old.sight.size }
        requires room { self.old.sight.size ≤ self.old.room }
        ensures sight { self.new.sight ≡ handed_over from to words.now self.old.sight }
        ensures room { self.old.room ≤ self.new.room }
    {
        reach(&mut self.reached, to);
        set_row(&mut self.reached, from, to, words);
    }
}

/// Adds words that are 0 until there are at least so many. There is room for them.
fn reach(words: &mut Vec<u32>, count: usize)
    requires { count ≤ vec_capacity words.old }
    ensures items { words.new.items ≡ words.old.items ++ zeros (count - length words.old.items) }
    ensures reached { count ≤ vec_len words.new }
    ensures capacity { vec_capacity words.old ≤ vec_capacity words.new }
{
    if words.len() < count {
        let grown = words.resize(count, 0);
        let fits = grown.is_ok();
        prove!(fits);
    }
}

/// Sets the words at the places from `from` to before `to` to the low three bytes of those that
/// stand there in others.
fn set_row(words: &mut [u32], from: usize, to: usize, others: &[u32])
    requires order { from ≤ to }
    requires room { to ≤ length words.old }
    requires others { to ≤ length others.now }
    ensures { words.new ≡ set_where (is_between from to) (low_bytes others.now) words.old }
{
    'places: for i in from..to {
        words[i] = others[i] % WORDS;
    }
}

impl Glass for Sheet {
    type Rest = Sheet;

    ghost sight = { λ s. s.sight };

    ghost rest = { λ s. s };

    fn load(&mut self, i: usize) -> u32 {
        if i < self.reached.len() {
            self.reached[i]
        } else {
            0
        }
    }

    fn load_row(&mut self, from: usize, row: &mut [u32]) {
        read_row(&self.reached, from, row);
    }
}

/// Sets a row to the words from the place `from` on, and to 0 behind the last of them.
fn read_row(words: &[u32], from: usize, row: &mut [u32])
    ensures count { length row.new ≡ length row.old }
    ensures words { (j : ℕ) → j < length row.old
        → slice_index row.new j ≡ slice_index words.now (from + j) }
{
    if words.len() <= from {
        row.fill(0);
        return;
    }
    let known = row.len().min(words.len() - from);
    row[known..].fill(0);
    row[..known].copy_from_slice(&words[from..from + known]);
}
