//! Words of which those that were never reached take no time.
ghost use Rattle.std.specs.Prelude.{◌≡◌, ℕ, ◌+◌, ◌-◌, ◌<◌, ◌≤◌, ◌++◌, IfOk, length, slice_index};
ghost use Rattle.std.specs.Prelude.{slice_set, vec_capacity, vec_len};
ghost use Rattle.nit_word.specs.Terms.{filled_up, in_turn, is_between, set_where, zeros};

use crate::setting::{alternate_words, copy_words, fill_words, read_words};
use std::alloc::{AllocError, Global};
use std::marker::Model;

/// A fixed number of words, seen as their list. Those from the first place that was never reached
/// on are 0 and are not kept, so that they take no time. Only making them takes memory.
#[derive(Drop)]
pub(crate) struct Words {
    size: usize,
    reached: Vec<u32>,
}

impl Model for Words {
    ghost use Rattle.std.specs.Prelude.{ℕ, List, ◌≤◌, length, vec_capacity};
    ghost use Rattle.nit_word.specs.Zeros.{filled_up, HasRoom};

    ghost Value = { List ℕ };

    ghost view = { λ w. filled_up w.size w.reached.items };

    ghost invariant = { λ w. HasRoom (length w.reached.items) w.size (vec_capacity w.reached) };
}

impl Words {
    /// So many words that are 0.
    ///
    /// # Errors
    ///
    /// `AllocError` where memory runs out.
    pub(crate) fn blank(alloc: Global, size: usize) -> Result<Words, AllocError>
        ensures { IfOk result (λ w. w ≡ zeros size) }
    {
        Ok(Words {
            size,
            reached: Vec::with_capacity(alloc, size)?,
        })
    }

    /// These words.
    pub(crate) fn of(words: Vec<u32>) -> Words
        ensures { result ≡ words.items }
    {
        Words {
            size: words.len(),
            reached: words,
        }
    }

    /// The words as far as they were reached.
    pub(crate) fn reached(&self) -> &[u32]
        ensures { self.now ≡ filled_up (length self.now) result.now }
    {
        &self.reached
    }

    /// The word of this number.
    pub(crate) fn get(&self, i: usize) -> u32
        requires { i < length self.now }
        ensures { result ≡ slice_index self.now i }
    {
        if i < self.reached.len() {
            self.reached[i]
        } else {
            0
        }
    }

    /// Sets a row to the words from the number `from` on.
    pub(crate) fn read(&self, from: usize, row: &mut [u32])
        requires { from + length row.old ≤ length self.now }
        ensures count { length row.new ≡ length row.old }
        ensures words { (j : ℕ) → j < length row.old
            → slice_index row.new j ≡ slice_index self.now (from + j) }
    {
        read_words(&self.reached, from, row);
    }

    /// Sets the word of this number to `w`.
    pub(crate) fn set(&mut self, i: usize, w: u32)
        requires { i < length self.old }
        ensures { self.new ≡ slice_set self.old i w }
    {
        reach(&mut self.reached, i + 1);
        self.reached[i] = w;
    }

    /// Sets the words from the number `from` to before `to` to `w`.
    pub(crate) fn fill(&mut self, from: usize, to: usize, w: u32)
        requires order { from ≤ to }
        requires room { to ≤ length self.old }
        ensures { self.new ≡ set_where (is_between from to) (λ n. w) self.old }
    {
        if w == 0 {
            wipe(&mut self.reached, from, to);
            return;
        }
        reach(&mut self.reached, to);
        fill_words(&mut self.reached, from, to, w);
    }

    /// Sets the words from the number `from` to before `to` to `c` and `d` in turn, the first one
    /// to `c`.
    pub(crate) fn alternate(&mut self, from: usize, to: usize, c: u32, d: u32)
        requires order { from ≤ to }
        requires room { to ≤ length self.old }
        ensures { self.new ≡ set_where (is_between from to) (in_turn from c d) self.old }
    {
        reach(&mut self.reached, to);
        alternate_words(&mut self.reached, from, to, c, d);
    }

    /// Sets the words from the number `from` to before `to` to those of the others that have these
    /// numbers.
    pub(crate) fn copy(&mut self, from: usize, to: usize, others: &Words)
        requires order { from ≤ to }
        requires room { to ≤ length self.old }
        ensures { self.new ≡ set_where (is_between from to) (slice_index others.now) self.old }
    {
        let known = others.reached.len();
        if known <= from {
            wipe(&mut self.reached, from, to);
            return;
        }
        let end = to.min(known);
        reach(&mut self.reached, end);
        copy_words(&mut self.reached, from, end, &others.reached);
        wipe(&mut self.reached, end, to);
    }
}

/// Sets those of the words from the number `from` to before `to` that are kept to 0.
fn wipe(words: &mut Vec<u32>, from: usize, to: usize)
    requires { from ≤ to }
    ensures items { words.new.items
        ≡ set_where (is_between from to) (λ n. 0) words.old.items }
    ensures capacity { vec_capacity words.old ≤ vec_capacity words.new }
{
    let end = to.min(words.len());
    if from < end {
        fill_words(words, from, end, 0);
    }
}

/// Adds words that are 0 until there are at least so many. There is room for them.
fn reach(words: &mut Vec<u32>, count: usize)
    requires { count ≤ vec_capacity words.old }
    ensures items { words.new.items ≡ words.old.items ++ zeros (count - length words.old.items) }
    ensures reached { count ≤ vec_len words.new }
    ensures capacity { vec_capacity words.old ≤ vec_capacity words.new }
{
    if words.len() < count {
        let grown = words.resize(count, 0);
        let fits = grown.is_ok();
        prove!(fits);
    }
}
