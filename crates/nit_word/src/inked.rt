//! A glass over words of its own that shows fixed colours alone.
ghost use Rattle.std.specs.Prelude.{◌≡◌, ℕ, ◌<◌, ◌≤◌, [], All, IfOk};
ghost use Rattle.nit_word.specs.Terms.{AreInkedBetween, IsInked, IsOfColours, IsWord, Sight};
ghost use Rattle.nit_word.specs.Terms.{filled_up, in_turn, inked_sight, slice_index};
ghost use Rattle.nit_word.specs.Terms.{is_between, set_where, stored, told_at, with_words, zeros};

use crate::glass::Glass;
use crate::words::Words;
use std::alloc::{AllocError, Global};
use std::marker::Model;

/// Words of one owner that the glass tells, each 0 or one of the colours of its ink. These never
/// change, and the glass keeps no log.
#[derive(Drop)]
pub struct Inked {
    owner: u32,
    words: Words,
    ink: Vec<u32>,
}

impl Model for Inked {
    ghost Value = { Sight };

    ghost view = { λ g. inked_sight g.owner g.words g.ink.items };

    ghost invariant = { λ g. All IsWord g.ink.items × All (IsOfColours g.ink.items) g.words };
}

impl Inked {
    /// A glass over these words, each of which is 0 or one of these colours. Each colour is below
    /// 2^24.
    pub fn new(owner: u32, words: Vec<u32>, ink: Vec<u32>) -> Inked
        requires ink { All IsWord ink.items }
        requires words { All (IsOfColours ink.items) words.items }
        ensures { result ≡ inked_sight owner words.items ink.items }
    {
        Inked {
            owner,
            words: Words::of(words),
            ink,
        }
    }

    /// A glass over so many words, which are 0, of these colours. Each is below 2^24. No call on
    /// the glass takes memory, and words after the last one that was set take no time.
    ///
    /// # Errors
    ///
    /// `AllocError` where memory runs out.
    pub fn blank(alloc: Global, owner: u32, size: usize, ink: Vec<u32>) -> Result<Inked, AllocError>
        requires ink { All IsWord ink.items }
        ensures { IfOk result (λ g. g ≡ inked_sight owner (zeros size) ink.items) }
    {
        Ok(Inked {
            owner,
            words: Words::blank(alloc, size)?,
            ink,
        })
    }

    /// Sets the word at place `i`, which is below the glass's size, to `w`, which is 0 or what the
    /// ink has there. Nothing else changes.
    pub fn store(&mut self, i: usize, w: u32)
        requires place { i < self.old.size }
        requires word { IsInked self.old.ink i w }
        ensures { self.new ≡ stored self.old i w }
    {
        self.words.set(i, w);
    }

    /// Sets the words at the places from `from` to before `to`, which is at most the glass's size,
    /// to `w`, which is 0 or what the ink has there. Nothing else changes.
    pub fn fill(&mut self, from: usize, to: usize, w: u32)
        requires order { from ≤ to }
        requires room { to ≤ self.old.size }
        requires word { AreInkedBetween self.old.ink from to (λ n. w) }
        ensures { self.new ≡ with_words (set_where (is_between from to) (λ n. w)) self.old }
    {
        self.words.fill(from, to, w);
    }

    /// Sets the words at the places from `from` to before `to`, which is at most the glass's size,
    /// to `c` and `d` in turn, the first one to `c`. Each is 0 or what the ink has there. Nothing
    /// else changes.
    pub fn alternate(&mut self, from: usize, to: usize, c: u32, d: u32)
        requires order { from ≤ to }
        requires room { to ≤ self.old.size }
        requires words { AreInkedBetween self.old.ink from to (in_turn from c d) }
        ensures { self.new
            ≡ with_words (set_where (is_between from to) (in_turn from c d)) self.old }
    {
        self.words.alternate(from, to, c, d);
    }

    /// Sets the words at the places from `from` to before `to`, which is at most the glass's size,
    /// to those that another glass of the same ink tells there, and to 0 where it tells none.
    /// Nothing else changes.
    pub fn copy(&mut self, from: usize, to: usize, other: &Inked)
        requires order { from ≤ to }
        requires room { to ≤ self.old.size }
        requires ink { other.now.ink ≡ self.old.ink }
        ensures { self.new
            ≡ with_words (set_where (is_between from to) (told_at other.now)) self.old }
    {
        self.words.copy(from, to, &other.words);
    }

    /// The words of the glass in their order, each below 2^24, and 0 or what the ink has there.
    /// Those that are left out at the end are 0.
    pub fn words(&self) -> &[u32]
        ensures sight { self.now
            ≡ record (inked_sight self.now.owner (filled_up self.now.size result.now) []) {
              ink = self.now.ink;
            } }
        ensures fits { All IsWord result.now }
        ensures inked { AreInkedBetween self.now.ink 0 self.now.size (slice_index result.now) }
    {
        self.words.reached()
    }
}

impl Glass for Inked {
    type Rest = ();

    ghost sight = { λ g. g };

    ghost rest = { λ _. tt };

    fn load(&mut self, i: usize) -> u32 {
        self.words.get(i)
    }

    fn load_row(&mut self, from: usize, row: &mut [u32]) {
        self.words.read(from, row);
    }
}
