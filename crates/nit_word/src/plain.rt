//! A glass over words of its own, each of which it may show.
ghost use Rattle.std.specs.Prelude.{◌≡◌, ◌<◌, All};
ghost use Rattle.nit_word.specs.Terms.{IsWord, Sight, plain_sight, plain_stored};

use crate::glass::Glass;
use std::marker::Model;

/// Words of one owner that the glass tells. They are all that its ink has, and it keeps no log.
#[derive(Drop)]
pub struct Plain {
    owner: u32,
    words: Vec<u32>,
}

impl Model for Plain {
    ghost Value = { Sight };

    ghost view = { λ g. plain_sight g.owner g.words.items };

    ghost invariant = { λ g. All IsWord g.words.items };
}

impl Plain {
    /// A glass over these words, each of which is below 2^24.
    pub fn new(owner: u32, words: Vec<u32>) -> Plain
        requires { All IsWord words.items }
        ensures { result ≡ plain_sight owner words.items }
    {
        Plain { owner, words }
    }

    /// Sets the word at place `i`, which is below the glass's size, to `w`, which is below 2^24.
    /// The ink changes with it, and nothing else does.
    pub fn store(&mut self, i: usize, w: u32)
        requires place { i < self.old.size }
        requires word { IsWord w }
        ensures { self.new ≡ plain_stored self.old i w }
    {
        self.words[i] = w;
    }

    /// The words of the glass in their order, each below 2^24.
    pub fn words(&self) -> &[u32]
        ensures sight { self.now ≡ plain_sight self.now.owner result.now }
        ensures fits { All IsWord result.now }
    {
        &self.words
    }
}

impl Glass for Plain {
    type Rest = ();

    ghost sight = { λ g. g };

    ghost rest = { λ _. tt };

    fn load(&mut self, i: usize) -> u32 {
        self.words[i]
    }

    fn load_row(&mut self, from: usize, row: &mut [u32]) {
        row.copy_from_slice(&self.words[from..from + row.len()]);
    }
}
