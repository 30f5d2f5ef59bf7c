//! Darker words, one at a time and a row at a time.

ghost use Rattle.std.specs.Prelude.{All};
ghost use Rattle.nit_word.specs.Inks.{IsWord};

use crate::checks::same;
use nit_word::{dim, dim_row, tint, tint_row};
use std::alloc::Global;
use std::process::Abort;

#[test]
fn words_by_hand(rt: HostRuntime) {
    let found = [dim(0xFF8040), tint(0xFF8040), dim(0)];
    same(&rt, "dim, tint, black", &found, &[0x7F4020, 0xFF4020, 0]);
}

#[test]
fn rows_as_their_words(rt: HostRuntime) {
    for count in 0..=MOST {
        let words = scattered_words(&rt, rt.alloc(), count, count);
        assert_shaded(&rt, rt.alloc(), &words);
    }
}

/// The most words that a row has here.
const MOST: u32 = 40;

/// So many words below 2^24, which a linear congruence gives from the seed on.
fn scattered_words(rt: &impl Abort, alloc: Global, seed: u32, count: u32) -> Vec<u32>
    ensures { All IsWord result.items }
{
    let mut state = seed;
    let mut words = Vec::new(alloc);
    'words: for _ in 0..count {
        state = state.wrapping_mul(1_664_525).wrapping_add(1_013_904_223);
        words.push(state / 0x100).expect(rt, "memory");
    }
    words
}

/// A row of these words is dimmed and tinted as the words are one by one.
fn assert_shaded(rt: &impl Abort, alloc: Global, words: &[u32])
    requires { All IsWord words.now }
{
    let mut dimmed = words.to_vec(alloc).expect(rt, "memory");
    dim_row(&mut dimmed);
    let mut tinted = words.to_vec(alloc).expect(rt, "memory");
    tint_row(&mut tinted);
    assert_darker(rt, words, &dimmed, &tinted);
}

fn assert_darker(rt: &impl Abort, words: &[u32], dimmed: &[u32], tinted: &[u32])
    requires { All IsWord words.now }
{
    for (k, word) in words.iter().enumerate() {
        let want = (k, Some(&dim(*word)), Some(&tint(*word)));
        same(
            rt,
            "a word, dimmed and tinted",
            &(k, dimmed.get(k), tinted.get(k)),
            &want,
        );
    }
}
