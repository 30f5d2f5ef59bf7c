//! Darker words, a word or a row of words at a time.
ghost use Rattle.std.specs.Prelude.{◌≡◌, ℕ, All, map};
ghost use Rattle.nit_word.specs.Terms.{IsWord, dim, tint};

use std::simd::prelude::*;

/// How many words a block has.
const LANES: usize = 8;

/// The seven low bits of each channel.
const LOW_BITS: u32 = 0x7f7f7f;

/// 128 in the red channel.
const HALF_RED: u32 = 0x800000;

/// The word with each channel halved, rounded down. The word is below 2^24.
pub fn dim(w: u32) -> u32
    requires { IsWord w }
    ensures { result ≡ dim w }
{
    (w >> 1) & LOW_BITS
}

/// The word with each channel halved, rounded down, and then 128 added to the red one. The word is
/// below 2^24.
pub fn tint(w: u32) -> u32
    requires { IsWord w }
    ensures { result ≡ tint w }
{
    dim(w) | HALF_RED
}

/// Sets each word of the row to its `dim`. Each is below 2^24.
pub fn dim_row(row: &mut [u32])
    requires { All IsWord row.old }
    ensures { row.new ≡ map dim row.old }
{
    shade_row::<Dimmed>(row)
}

/// Sets each word of the row to its `tint`. Each is below 2^24.
pub fn tint_row(row: &mut [u32])
    requires { All IsWord row.old }
    ensures { row.new ≡ map tint row.old }
{
    shade_row::<Tinted>(row)
}

/// A rule that gives a word for a word, for one word and for a block of them.
trait Shade {
    ghost shade: { ℕ → ℕ };

    fn word(w: u32) -> u32
        requires { IsWord w }
        ensures { result ≡ shade w };

    fn block(words: u32x8) -> u32x8
        requires { All IsWord words }
        ensures { result ≡ map shade words };
}

struct Dimmed;

impl Shade for Dimmed {
    ghost shade = { dim };

    fn word(w: u32) -> u32 {
        dim(w)
    }

    fn block(words: u32x8) -> u32x8 {
        (words >> u32x8::splat(1)) & u32x8::splat(LOW_BITS)
    }
}

struct Tinted;

impl Shade for Tinted {
    ghost shade = { tint };

    fn word(w: u32) -> u32 {
        tint(w)
    }

    fn block(words: u32x8) -> u32x8 {
        Dimmed::block(words) | u32x8::splat(HALF_RED)
    }
}

/// Sets each word of the row to what the rule gives for it, by blocks as far as they go.
fn shade_row<S: Shade>(row: &mut [u32])
    requires { All IsWord row.old }
    ensures { row.new ≡ map S.shade row.old }
{
    let mut at = 0;
    'blocks: while row.len() - at >= LANES {
        let block = u32x8::from_slice(&row[at..]);
        S::block(block).copy_to_slice(&mut row[at..]);
        at += LANES;
    }
    shade_words::<S>(&mut row[at..]);
}

/// Sets each word of the row to what the rule gives for it, one by one.
fn shade_words<S: Shade>(row: &mut [u32])
    requires { All IsWord row.old }
    ensures { row.new ≡ map S.shade row.old }
{
    'words: for w in row.iter_mut() {
        *w = S::word(*w);
    }
}
