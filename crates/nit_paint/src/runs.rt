//! Pixels that stand side by side.

ghost use Rattle.std.specs.Prelude.{◌≡◌, ℕ, ◌+◌, ◌<◌, ◌≤◌, length, IfSome, Some};
ghost use Rattle.nit_paint.specs.Terms.{PixelSource, Repainted, Sight, Word, in_run, long};
ghost use Rattle.nit_paint.specs.Terms.{most_buffer, own_word, row_source};

use crate::reach::Reach;
use nit_word::Glasses;

/// The word of a pixel that its view shows, but its buffer does not reach.
const BLACK: u32 = 0;

/// Gives `count` pixels from `at` on one word, for which nothing is loaded.
pub(crate) fn fill_run(raw: &mut [u32], at: usize, count: u32, word: u32)
    requires { at + count ≤ length raw.old }
    ensures painted { (source : ℕ → PixelSource) (glasses : ℕ → Sight)
        → ((j : ℕ) → j < count → own_word (source (at + j)) ≡ Some word)
        → Repainted source (in_run at count) (length raw.old) glasses glasses raw.old raw.new }
{
    raw[at..at + count as usize].fill(word);
}

/// Loads `count` pixels from `at` on at once: they show words of a session's buffer that stand side
/// by side too, the first one at `start`.
pub(crate) fn load_run<L: Glasses>(
    raw: &mut [u32],
    at: usize,
    count: u32,
    start: u32,
    sid: u32,
    glasses: &mut L,
)
    requires pixels { at + count ≤ length raw.old }
    requires words { start + count ≤ (L.sights glasses.old sid).size }
    ensures painted { (source : ℕ → PixelSource)
        → ((j : ℕ) → j < count → source (at + j) ≡ Word sid (start + j))
        → Repainted source (in_run at count) (length raw.old)
        (L.sights glasses.old) (L.sights glasses.new) raw.old raw.new }
    ensures size { (L.sights glasses.new sid).size ≡ (L.sights glasses.old sid).size }
    ensures rest { L.rest glasses.new ≡ L.rest glasses.old }
{
    glasses.load_row(sid, start as usize, &mut raw[at..at + count as usize]);
}

/// Paints the pixels of a row from `at` on, by a session's buffer. The words of the buffer's row
/// begin at `start`; where the buffer has no such row all pixels are black.
pub(crate) fn paint_row<L: Glasses>(
    raw: &mut [u32],
    at: usize,
    reach: &Reach,
    start: Option<u32>,
    sid: u32,
    glasses: &mut L,
)
    requires pixels { at + long reach.now ≤ length raw.old }
    requires words { IfSome start
        (λ s. s + (reach.now.from + reach.now.words) ≤ (L.sights glasses.old sid).size) }
    requires fits { IfSome start (λ s. s + (reach.now.from + reach.now.words) ≤ most_buffer) }
    ensures painted { (source : ℕ → PixelSource)
        → ((j : ℕ) → j < long reach.now → source (at + j) ≡ row_source sid reach.now start j)
        → Repainted source (in_run at (long reach.now)) (length raw.old)
        (L.sights glasses.old) (L.sights glasses.new) raw.old raw.new }
    ensures size { (L.sights glasses.new sid).size ≡ (L.sights glasses.old sid).size }
    ensures rest { L.rest glasses.new ≡ L.rest glasses.old }
{
    let Some(start) = start else {
        fill_run(raw, at, reach.before + reach.words + reach.after, BLACK);
        return;
    };
    let words = at + reach.before as usize;
    let after = words + reach.words as usize;
    fill_run(raw, at, reach.before, BLACK);
    load_run(raw, words, reach.words, start + reach.from, sid, glasses);
    fill_run(raw, after, reach.after, BLACK);
}
