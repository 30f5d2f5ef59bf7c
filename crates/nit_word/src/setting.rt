//! Words that are set side by side.
ghost use Rattle.std.specs.Prelude.{◌≡◌, ℕ, ◌+◌, ◌<◌, ◌≤◌, length, slice_index};
ghost use Rattle.nit_word.specs.Terms.{in_turn, is_between, set_where};

/// Sets the words from the number `from` to before `to` to `w`.
pub(crate) fn fill_words(words: &mut [u32], from: usize, to: usize, w: u32)
    requires order { from ≤ to }
    requires room { to ≤ length words.old }
    ensures { words.new ≡ set_where (is_between from to) (λ n. w) words.old }
{
    words[from..to].fill(w);
}

/// Sets the words from the number `from` to before `to` to `c` and `d` in turn, the first one to
/// `c`.
pub(crate) fn alternate_words(words: &mut [u32], from: usize, to: usize, c: u32, d: u32)
    requires order { from ≤ to }
    requires room { to ≤ length words.old }
    ensures { words.new ≡ set_where (is_between from to) (in_turn from c d) words.old }
{
    take_turns(&mut words[from..to], c, d);
}

/// Sets the words to `c` and `d` in turn, the first one to `c`.
fn take_turns(words: &mut [u32], c: u32, d: u32)
    ensures { words.new ≡ set_where (is_between 0 (length words.old)) (in_turn 0 c d) words.old }
{
    'words: for (i, word) in words.iter_mut().enumerate() {
        *word = if i % 2 == 0 { c } else { d };
    }
}

/// Sets the words from the number `from` to before `to` to those of the others that have these
/// numbers.
pub(crate) fn copy_words(words: &mut [u32], from: usize, to: usize, others: &[u32])
    requires order { from ≤ to }
    requires room { to ≤ length words.old }
    requires others { to ≤ length others.now }
    ensures { words.new ≡ set_where (is_between from to) (slice_index others.now) words.old }
{
    words[from..to].copy_from_slice(&others[from..to]);
}

/// Sets a row to the words from the number `from` on, and to 0 after the last of them.
pub(crate) fn read_words(words: &[u32], from: usize, row: &mut [u32])
    ensures count { length row.new ≡ length row.old }
    ensures words { (j : ℕ) → j < length row.old
        → slice_index row.new j ≡ slice_index words.now (from + j) }
{
    let count = row.len();
    if words.len() <= from {
        row.fill(0);
        return;
    }
    let known = count.min(words.len() - from);
    row[..known].copy_from_slice(&words[from..from + known]);
    fill_words(row, known, count, 0);
}
