//! The places at which two rows differ.

ghost use Rattle.std.specs.Prelude.{◌≡◌, ◌≢◌, ◌≤◌, ◌<◌, ℕ, length, true, false};
ghost use Rattle.nit_look.specs.Terms.{Differs, IsMerged, IsSpan, is_in_span};

/// The first and the last place at which two rows differ.
#[derive(Clone, Copy)]
pub(crate) struct Span {
    pub first: usize,
    pub last: usize,
}

/// Copies what of a row differs in the columns from the first to before the second, and gives its
/// span. None where nothing differs there.
pub(crate) fn copy_columns(now: &[u32], out: &mut [u32], columns: (usize, usize)) -> Option<Span>
    requires long { length out.old ≡ length now.now }
    requires order { columns.0 ≤ columns.1 }
    requires fits { columns.1 ≤ length now.now }
    ensures copied { IsMerged (is_in_span columns.0 columns.1) now.now out.old out.new }
    ensures span { IsSpan out.new out.old result }
{
    let (from, to) = columns;
    let span = copy_row(&now[from..to], &mut out[from..to])?;
    Some(Span {
        first: from + span.first,
        last: from + span.last,
    })
}

/// Copies the part of a row that differs, and gives its span. None where nothing differs.
fn copy_row(now: &[u32], out: &mut [u32]) -> Option<Span>
    requires { length out.old ≡ length now.now }
    ensures copied { out.new ≡ now.now }
    ensures span { IsSpan now.now out.old result }
{
    if same_words(now, out) {
        return None;
    }
    let first = first_difference(now, out);
    let last = last_difference(now, out, first);
    out[first..last + 1].copy_from_slice(&now[first..last + 1]);
    Some(Span { first, last })
}

/// Whether two rows are equal.
fn same_words(a: &[u32], b: &[u32]) -> bool
    ensures yes { result ≡ true → a.now ≡ b.now }
    ensures no { result ≡ false → a.now ≢ b.now }
{
    a == b
}

/// The first place at which two rows differ that are not equal.
fn first_difference(a: &[u32], b: &[u32]) -> usize
    requires long { length b.now ≡ length a.now }
    requires unequal { a.now ≢ b.now }
    ensures differs { Differs a.now b.now result }
    ensures fits { result < length a.now }
    ensures first { (k : ℕ) → Differs a.now b.now k → result ≤ k }
{
    let mut place = 0;
    'words: while place < a.len() - 1 && a[place] == b[place] {
        place += 1;
    }
    place
}

/// The last place at which two rows differ that differ at a place.
fn last_difference(a: &[u32], b: &[u32], first: usize) -> usize
    requires long { length b.now ≡ length a.now }
    requires fits { first < length a.now }
    requires differs { Differs a.now b.now first }
    ensures differs { Differs a.now b.now result }
    ensures fits { result < length a.now }
    ensures last { (k : ℕ) → Differs a.now b.now k → k ≤ result }
{
    let mut place = a.len() - 1;
    'words: while first < place && a[place] == b[place] {
        place -= 1;
    }
    place
}
