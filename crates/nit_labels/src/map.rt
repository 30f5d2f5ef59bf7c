//! The map of owners.

ghost use Rattle.std.specs.Prelude.{◌≡◌, ◌+◌, ◌*◌, ◌<◌, true, false, length};
ghost use Rattle.nit_labels.specs.Terms.{IsAgainAbove, IsRowOf, owner_at};

/// Who owns the pixel in this column and row.
pub(crate) fn owner(own: &[u16], width: usize, height: usize, x: usize, y: usize) -> u16
    requires map { length own.now ≡ height * width }
    requires column { x < width }
    requires row { y < height }
    ensures { result ≡ owner_at own.now width x y }
{
    own[y * width + x]
}

/// The owners of the pixels of a row.
pub(crate) fn row_of(own: &[u16], width: usize, height: usize, y: usize) -> &[u16]
    requires map { length own.now ≡ height * width }
    requires row { y < height }
    ensures { IsRowOf (owner_at own.now width) width y result.now }
{
    let at = y * width;
    &own[at..at + width]
}

/// The row below; the last row has none, and stands for its own.
pub(crate) fn row_below(y: usize, height: usize) -> usize
    requires row { y < height }
    ensures within { result < height }
    ensures below { y + 1 < height → result ≡ y + 1 }
{
    if y + 1 < height { y + 1 } else { y }
}

/// Whether the row above is there and has the same owners.
pub(crate) fn is_again_above(own: &[u16], width: usize, height: usize, y: usize) -> bool
    requires map { length own.now ≡ height * width }
    requires row { y < height }
    ensures again { result ≡ true → (0 < y) × IsAgainAbove (owner_at own.now width) width y }
    ensures other { result ≡ false → 0 < y → IsAgainAbove (owner_at own.now width) width y → ⊥ }
{
    y > 0 && is_again(own, width, height, y)
}

/// Whether the row above has the same owners. It looks at all of both rows, which is faster than to
/// stop at the first difference.
fn is_again(own: &[u16], width: usize, height: usize, y: usize) -> bool
    requires map { length own.now ≡ height * width }
    requires above { 0 < y }
    requires row { y < height }
    ensures again { result ≡ true → IsAgainAbove (owner_at own.now width) width y }
    ensures other { result ≡ false → IsAgainAbove (owner_at own.now width) width y → ⊥ }
{
    let mut same = true;
    'columns: for x in 0..width {
        same = same & (owner(own, width, height, x, y - 1) == owner(own, width, height, x, y));
    }
    same
}
