//! The places in one row.

ghost use Rattle.std.specs.Prelude.{◌≡◌, ℕ, ◌+◌, ◌-◌, ◌*◌, ◌<◌, ◌≤◌, ◌^◌, length};
ghost use Rattle.nit_labels.specs.Terms.{AreDown, AreFoundFrom, IsOfRun, IsTop, most_edge};
ghost use Rattle.nit_labels.specs.Terms.{owner_at, spot, put_where, slice_index_or};

use crate::map::row_of;
use nit_rect::Point;

/// The first column of the run that ends with the column `x`: from there on up to `x` all columns
/// are tall and of one owner.
fn run_start(row: &[u16], down: &[u8], tall: u8, x: usize) -> usize
    requires column { x < length row.now }
    requires length { length down.now ≡ length row.now }
    requires tall { slice_index_or down.now x 0 ≡ tall }
    ensures within { result ≤ x }
    ensures run { (k : ℕ) → result ≤ k → k ≤ x → IsOfRun row.now down.now tall x k }
    ensures more { 0 < result → IsOfRun row.now down.now tall x (result - 1) → ⊥ }
{
    let owner = row[x];
    let mut start = x;
    'columns: while start > 0 && row[start - 1] == owner && down[start - 1] == tall {
        start -= 1;
    }
    start
}

/// Takes down the place for this owner, where the columns from there on are as many as its width.
fn put(found: &mut [Option<Point>], widths: &[u32], o: u16, run: usize, x: usize, y: usize)
    requires found { length found.old ≡ length widths.now }
    requires column { x ≤ most_edge }
    requires row { y ≤ most_edge }
    ensures { found.new ≡ put_where widths.now o run (spot x y) found.old }
{
    let o = o as usize;
    if o < widths.len() && widths[o] as usize <= run {
        found[o] = Some(Point {
            x: x as i32,
            y: y as i32,
        });
    }
}

/// From the places in the rows below to those from the row `y` on. Each run of tall columns of one
/// owner is passed at once: its first column is the least place in it.
pub(crate) fn place_row(
    own: &[u16],
    width: usize,
    height: usize,
    y: usize,
    widths: &[u32],
    tall: u8,
    down: &[u8],
    found: &mut [Option<Point>],
)
    requires map { length own.now ≡ height * width }
    requires width { width ≤ most_edge }
    requires height { height ≤ most_edge }
    requires row { y < height }
    requires top { IsTop (owner_at own.now width) width y }
    requires tall { 1 ≤ tall }
    requires length { length down.now ≡ width }
    requires down { AreDown (owner_at own.now width) width height tall y down.now }
    requires found { length found.old ≡ length widths.now }
    requires below { AreFoundFrom (owner_at own.now width) width height widths.now tall 0 (y + 1)
        found.old }
    ensures { AreFoundFrom (owner_at own.now width) width height widths.now tall 0 y found.new }
{
    let row = row_of(own, width, height, y);
    let mut x = width;
    'columns: while x > 0 {
        let end = x;
        x -= 1;
        if down[x] != tall {
            continue;
        }
        x = run_start(row, down, tall, x);
        put(found, widths, row[x], end - x, x, y);
    }
}
