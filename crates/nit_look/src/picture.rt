//! A picture, and what changed in it.

ghost use Rattle.std.specs.Prelude.{◌≡◌, ◌≤◌, ◌<◌, ◌+◌, ◌*◌, ◌↔◌, None, IfSome, IsSome, length};
ghost use Rattle.std.specs.Prelude.{pos, ◌≤ℤ◌};
ghost use Rattle.nit_look.specs.Terms.{AgreeIn, AgreeOutside, AreEdges, CoversChange, IsMerged};
ghost use Rattle.nit_look.specs.Terms.{IsTouched, LiesOn, is_in_rows, most_height, most_width};
ghost use Rattle.nit_look.specs.Terms.{rectangle_between};

use crate::edges::{Edges, with_row};
use crate::span::copy_columns;
use nit_rect::Rect;

/// Copies into `out` what differs from it in the part of a frame of `width` columns and `height`
/// rows, and gives the least rectangle of the screen outside of which nothing was written. None
/// exactly where nothing was. In the part `out` then is the frame, and outside of it as before.
///
/// The width is 1..=4096 and the height at most 4096, and the part lies on the screen. Both lists
/// have a word for each pixel, row by row from the top. Where nothing differs each word of the part
/// is compared once. In each other row only the words from the first to the last that differ are
/// written. No word outside of the part is looked at.
pub fn look(
    frame: &[u32],
    width: usize,
    height: usize,
    part: &Rect,
    out: &mut [u32],
) -> Option<Rect>
    requires some { 1 ≤ width }
    requires wide { width ≤ most_width }
    requires high { height ≤ most_height }
    requires frame { length frame.now ≡ width * height }
    requires out { length out.old ≡ length frame.now }
    requires part { LiesOn width height part.now }
    ensures copied { AgreeIn width out.new frame.now part.now }
    ensures kept { AgreeOutside width out.new out.old part.now }
    ensures frame { AgreeOutside width out.old frame.now part.now → out.new ≡ frame.now }
    ensures none { result ≡ None ↔ out.old ≡ out.new }
    ensures screen { IfSome result (λ r. LiesOn width height r) }
    ensures inside { IfSome result (λ r. CoversChange width out.new out.old r) }
    ensures least { IfSome result (λ r. IsTouched width out.new out.old r) }
    ensures shown { IfSome result (λ r. AgreeIn width out.new frame.now r) }
{
    let columns = range(part.x(), part.w());
    let rows = range(part.y(), part.h());
    rectangle_of(copy(frame, width, columns, rows, out)?)
}

/// The first of the `long` places from `from` on, and the first one after them.
fn range(from: i32, long: u32) -> (usize, usize)
    requires { pos 0 ≤ℤ from }
    ensures from { pos result.0 ≡ from }
    ensures long { result.1 ≡ result.0 + long }
{
    (from as usize, from as usize + long as usize)
}

/// Copies these columns of these rows of the frame, and gives the edges of what differed.
fn copy(
    frame: &[u32],
    width: usize,
    columns: (usize, usize),
    rows: (usize, usize),
    out: &mut [u32],
) -> Option<Edges>
    requires some { 1 ≤ width }
    requires wide { width ≤ most_width }
    requires high { rows.1 ≤ most_height }
    requires columns { (columns.0 ≤ columns.1) × (columns.1 ≤ width) }
    requires order { rows.0 ≤ rows.1 }
    requires frame { width * rows.1 ≤ length frame.now }
    requires out { length out.old ≡ length frame.now }
    ensures copied { IsMerged (is_in_rows width columns.0 columns.1 rows.0 rows.1)
        frame.now out.old out.new }
    ensures edges { AreEdges width rows.1 out.new out.old result }
{
    let mut found = None;
    for row in rows.0..rows.1 {
        let at = row * width;
        let span = copy_columns(&frame[at..at + width], &mut out[at..at + width], columns);
        found = with_row(found, row, span);
    }
    found
}

/// The rectangle between the edges.
fn rectangle_of(edges: Edges) -> Option<Rect>
    requires across { edges.left ≤ edges.right }
    requires down { edges.top ≤ edges.bottom }
    requires wide { edges.right < most_width }
    requires high { edges.bottom < most_height }
    ensures some { IsSome result }
    ensures value { IfSome result (λ r. r ≡ rectangle_between edges) }
{
    Rect::new(
        edges.left as i32,
        edges.top as i32,
        (edges.right - edges.left + 1) as u32,
        (edges.bottom - edges.top + 1) as u32,
    )
}
