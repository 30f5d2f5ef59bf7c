//! The outermost columns and rows in which two pictures differ.

ghost use Rattle.std.specs.Prelude.{◌≡◌, ◌≤◌, ◌<◌, ◌+◌, ◌*◌, ℕ, List, IfSome, length, slice_range};
ghost use Rattle.nit_look.specs.Terms.{AreEdges, IsSpan, picture_row};

use crate::span::Span;

/// The outermost columns and rows in which two pictures differ.
#[derive(Clone, Copy)]
pub(crate) struct Edges {
    pub left: usize,
    pub right: usize,
    pub top: usize,
    pub bottom: usize,
}

/// The edges of one row more, where `found` are those of all rows above.
pub(crate) fn with_row(found: Option<Edges>, row: usize, span: Option<Span>) -> Option<Edges>
    ensures { (width : ℕ) → (a b : List ℕ)
        → AreEdges width row a b found
        → IsSpan (picture_row width row a) (picture_row width row b) span
        → AreEdges width (row + 1) a b result }
{
    let Some(span) = span else { return found };
    let Some(edges) = found else {
        return Some(Edges {
            left: span.first,
            right: span.last,
            top: row,
            bottom: row,
        });
    };
    Some(Edges {
        left: edges.left.min(span.first),
        right: edges.right.max(span.last),
        top: edges.top,
        bottom: row,
    })
}
