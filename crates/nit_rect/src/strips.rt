use crate::rect::Rect;

/// Four rectangles round a cut, which [`Rect::strips`] gives. What it promises is what they cover
/// together with the cut, and not how the pixels are shared out among them.
#[derive(Clone, Copy, Debug, PartialEq, Eq)]
pub struct Strips {
    pub top: Rect,
    pub left: Rect,
    pub right: Rect,
    pub bottom: Rect,
}
