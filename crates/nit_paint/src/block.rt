//! Pixels of the screen in rows of one length.

ghost use Rattle.std.specs.Prelude.{◌≡◌, ◌+◌, ◌≤◌, pos, ◌+ℤ◌, ◌≤ℤ◌};
ghost use Rattle.nit_paint.specs.Below.{IsScreenRectangle, most_height, most_width, rectangle};

use nit_rect::Rect;

/// A rectangle that lies on the screen, and the width of the screen.
#[derive(Clone, Copy)]
pub(crate) struct Block {
    pub left: u32,
    pub top: u32,
    pub wide: u32,
    pub tall: u32,
    pub width: u32,
    ghost across: { left + wide ≤ width },
    ghost screen: { (1 ≤ width) × (width ≤ most_width) },
    ghost down: { top + tall ≤ most_height },
}

impl Block {
    /// The pixels of a rectangle on a screen of this width.
    pub fn new(r: &Rect, width: u32) -> Block
        requires screen { IsScreenRectangle r.now }
        requires right { (r.now.x +ℤ pos r.now.w) ≤ℤ pos width }
        requires width { (1 ≤ width) × (width ≤ most_width) }
        ensures rectangle { r.now
            ≡ rectangle (pos result.left) (pos result.top) result.wide result.tall }
        ensures width { result.width ≡ width }
    {
        Block {
            left: r.x() as u32,
            top: r.y() as u32,
            wide: r.w(),
            tall: r.h(),
            width,
        }
    }
}
