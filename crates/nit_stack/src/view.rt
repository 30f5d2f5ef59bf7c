use nit_glyph::Title;
use nit_rect::Rect;

/// The number of the slot that keeps a view.
#[derive(Clone, Copy, Debug, PartialEq, Eq)]
pub struct ViewRef(pub u32);

/// A rectangle of the screen that shows a part of its session's buffer.
#[derive(Clone, Copy, Debug, PartialEq, Eq)]
pub struct View {
    /// The session, from 0.
    pub sid: u32,
    /// The view's name within its session, from 1.
    pub handle: u32,
    pub rect: Rect,
    /// How many columns the buffer is moved to the right: -32768..=32767.
    pub ox: i32,
    /// How many rows the buffer is moved down: -32768..=32767.
    pub oy: i32,
    pub title: Title,
}

/// Where the word of a pixel comes from.
#[derive(Clone, Copy, Debug, PartialEq, Eq)]
pub enum Source {
    /// No view owns the pixel.
    Bare,
    /// The view reaches past its session's buffer there.
    Black(ViewRef),
    /// This word of the buffer of the view's session.
    Word(ViewRef, u32),
}

/// A rectangle of the screen whose pixels have one owner, or none.
#[derive(Clone, Copy, Debug, PartialEq, Eq)]
pub struct Piece {
    pub rect: Rect,
    pub owner: Option<ViewRef>,
}
