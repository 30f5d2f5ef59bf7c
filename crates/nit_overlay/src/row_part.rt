//! A part of a row of the screen.

/// The pixels of the row `y` from the column `from` to before `to`.
#[derive(Clone, Copy)]
pub(crate) struct RowPart {
    pub y: u32,
    pub from: u32,
    pub to: u32,
}
