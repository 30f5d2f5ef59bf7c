//! What the screen's pixels are loaded again by.

use nit_damage::Cutter;

/// What the screen's pixels are loaded again by: the cutter that says which are still to come, and
/// the raw words as they were loaded.
#[derive(Drop)]
pub struct Painter {
    pub cutter: Cutter,
    pub raw: Vec<u32>,
}
