//! What a run with threads is given.

use std::alloc::Global;

/// What a run with threads is given of the machine that it is on: the threads and the waiting for
/// them, the memory, and the gate that each actor passes before each of its lines.
#[derive(Drop)]
pub struct ThreadHost<'h, R, G> {
    pub rt: &'h R,
    pub alloc: Global,
    pub gate: &'h G,
}
