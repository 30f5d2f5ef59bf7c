//! The raw words of a scene, as the book of its room takes them.

use nit_ledger::HasRaw;
use nit_pixels::Lens;
use nit_scene::Scene;

/// A scene whose raw words stand after an entry of the book. Contracts alone know them.
#[derive(Drop)]
pub(crate) struct Shown<'s, 'a> {
    pub(crate) scene: &'s Scene<Lens<'a>>,
}

impl<'s, 'a> HasRaw for Shown<'s, 'a> {
    ghost raw = { λ s. s.scene.now.raw };
}
