//! What a run is given besides its scene.

use nit_plan::Plan;
use nit_script::{Client, Input};

/// The parts of a run: for each client, in order, its script and its plan, and the user's script.
#[derive(Clone, Copy)]
pub struct Parts<'a> {
    pub scripts: &'a [Client],
    pub plans: &'a [Plan],
    pub input: &'a Input,
}
