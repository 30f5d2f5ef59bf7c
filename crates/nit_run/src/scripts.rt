//! The scripts of a run.

use nit_script::{Client, Input};

/// The scripts of a configuration's clients, in its order, and its input script.
#[derive(Drop)]
pub struct Scripts {
    pub clients: Vec<Client>,
    pub input: Input,
}
