//! What one client is given in a run by rounds, besides its scene.

use nit_plan::Plan;
use nit_script::Client;

/// A client's part of a run by rounds: its session, its script, and the script's plan.
#[derive(Clone, Copy)]
pub(crate) struct ClientPart<'a> {
    pub sid: u32,
    pub script: &'a Client,
    pub plan: &'a Plan,
}
