use crate::call::{Call, Reply};
use crate::device::Device;
use crate::event::Routed;

/// One entry of the journal: one event of the server, whole.
#[derive(Clone, Copy, Debug, PartialEq, Eq)]
pub enum Entry {
    /// A session's call, with its answer. Sessions count from 0.
    Call { sid: u32, call: Call, reply: Reply },
    /// What the user did, with the deliveries.
    Input { dev: Device, routed: Routed },
    /// A picture was taken. Shots count from 1.
    Shot { number: u32 },
    /// The last picture was taken.
    Final,
}
