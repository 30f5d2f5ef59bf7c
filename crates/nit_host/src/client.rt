//! Whom a call names: a client on its seat.

use nit_rect::MOST_SESSIONS;

/// A client of a host: its seat, and which of all clients that came to the host it is, counted from
/// 1. It is 0 where the client sat there as the host opened. So each client has a name of its own,
/// and the next client of its seat has another.
#[derive(Clone, Copy, Debug, PartialEq, Eq)]
pub struct Client {
    /// The number of its seat, from 0.
    pub seat: u32,
    /// Its number among the clients that came, from 1, or 0.
    pub turn: u64,
}

/// For each seat that there may be, the turn of its client or of the last one, and how many clients
/// have come in all.
#[derive(Drop)]
pub(crate) struct Turns {
    pub of: [u64; MOST_SESSIONS],
    pub given: u64,
}
