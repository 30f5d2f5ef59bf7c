//! What can be read of a server.

ghost use Rattle.std.specs.Prelude.{◌≡◌, ◌+◌, ◌-◌, ◌<◌, length};
ghost use Rattle.nit_server.specs.Terms.{IsServer, reserved, session_in, slots_of_all, state_of};
ghost use Rattle.nit_server.specs.Terms.{views_in_use};

use crate::server::{Server, slots_of_all};
use nit_events::Status;
use nit_glyph::Lettering;

/// How many slots of views the sessions have for their opening donations, how many views there are,
/// and how many sessions.
#[derive(Clone, Copy, Debug, PartialEq, Eq)]
pub struct Counts {
    pub reserved: u32,
    pub used: u32,
    pub sessions: u32,
}

impl Server {
    /// How many slots of views the sessions have for their opening donations, how many views there
    /// are now, and how many sessions.
    pub fn counts(&self) -> Counts
        ensures reserved { result.reserved ≡ reserved self.now.config }
        ensures used { result.used ≡ views_in_use (state_of self.now) }
        ensures sessions { result.sessions ≡ length self.now.config.clients }
    {
        let clients = self.config.clients.as_slice();
        let mut used = 0;
        for member in self.members.as_slice() {
            used += member.views();
        }
        Counts {
            reserved: slots_of_all(clients),
            used,
            sessions: clients.len() as u32,
        }
    }

    /// What the session `sid` has been donated, and what its reserve still has, in units.
    pub fn units(&self, sid: u32) -> (u32, u32)
        requires { sid < length self.now.sessions }
        ensures donation { result.0 ≡ (session_in self.now.sessions sid).donation }
        ensures reserve { result.1 ≡ (session_in self.now.sessions sid).reserve }
    {
        self.members[sid as usize].units()
    }

    /// How many events the session `sid` has lost, since its queue held 64.
    pub fn lost(&self, sid: u32) -> u64
        requires { sid < length self.now.sessions }
        ensures { result ≡ (session_in self.now.sessions sid).lost }
    {
        self.members[sid as usize].lost()
    }

    /// How many events wait for the session `sid`.
    pub fn left(&self, sid: u32) -> u32
        requires { sid < length self.now.sessions }
        ensures { result ≡ length (session_in self.now.sessions sid).queue }
    {
        self.members[sid as usize].left()
    }

    /// Whether the session `sid` is served, or has ended.
    pub fn status(&self, sid: u32) -> Status
        requires { sid < length self.now.sessions }
        ensures { result ≡ (session_in self.now.sessions sid).status }
    {
        self.members[sid as usize].status()
    }

    /// How texts are drawn.
    pub fn lettering(&self) -> Lettering
        ensures { result ≡ self.now.config.lettering }
    {
        self.lettering
    }

    /// The width and the height of the screen, each 1..=4096 pixels.
    pub fn size(&self) -> (u32, u32)
        ensures size { result ≡ (self.now.config.width, self.now.config.height) }
        ensures facts { IsServer self.now }
    {
        self.facts();
        (self.config.width, self.config.height)
    }
}
