//! What can be read of a scene.

ghost use Rattle.std.specs.Prelude.{◌≡◌, ◌+◌, ◌-◌, ◌<◌, length};
ghost use Rattle.nit_scene.specs.Terms.{IsConfiguration, reserved, session, state_now};
ghost use Rattle.nit_scene.specs.Terms.{views_in_use};

use crate::scene::Scene;
use nit_events::Status;
use nit_server::Counts;
use nit_word::Glass;

impl<G: Glass + Drop> Scene<G> {
    /// How many slots of views the sessions have for their opening donations, how many views there
    /// are now, and how many sessions.
    pub fn counts(&self) -> Counts
        ensures reserved { result.reserved ≡ reserved self.now.config }
        ensures used { result.used ≡ views_in_use (state_now self.now) }
        ensures sessions { result.sessions ≡ length self.now.config.clients }
    {
        self.screen.server().counts()
    }

    /// The width and the height of the screen, each 1..=4096 pixels.
    pub fn size(&self) -> (u32, u32)
        ensures size { result ≡ (self.now.config.width, self.now.config.height) }
        ensures configured { IsConfiguration self.now.config }
    {
        self.screen.server().size()
    }

    /// How many events the session `sid` has lost, since its queue held 64.
    pub fn lost(&self, sid: u32) -> u64
        requires { sid < length self.now.config.clients }
        ensures { result ≡ (session (state_now self.now) sid).lost }
    {
        self.screen.server().lost(sid)
    }

    /// How many events wait for the session `sid`.
    pub fn left(&self, sid: u32) -> u32
        requires { sid < length self.now.config.clients }
        ensures { result ≡ length (session (state_now self.now) sid).queue }
    {
        self.screen.server().left(sid)
    }

    /// Whether the session `sid` is served, or has ended.
    pub fn status(&self, sid: u32) -> Status
        requires { sid < length self.now.config.clients }
        ensures { result ≡ (session (state_now self.now) sid).status }
    {
        self.screen.server().status(sid)
    }

    /// The session that has the focus. `None` where no session has it.
    pub fn focus(&self) -> Option<u32>
        ensures { result ≡ (state_now self.now).input.focus }
    {
        self.screen.server().focus()
    }
}
