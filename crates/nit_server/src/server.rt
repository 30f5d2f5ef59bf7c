//! All sessions and their views, without the pixels.

ghost use Rattle.std.specs.Prelude.{◌≡◌, ◌-◌, ◌<◌, true, None, length, Some};
ghost use Rattle.nit_events.specs.declared.call.Call.TheVariants as call;
ghost use Rattle.nit_server.specs.Terms.{IsNamedBy, IsServer, IsServerInput, ServerModel, has_view};
ghost use Rattle.nit_server.specs.Terms.{refusal, session, session_in};

mod calls;
mod copy;
mod input;
mod opening;
mod reading;
mod seats;
mod sessions;
mod views;

use crate::member::KeptSession;
pub use input::killed;
use nit_config::Config;
use nit_events::{Call, Reply};
use nit_focus::Focus;
use nit_glyph::Lettering;
use nit_slots::Slots;
use nit_stack::{Stack, ViewRef};
use opening::slots_of_all;
pub use reading::Counts;
use std::marker::Model;

/// All sessions and their views: the stack, the members with their handles, the slots that they
/// share, and where the user's input goes.
#[derive(Drop)]
pub struct Server {
    pub(crate) config: Config,
    pub(crate) lettering: Lettering,
    pub(crate) stack: Stack,
    pub(crate) members: Vec<KeptSession>,
    pub(crate) slots: Slots,
    pub(crate) focus: Focus,
}

impl Model for Server {
    ghost use Rattle.nit_config.specs.Configuration.{lettered};
    ghost use Rattle.nit_server.specs.ServerInput.{IsServerInput};
    ghost use Rattle.nit_server.specs.Server.{ServerModel, AreServerParts, server_of};

    ghost Value = { ServerModel };

    ghost view = { λ s. server_of (lettered s.lettering s.config) s.stack s.members.items
        s.focus.input };

    ghost invariant = { λ s. AreServerParts (lettered s.lettering s.config) s.stack s.members.items
        s.slots
        × IsServerInput (lettered s.lettering s.config) s.focus };
}

impl Server {
    /// What holds of every server.
    pub fn facts(&self)
        ensures { IsServer self.now }
    {
        let _ = &self.stack;
    }

    /// The stack of all views.
    pub fn stack(&self) -> &Stack
        ensures stack { result.now ≡ self.now.stack }
        ensures facts { IsServer self.now }
    {
        &self.stack
    }

    /// The first refusal that a session's call meets. None where it is to be accepted.
    pub fn refused(&self, sid: u32, call: &Call) -> Option<Reply>
        requires { sid < length self.now.sessions }
        ensures { result ≡ refusal (session_in self.now.sessions sid) call.now }
    {
        self.members[sid as usize].refused(call)
    }

    /// The slot of a session's view.
    pub fn slot(&self, sid: u32, handle: u32) -> ViewRef
        requires session { sid < length self.now.sessions }
        requires held { has_view (session_in self.now.sessions sid) handle ≡ true }
        ensures { IsNamedBy result.0 sid handle self.now.stack.views }
    {
        ViewRef(self.members[sid as usize].slot(handle))
    }
}
