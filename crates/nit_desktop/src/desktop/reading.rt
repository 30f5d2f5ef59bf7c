//! What can be read of a desktop.

ghost use Rattle.std.specs.Prelude.{◌≡◌, ◌<◌, ◌≤◌, ◌*◌, IfSome, IsTrue, false, length, Some};
ghost use Rattle.std.specs.Prelude.{slice_get};
ghost use Rattle.nit_desktop.specs.Terms.{AreLive, IsConfiguration, IsFreeLabel, IsPlace};
ghost use Rattle.nit_desktop.specs.Terms.{bar_rows, member, most_picture_height, most_slots};
ghost use Rattle.nit_desktop.specs.Terms.{owner_of, refusal};
ghost use Rattle.nit_desktop.specs.Terms.{session, table_size, under_pointer};

use crate::desktop::Desktop;
use nit_events::{Call, Mode, Reply, Status};
use nit_glyph::Label;
use nit_rect::Point;
use nit_stack::View;

impl Desktop {
    /// How many more entries it serves.
    pub fn left(&self) -> u64
        ensures { result ≡ self.now.left }
    {
        self.left
    }

    /// What holds of every desktop.
    pub fn facts(&self)
        ensures config { IsConfiguration self.now.state.config }
        ensures sessions { length self.now.state.sessions ≡ length self.now.state.config.clients }
        ensures live { AreLive self.now.state }
        ensures pixels { length self.now.raw
            ≡ self.now.state.config.width * self.now.state.config.height }
    {
        self.screen.facts();
    }

    /// The refusal that a call of the session `sid` meets. None where it is accepted.
    pub fn refused(&self, sid: u32, call: &Call) -> Option<Reply>
        requires { sid < length self.now.state.sessions }
        ensures { result ≡ refusal (session self.now.state sid) call.now }
    {
        self.screen.server().refused(sid, call)
    }

    /// How many sessions there are, 1..=64.
    pub fn sessions(&self) -> u32
        ensures { result ≡ length self.now.state.sessions }
    {
        self.screen.server().counts().sessions
    }

    /// Whether the session `sid` is served, or has ended.
    pub fn status(&self, sid: u32) -> Status
        requires { sid < length self.now.state.sessions }
        ensures { result ≡ (session self.now.state sid).status }
    {
        self.screen.server().status(sid)
    }

    /// How many events wait for the session `sid`, at most 64.
    pub fn waiting(&self, sid: u32) -> u32
        requires { sid < length self.now.state.sessions }
        ensures { result ≡ length (session self.now.state sid).queue }
    {
        self.screen.server().left(sid)
    }

    /// How many events the session `sid` has lost since it opened, since 64 were waiting.
    pub fn lost(&self, sid: u32) -> u64
        requires { sid < length self.now.state.sessions }
        ensures { result ≡ (session self.now.state sid).lost }
    {
        self.screen.server().lost(sid)
    }

    /// What the session `sid` has been donated, and what its reserve still has, in units.
    pub fn units(&self, sid: u32) -> (u32, u32)
        requires { sid < length self.now.state.sessions }
        ensures donation { result.0 ≡ (session self.now.state sid).donation }
        ensures reserve { result.1 ≡ (session self.now.state sid).reserve }
    {
        self.screen.server().units(sid)
    }

    /// The handle of the next view of the session `sid`, from 1.
    pub fn next_handle(&self, sid: u32) -> u32
        requires { sid < length self.now.state.sessions }
        ensures { result ≡ (session self.now.state sid).next }
    {
        self.screen.server().next_handle(sid)
    }

    /// The label of the session `sid`.
    pub fn label(&self, sid: u32) -> Label
        requires { sid < length self.now.state.sessions }
        ensures { result ≡ (member self.now.state.config sid).label }
    {
        self.screen.server().label(sid)
    }

    /// The layer of the views of the session `sid`, 0..=7.
    pub fn layer(&self, sid: u32) -> u32
        requires { sid < length self.now.state.sessions }
        ensures { result ≡ (member self.now.state.config sid).layer }
    {
        self.screen.server().layer(sid)
    }

    /// Whether no session but `sid` has this label.
    pub fn is_free(&self, sid: u32, label: &Label) -> bool
        ensures free { IsTrue result → IsFreeLabel self.now.state.config sid label.now }
        ensures taken { result ≡ false → IsFreeLabel self.now.state.config sid label.now → ⊥ }
    {
        self.screen.server().is_free(sid, label)
    }

    /// The width and the height of the buffer of the session `sid`, in words: 0 by 0 before it has
    /// one. All its words are within the session's table.
    pub fn buffer(&self, sid: u32) -> (u32, u32)
        requires { sid < length self.now.state.sessions }
        ensures size { result
            ≡ ((session self.now.state sid).bw, (session self.now.state sid).bh) }
        ensures within { result.0 * result.1
            ≤ table_size (member self.now.state.config sid).donation }
    {
        self.screen.server().stack().buffer(sid)
    }

    /// How many views there are, at most 4,096.
    pub fn views(&self) -> u32
        ensures count { result ≡ length self.now.state.stack }
        ensures most { result ≤ most_slots }
    {
        self.screen.server().stack().len()
    }

    /// The view at place `i` from the front.
    pub fn view(&self, i: u32) -> View
        requires { i < length self.now.state.stack }
        ensures view { slice_get self.now.state.stack i ≡ Some result }
        ensures offset { IsPlace result.ox × IsPlace result.oy }
    {
        let stack = self.screen.server().stack();
        stack.view(stack.at(i))
    }

    /// The view that owns the pixel. None where no view does.
    pub fn owner(&self, p: Point) -> Option<View>
        ensures { result ≡ owner_of self.now.state p }
    {
        self.screen.server().owner(p)
    }

    /// The mode of the user's input.
    pub fn mode(&self) -> Mode
        ensures { result ≡ self.now.state.input.mode }
    {
        self.screen.server().mode()
    }

    /// The codes that are held, in the order in which they went down.
    pub fn held(&self) -> &[u16]
        ensures { result.now ≡ self.now.state.input.held }
    {
        self.screen.server().held()
    }

    /// The session that gets what is pressed and released while a code is held. None where no
    /// session does.
    pub fn receiver(&self) -> Option<u32>
        ensures receiver { result ≡ self.now.state.input.receiver }
        ensures known { IfSome result (λ sid. sid < length self.now.state.sessions) }
    {
        self.screen.server().receiver()
    }

    /// The session that has the focus. None where no session has it.
    pub fn focus(&self) -> Option<u32>
        ensures focus { result ≡ self.now.state.input.focus }
        ensures known { IfSome result (λ sid. sid < length self.now.state.sessions) }
    {
        self.screen.server().focus()
    }

    /// The session that the pointer was last told to. None where it is over no session.
    pub fn hover(&self) -> Option<u32>
        ensures hover { result ≡ self.now.state.input.hover }
        ensures known { IfSome result (λ sid. sid < length self.now.state.sessions) }
    {
        self.screen.server().hover()
    }

    /// The column and the row of the pointer, in pixels.
    pub fn pointer(&self) -> (u16, u16)
        ensures { result ≡ (self.now.state.input.x, self.now.state.input.y) }
    {
        self.screen.server().pointer()
    }

    /// The session of the view that owns the pixel under the pointer. None where no view does.
    pub fn under_pointer(&self) -> Option<u32>
        ensures { result ≡ under_pointer self.now.state }
    {
        self.screen.server().under_pointer()
    }

    /// The rows of the status bar, at most 72. 0: there is none.
    pub fn bar(&self) -> u32
        ensures rows { result ≡ bar_rows self.now.state.config }
        ensures few { result ≤ most_picture_height }
    {
        self.screen.facts();
        self.screen.server().stack().bar()
    }

    /// The width and the height of the screen, each 1..=4096 pixels.
    pub fn size(&self) -> (u32, u32)
        ensures { result ≡ (self.now.state.config.width, self.now.state.config.height) }
    {
        self.screen.server().size()
    }
}
