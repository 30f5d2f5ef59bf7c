//! Calls of sessions, and exactly the pixels that they make dirty.

ghost use Rattle.std.specs.Prelude.{◌≡◌, ◌-◌, ◌^◌, ◌<◌, true, None, length};
ghost use Rattle.nit_screen.specs.Terms.{AreGlasses, AreRaw, CanAccept, CanServe, IsCallShown};
ghost use Rattle.nit_screen.specs.Terms.{IsClean, IsQuiet, LoadsNothing, Painted, Some, after};
ghost use Rattle.nit_screen.specs.Terms.{false, is_accepted, is_rectangle, rectangle, serve};
ghost use Rattle.nit_screen.specs.Terms.{session, session_in, state_of};
ghost use Rattle.nit_events.specs.declared.call.Call.TheVariants as call;
ghost use Rattle.nit_events.specs.declared.entry.Entry.TheVariants as entry;

use crate::screen::Screen;
use nit_events::{Call, Reply};
use nit_glyph::Title;
use nit_rect::Rect;
use nit_stack::View;
use nit_word::Glasses;

impl Screen {
    /// Serves a call of a session: exactly the pixels that it makes dirty are loaded again.
    pub fn call<L: Glasses>(&mut self, sid: u32, call: &Call, glasses: &mut L) -> Reply
        requires session { sid < length self.old.serving.sessions }
        requires handles { (session_in self.old.serving.sessions sid).next < 2 ^ 32 - 1 }
        requires glasses { AreGlasses self.old.serving.config (L.sights glasses.old) }
        requires raw { AreRaw (state_of self.old.serving) self.old.raw }
        ensures reply { result ≡ (serve (session (state_of self.old.serving) sid) call.now).reply }
        ensures state { state_of self.new.serving ≡ after (state_of self.old.serving)
            (entry.Call sid call.now result) }
        ensures painted { Painted (state_of self.old.serving) (entry.Call sid call.now result)
            (state_of self.new.serving) (L.sights glasses.old) (L.sights glasses.new)
            self.old.raw self.new.raw }
        ensures rest { L.rest glasses.new ≡ L.rest glasses.old }
        ensures refused { is_accepted result ≡ false
            → (self.new.raw ≡ self.old.raw) × (glasses.new ≡ glasses.old) }
    {
        if let Some(reply) = self.server.refused(sid, call) {
            return reply;
        }
        match *call {
            Call::Place(handle, ..)
            | Call::Offset(handle, ..)
            | Call::Front(handle)
            | Call::Back(handle)
            | Call::Above(handle, _)
            | Call::Destroy(handle) => self.change_view(sid, handle, call, glasses),
            Call::Buffer(..) => self.change_buffer(sid, &None, call, glasses),
            Call::Refresh(x, y, w, h) => {
                let part = part(x, y, w, h);
                self.change_buffer(sid, &part, call, glasses)
            }
            Call::Close => self.close(sid, glasses),
            Call::View | Call::Title(..) => self.serve_clean(sid, call),
            Call::Take | Call::Upgrade(_) => self.serve_quiet(sid, call),
        }
    }

    /// Serves an accepted call that makes no pixel dirty.
    fn serve_clean(&mut self, sid: u32, call: &Call) -> Reply
        requires can { CanAccept self.old.serving sid call.now }
        requires clean { IsClean call.now }
        ensures { LoadsNothing sid call.now result self.old self.new }
    {
        self.server.facts();
        let reply = self.server.accept(sid, call);
        self.server.facts();
        self.pixels.show_views(&self.server);
        reply
    }

    /// Serves an accepted call that changes nothing of what is shown.
    fn serve_quiet(&mut self, sid: u32, call: &Call) -> Reply
        requires can { CanAccept self.old.serving sid call.now }
        requires quiet { IsQuiet call.now }
        ensures { LoadsNothing sid call.now result self.old self.new }
    {
        self.server.facts();
        let reply = self.server.accept(sid, call);
        self.server.facts();
        reply
    }
}

/// The part of a session's buffer.
fn part(x: i32, y: i32, w: u32, h: u32) -> Option<Rect>
    requires { is_rectangle x y w h ≡ true }
    ensures { result ≡ Some (rectangle x y w h) }
{
    match Rect::new(x, y, w, h) {
        Some(rect) => Some(rect),
        None => unreachable!(),
    }
}
