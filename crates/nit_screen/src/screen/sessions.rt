//! Calls on a whole session, its end, and exactly the pixels that they make dirty.

ghost use Rattle.std.specs.Prelude.{◌≡◌, ◌<◌, length};
ghost use Rattle.nit_events.specs.declared.call.Call.TheVariants as call;
ghost use Rattle.nit_events.specs.declared.entry.Entry.TheVariants as entry;
ghost use Rattle.nit_events.specs.declared.event.Status.TheVariants as status;
ghost use Rattle.nit_screen.specs.Terms.{AreGlasses, ArePixels, CanServe, CanShowBy, IsCallShown};
ghost use Rattle.nit_screen.specs.Terms.{IsPartOf, Repainted, pixel, pixel_count, raw_of};
ghost use Rattle.nit_screen.specs.Terms.{session_owns, state_of, with_ended};
ghost use Rattle.nit_screen.specs.RawWords.{source_at as scene_source_at};

use crate::screen::Screen;
use crate::screen::pixels::Pixels;
use crate::screen::views::take_views_away;
use nit_events::{Call, Reply, Status};
use nit_rect::Rect;
use nit_server::Server;
use nit_word::Glasses;

impl Screen {
    /// Serves an accepted call that asks for the pixels of all views of its session, or of those
    /// that show this part of its buffer, and loads them again.
    pub(crate) fn change_buffer<L: Glasses>(
        &mut self,
        sid: u32,
        part: &Option<Rect>,
        call: &Call,
        glasses: &mut L,
    ) -> Reply
        requires can { CanServe self.old sid call.now (L.sights glasses.old) }
        requires on { IsPartOf part.now call.now }
        ensures shown { IsCallShown sid call.now result (L.sights glasses.old)
            (L.sights glasses.new) self.old self.new }
        ensures rest { L.rest glasses.new ≡ L.rest glasses.old }
    {
        self.server.facts();
        self.pixels.make_one(&self.server);
        let reply = self.server.accept(sid, call);
        let stack = self.server.stack();
        self.pixels.painter.paint_session(stack, sid, part, glasses);
        self.pixels.show_part(&self.server, sid, part);
        reply
    }

    /// Serves a session's accepted `Close`, and loads again exactly the pixels that it owned.
    pub(crate) fn close<L: Glasses>(&mut self, sid: u32, glasses: &mut L) -> Reply
        requires { CanServe self.old sid (call.Close) (L.sights glasses.old) }
        ensures shown { IsCallShown sid (call.Close) result (L.sights glasses.old)
            (L.sights glasses.new) self.old self.new }
        ensures rest { L.rest glasses.new ≡ L.rest glasses.old }
    {
        self.server.facts();
        take_views_away(&mut self.server, sid, &mut self.pixels.painter, glasses);
        self.server.end_session(sid, Status::Closed);
        self.server.facts();
        self.pixels.mark();
        Reply::Done
    }
}

/// Locks a session out, and loads again exactly the pixels that it owned.
pub(crate) fn kill_session<L: Glasses>(
    server: &mut Server,
    of: u32,
    pixels: &mut Pixels,
    glasses: &mut L,
)
    requires session { of < length server.old.sessions }
    requires can { CanShowBy server.old pixels.old }
    requires glasses { AreGlasses server.old.config (L.sights glasses.old) }
    ensures server { server.new ≡ with_ended of status.Killed server.old }
    ensures pixels { ArePixels server.new pixels.new }
    ensures painted { Repainted (scene_source_at (state_of server.new))
        (λ k. session_owns of (state_of server.old) (pixel server.old.config.width k))
        (pixel_count (state_of server.old)) (L.sights glasses.old) (L.sights glasses.new)
        (raw_of pixels.old) (raw_of pixels.new) }
    ensures rest { L.rest glasses.new ≡ L.rest glasses.old }
{
    server.facts();
    take_views_away(server, of, &mut pixels.painter, glasses);
    server.end_session(of, Status::Killed);
    server.facts();
    pixels.mark();
}
