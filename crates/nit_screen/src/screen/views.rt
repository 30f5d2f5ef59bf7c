//! Calls on one view, and exactly the pixels that they make dirty.

ghost use Rattle.nit_screen.specs.Terms.{CanRepaint, CanServe, IsCallShown, IsNamedBy, IsOn};
ghost use Rattle.nit_screen.specs.Terms.{IsRepaint, SlotView, Some, has_view, is_of_session};
ghost use Rattle.nit_screen.specs.Terms.{owner_passes, pixel, place_of, session_in, slot_view_in};
ghost use Rattle.nit_screen.specs.Terms.{source_of_number, without_session, without_views};
ghost use Rattle.std.specs.Prelude.{◌≡◌, ◌<◌, true, length};

use crate::screen::Screen;
use nit_events::{Call, Reply};
use nit_repaint::{Painter, ViewBefore};
use nit_server::Server;
use nit_word::Glasses;

impl Screen {
    /// Serves an accepted call on the view of this handle, and loads again what the view owned
    /// before or owns after.
    pub(crate) fn change_view<L: Glasses>(
        &mut self,
        sid: u32,
        handle: u32,
        call: &Call,
        glasses: &mut L,
    ) -> Reply
        requires can { CanServe self.old sid call.now (L.sights glasses.old) }
        requires on { IsOn handle call.now }
        ensures shown { IsCallShown sid call.now result (L.sights glasses.old)
            (L.sights glasses.new) self.old self.new }
        ensures rest { L.rest glasses.new ≡ L.rest glasses.old }
    {
        self.server.facts();
        self.pixels.make_one(&self.server);
        let was = view_before(&self.server, sid, handle);
        let reply = self.server.accept(sid, call);
        let stack = self.server.stack();
        self.pixels.painter.paint_changed(stack, &was, glasses);
        self.pixels.show_views(&self.server);
        reply
    }
}

/// The view of this session and handle, as it stands in the stack before a change.
fn view_before(server: &Server, sid: u32, handle: u32) -> ViewBefore
    requires session { sid < length server.now.sessions }
    requires held { has_view (session_in server.now.sessions sid) handle ≡ true }
    ensures named { IsNamedBy result.view.0 sid handle server.now.stack.views }
    ensures place { result.place ≡ place_of result.view.0 server.now.stack.views }
    ensures seat { (s : SlotView) × (slot_view_in result.view.0 server.now.stack.views ≡ Some s) ×
        (s.view.rect ≡ result.rect) }
{
    let view = server.slot(sid, handle);
    let stack = server.stack();
    ViewBefore {
        view,
        place: stack.place_of(view),
        rect: stack.view(view).rect,
    }
}

/// How many views there are.
fn view_count(server: &Server) -> u32
    ensures { result ≡ length server.now.stack.views }
{
    server.stack().len()
}

/// Takes all views of a session away, from the rear one to the front one, and paints what they
/// uncover.
pub(crate) fn take_views_away<L: Glasses>(
    server: &mut Server,
    of: u32,
    painter: &mut Painter,
    glasses: &mut L,
)
    requires session { of < length server.old.sessions }
    requires can { CanRepaint server.old.stack painter.old (L.sights glasses.old) }
    ensures left { without_views of server.new ≡ without_views of server.old }
    ensures stack { server.new.stack ≡ without_session of server.old.stack }
    ensures session { of < length server.new.sessions }
    ensures painted { IsRepaint (source_of_number (without_session of server.old.stack))
        (λ k. owner_passes (is_of_session of) server.old.stack (pixel server.old.stack.width k))
        (L.sights glasses.old) (L.sights glasses.new) painter.old painter.new }
    ensures rest { L.rest glasses.new ≡ L.rest glasses.old }
{
    let mut i = view_count(server);
    'views: while 0 < i {
        i -= 1;
        let (v, view) = server.seated(i);
        if view.sid != of {
            continue;
        }
        server.remove_view(of, view.handle);
        let was = ViewBefore {
            view: v,
            place: i,
            rect: view.rect,
        };
        painter.paint_changed(server.stack(), &was, glasses);
    }
}
