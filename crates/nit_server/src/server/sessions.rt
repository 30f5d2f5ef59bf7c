//! Accepted calls that change a session alone, and its end.

ghost use Rattle.nit_server.specs.Terms.{IsServed, accepted, has_view, is_of_session, list_any};
ghost use Rattle.nit_server.specs.Terms.{refusal, session, session_in, with_ended, without_views};
ghost use Rattle.std.specs.Prelude.{◌≡◌, ◌-◌, ◌<◌, true, None, length, false, Some, [], IfSome};
ghost use Rattle.std.specs.Prelude.{IfNone};
ghost use Rattle.nit_events.specs.declared.call.Call.TheVariants as call;

use crate::server::Server;
use nit_events::{Reply, Status};

impl Server {
    /// The session's buffer has this size.
    pub(crate) fn buffer(&mut self, sid: u32, w: u32, h: u32) -> Reply
        requires session { sid < length self.old.sessions }
        requires accepted { refusal (session_in self.old.sessions sid) (call.Buffer w h) ≡ None }
        ensures { IsServed sid (call.Buffer w h) result self.old self.new }
    {
        self.members[sid as usize].buffer(w, h);
        self.stack.set_buffer(sid, w, h);
        Reply::Done
    }

    /// Nothing of a server changes.
    pub(crate) fn refresh(&mut self, sid: u32, x: i32, y: i32, w: u32, h: u32) -> Reply
        requires session { sid < length self.old.sessions }
        requires accepted { refusal (session_in self.old.sessions sid) (call.Refresh x y w h)
            ≡ None }
        ensures { IsServed sid (call.Refresh x y w h) result self.old self.new }
    {
        Reply::Done
    }

    /// The oldest event is taken out.
    pub(crate) fn take(&mut self, sid: u32) -> Reply
        requires session { sid < length self.old.sessions }
        requires accepted { refusal (session_in self.old.sessions sid) (call.Take) ≡ None }
        ensures { IsServed sid (call.Take) result self.old self.new }
    {
        self.members[sid as usize].take()
    }

    /// Units move from the reserve to the donation.
    pub(crate) fn upgrade(&mut self, sid: u32, n: u32) -> Reply
        requires session { sid < length self.old.sessions }
        requires accepted { refusal (session_in self.old.sessions sid) (call.Upgrade n) ≡ None }
        ensures { IsServed sid (call.Upgrade n) result self.old self.new }
    {
        self.members[sid as usize].upgrade(n);
        Reply::Done
    }

    /// The session is over: its views, its buffer and its events are gone.
    pub(crate) fn close(&mut self, sid: u32) -> Reply
        requires session { sid < length self.old.sessions }
        requires accepted { refusal (session_in self.old.sessions sid) (call.Close) ≡ None }
        ensures { IsServed sid (call.Close) result self.old self.new }
    {
        self.end_session(sid, Status::Closed);
        Reply::Done
    }

    /// The session is over in this way: its views, its buffer and its events are gone, and the
    /// input forgets it.
    pub fn end_session(&mut self, sid: u32, how: Status)
        requires { sid < length self.old.sessions }
        ensures { self.new ≡ with_ended sid how self.old }
    {
        self.clear_views(sid);
        let member = &mut self.members[sid as usize];
        member.facts();
        member.end(how);
        member.facts();
        self.stack.set_buffer(sid, 0, 0);
        self.focus.forget(sid);
    }

    /// All views of a session are gone.
    fn clear_views(&mut self, sid: u32)
        requires { sid < length self.old.sessions }
        ensures { self.new ≡ without_views sid self.old }
    {
        'views: while let Some(handle) = self.last_handle(sid) {
            self.remove_view(sid, handle);
        }
    }

    /// The greatest handle of a session. None only where it has no view.
    fn last_handle(&self, sid: u32) -> Option<u32>
        requires { sid < length self.now.sessions }
        ensures held { IfSome result (λ h. has_view (session_in self.now.sessions sid) h ≡ true) }
        ensures no_handle { IfNone result ((session_in self.now.sessions sid).handles ≡ []) }
        ensures no_view { IfNone result (list_any (is_of_session sid) self.now.stack.views
            ≡ false) }
    {
        let member = &self.members[sid as usize];
        member.facts();
        member.last()
    }
}
