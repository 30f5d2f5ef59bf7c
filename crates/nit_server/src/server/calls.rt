//! Accepted calls.

ghost use Rattle.std.specs.Prelude.{◌≡◌, ◌-◌, ◌^◌, ◌<◌, None, length, ◌*◌};
ghost use Rattle.nit_events.specs.declared.call.Call.TheVariants as call;
ghost use Rattle.nit_server.specs.Terms.{IsServed, accepted, refusal, session, session_in};

use crate::server::Server;
use nit_events::{Call, Reply};
use nit_glyph::Title;
use nit_stack::View;

impl Server {
    /// Serves a call that no refusal meets.
    pub fn accept(&mut self, sid: u32, call: &Call) -> Reply
        requires session { sid < length self.old.sessions }
        requires accepted { refusal (session_in self.old.sessions sid) call.now ≡ None }
        requires handles { (session_in self.old.sessions sid).next < 2 ^ 32 - 1 }
        ensures { IsServed sid call.now result self.old self.new }
    {
        match *call {
            Call::Buffer(w, h) => self.buffer(sid, w, h),
            Call::View => self.create(sid),
            Call::Place(handle, x, y, w, h) => self.place(sid, handle, x, y, w, h),
            Call::Offset(handle, ox, oy) => self.offset(sid, handle, ox, oy),
            Call::Front(handle) => self.front(sid, handle),
            Call::Back(handle) => self.back(sid, handle),
            Call::Above(handle, next) => self.above(sid, handle, next),
            Call::Title(handle, text) => self.title(sid, handle, text),
            Call::Destroy(handle) => self.destroy(sid, handle),
            Call::Refresh(x, y, w, h) => self.refresh(sid, x, y, w, h),
            Call::Take => self.take(sid),
            Call::Upgrade(n) => self.upgrade(sid, n),
            Call::Close => self.close(sid),
        }
    }
}
