//! Accepted calls on one view.

ghost use Rattle.std.specs.Prelude.{◌≡◌, ◌-◌, ◌^◌, ◌<◌, true, None, length, Some, slice_get};
ghost use Rattle.nit_events.specs.declared.call.Call.TheVariants as call;
ghost use Rattle.nit_server.specs.Terms.{IsNamedBy, IsServed, accepted, has_view, refusal, session};
ghost use Rattle.nit_server.specs.Terms.{session_in, without_view};

use crate::server::Server;
use nit_events::{Reply, Text};
use nit_glyph::Title;
use nit_rect::Rect;
use nit_stack::{View, ViewRef};

impl Server {
    /// A new view stands in front of its layer and of the layers behind.
    pub(crate) fn create(&mut self, sid: u32) -> Reply
        requires session { sid < length self.old.sessions }
        requires accepted { refusal (session_in self.old.sessions sid) (call.View) ≡ None }
        requires handles { (session_in self.old.sessions sid).next < 2 ^ 32 - 1 }
        ensures { IsServed sid (call.View) result self.old self.new }
    {
        let slots = &mut self.slots;
        let member = &mut self.members[sid as usize];
        member.facts();
        let (handle, slot) = member.create(slots);
        member.facts();
        self.stack.push_front(ViewRef(slot), sid, handle);
        Reply::Handle(handle)
    }

    /// The view has this rectangle.
    pub(crate) fn place(&mut self, sid: u32, handle: u32, x: i32, y: i32, w: u32, h: u32) -> Reply
        requires session { sid < length self.old.sessions }
        requires accepted { refusal (session_in self.old.sessions sid) (call.Place handle x y w h)
            ≡ None }
        ensures { IsServed sid (call.Place handle x y w h) result self.old self.new }
    {
        let v = self.slot(sid, handle);
        let rect = Rect::of(x, y, w, h);
        self.stack.place(v, rect);
        Reply::Done
    }

    /// The view has this offset.
    pub(crate) fn offset(&mut self, sid: u32, handle: u32, ox: i32, oy: i32) -> Reply
        requires session { sid < length self.old.sessions }
        requires accepted { refusal (session_in self.old.sessions sid) (call.Offset handle ox oy)
            ≡ None }
        ensures { IsServed sid (call.Offset handle ox oy) result self.old self.new }
    {
        let v = self.slot(sid, handle);
        self.stack.offset(v, ox, oy);
        Reply::Done
    }

    /// The view stands in front of its layer and of the layers behind.
    pub(crate) fn front(&mut self, sid: u32, handle: u32) -> Reply
        requires session { sid < length self.old.sessions }
        requires accepted { refusal (session_in self.old.sessions sid) (call.Front handle) ≡ None }
        ensures { IsServed sid (call.Front handle) result self.old self.new }
    {
        let v = self.slot(sid, handle);
        self.stack.front(v);
        Reply::Done
    }

    /// The view stands behind its layer and the layers in front.
    pub(crate) fn back(&mut self, sid: u32, handle: u32) -> Reply
        requires session { sid < length self.old.sessions }
        requires accepted { refusal (session_in self.old.sessions sid) (call.Back handle) ≡ None }
        ensures { IsServed sid (call.Back handle) result self.old self.new }
    {
        let v = self.slot(sid, handle);
        self.stack.back(v);
        Reply::Done
    }

    /// The view stands directly in front of the next one.
    pub(crate) fn above(&mut self, sid: u32, handle: u32, next: u32) -> Reply
        requires session { sid < length self.old.sessions }
        requires accepted { refusal (session_in self.old.sessions sid) (call.Above handle next)
            ≡ None }
        ensures { IsServed sid (call.Above handle next) result self.old self.new }
    {
        let v = self.slot(sid, handle);
        let n = self.slot(sid, next);
        self.stack.above(v, n);
        Reply::Done
    }

    /// The view has this title.
    pub(crate) fn title(&mut self, sid: u32, handle: u32, text: Text) -> Reply
        requires session { sid < length self.old.sessions }
        requires accepted { refusal (session_in self.old.sessions sid) (call.Title handle text)
            ≡ None }
        ensures { IsServed sid (call.Title handle text) result self.old self.new }
    {
        let v = self.slot(sid, handle);
        self.stack.title(v, Title::of(text.as_bytes()));
        Reply::Done
    }

    /// The view is gone.
    pub(crate) fn destroy(&mut self, sid: u32, handle: u32) -> Reply
        requires session { sid < length self.old.sessions }
        requires accepted { refusal (session_in self.old.sessions sid) (call.Destroy handle)
            ≡ None }
        ensures { IsServed sid (call.Destroy handle) result self.old self.new }
    {
        self.remove_view(sid, handle);
        Reply::Done
    }

    /// A view of a session is gone, and its slot is free.
    pub fn remove_view(&mut self, sid: u32, handle: u32)
        requires session { sid < length self.old.sessions }
        requires held { has_view (session_in self.old.sessions sid) handle ≡ true }
        ensures { self.new ≡ without_view sid handle self.old }
    {
        let slots = &mut self.slots;
        let member = &mut self.members[sid as usize];
        let slot = member.slot(handle);
        member.destroy(slots, handle);
        member.facts();
        self.stack.remove(ViewRef(slot));
    }

    /// The view at place `i` from the front, with its slot.
    pub fn seated(&self, i: u32) -> (ViewRef, View)
        requires { i < length self.now.stack.views }
        ensures place { slice_get self.now.stack.views i ≡ Some
            (record { slot = result.0.0; view = result.1 }) }
        ensures session { result.1.sid < length self.now.sessions }
        ensures held { has_view (session_in self.now.sessions result.1.sid) result.1.handle ≡ true }
        ensures named { IsNamedBy result.0.0 result.1.sid result.1.handle self.now.stack.views }
    {
        let v = self.stack.at(i);
        let view = self.stack.view(v);
        let member = &self.members[view.sid as usize];
        member.facts();
        (v, view)
    }
}
