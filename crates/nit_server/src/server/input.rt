//! The user's input at a server: who is pointed at, and who is told what.

ghost use Rattle.std.specs.Prelude.{◌≡◌, ◌-◌, ◌<◌, ◌≤◌, true, None, length, All, ℕ, false, Some};
ghost use Rattle.std.specs.Prelude.{slice_index_or, [], IfSome, ◌∷◌};
ghost use Rattle.nit_server.specs.Terms.{IsDevice, IsForgottenIfKilled, IsScreenSize};
ghost use Rattle.nit_server.specs.Terms.{IsServerInput, MayLose, bar_rows, client_in};
ghost use Rattle.nit_server.specs.Terms.{deliveries_of, delivery, first_input, is_kill, killed_in};
ghost use Rattle.nit_server.specs.Terms.{kills, most_sessions, option_map, owner, point};
ghost use Rattle.nit_server.specs.Terms.{pointed_by, route, routed_as, routing_of, session};
ghost use Rattle.nit_server.specs.Terms.{state_of, with_delivered, with_routed};
ghost use Rattle.nit_events.specs.declared.event.Item.TheVariants as item;

use crate::server::Server;
use nit_config::Config;
use nit_events::{Delivery, Device, Event, Item, Mode, Routed};
use nit_focus::Focus;
use nit_rect::Point;
use nit_stack::View;

impl Server {
    /// The mode of the user's input.
    pub fn mode(&self) -> Mode
        ensures { result ≡ self.now.input.mode }
    {
        self.focus.mode()
    }

    /// The codes that are held, in the order in which they went down.
    pub fn held(&self) -> &[u16]
        ensures { result.now ≡ self.now.input.held }
    {
        self.focus.held()
    }

    /// The session that gets what is pressed and released while a code is held. None where no
    /// session does.
    pub fn receiver(&self) -> Option<u32>
        ensures receiver { result ≡ self.now.input.receiver }
        ensures known { IfSome result (λ sid. sid < length self.now.sessions) }
    {
        self.focus.receiver()
    }

    /// The session that has the focus. None where no session has it.
    pub fn focus(&self) -> Option<u32>
        ensures focus { result ≡ self.now.input.focus }
        ensures known { IfSome result (λ sid. sid < length self.now.sessions) }
    {
        self.focus.focus()
    }

    /// The column and the row of the pixel under the pointer.
    pub fn pointer(&self) -> (u16, u16)
        ensures { result ≡ (self.now.input.x, self.now.input.y) }
    {
        self.focus.pointer()
    }

    /// The session that the pointer is over, as it was last told. None where it is over no session.
    pub fn hover(&self) -> Option<u32>
        ensures hover { result ≡ self.now.input.hover }
        ensures known { IfSome result (λ sid. sid < length self.now.sessions) }
    {
        self.focus.hover()
    }

    /// A device event is routed: the input goes on, and nobody is told anything yet.
    pub fn route(&mut self, dev: Device) -> Routed
        requires { IsDevice dev }
        ensures server { self.new ≡ with_routed dev self.old }
        ensures routed { result ≡ routed_as (routing_of self.old dev).deliveries }
        ensures all { deliveries_of result ≡ (routing_of self.old dev).deliveries }
        ensures forgotten { All (λ d. IsForgottenIfKilled self.new.input d.sid d.item)
            (deliveries_of result) }
    {
        let pointed = self.pointed(dev);
        self.focus.input(dev, pointed)
    }

    /// The session of the view that owns the pixel under the pointer, once a device event has moved
    /// it.
    fn pointed(&self, dev: Device) -> Option<u32>
        ensures session { result ≡ pointed_by self.now dev }
        ensures known { IfSome result (λ t. t < length self.now.config.clients) }
        ensures few { IfSome result (λ t. t < most_sessions) }
    {
        match self.stack.owner(self.focus.clamp(dev)) {
            Some(v) => Some(self.stack.view(v).sid),
            None => None,
        }
    }

    /// The view that owns the pixel. None where no view does.
    pub fn owner(&self, p: Point) -> Option<View>
        ensures { let s = state_of self.now in result ≡ owner (bar_rows s.config) s.stack p }
    {
        match self.stack.owner(p) {
            Some(v) => Some(self.stack.view(v)),
            None => None,
        }
    }

    /// The session of the view that owns the pixel under the pointer. None where no view does.
    pub fn under_pointer(&self) -> Option<u32>
        ensures { let s = state_of self.now in result
            ≡ option_map (λ v. v.sid)
            (owner (bar_rows s.config) s.stack (point s.input.x s.input.y)) }
    {
        self.pointed(Device::Release(0))
    }

    /// The sessions get what is delivered to them, in order. None is locked out.
    pub fn tell_all(&mut self, routed: &Routed)
        requires sessions { All (λ d. d.sid < length self.old.sessions) (deliveries_of routed.now) }
        requires events { kills (deliveries_of routed.now) ≡ false }
        requires lost { MayLose 3 self.old }
        ensures { self.new ≡ with_delivered (deliveries_of routed.now) self.old }
    {
        self.tell(routed.a);
        self.tell(routed.b);
        self.tell(routed.c);
    }

    /// A session gets an event; nothing is done where there is none.
    fn tell(&mut self, told: Option<Delivery>)
        requires session { IfSome told (λ d. d.sid < length self.old.sessions) }
        requires event { IfSome told (λ d. is_kill d.item ≡ false) }
        requires lost { MayLose 1 self.old }
        ensures { self.new ≡ with_delivered (delivery told) self.old }
    {
        if let Some(
            Delivery {
                sid,
                item: Item::Event(event),
            },
        ) = told
        {
            self.tell_event(sid, event);
        }
    }

    /// A session gets an event.
    fn tell_event(&mut self, sid: u32, event: Event)
        requires session { sid < length self.old.sessions }
        requires lost { MayLose 1 self.old }
        ensures { self.new ≡ with_delivered (record { sid = sid; item = item.Event event }
            ∷ []) self.old }
    {
        self.members[sid as usize].tell(event);
    }
}

/// The session that is locked out, where that is the first of the deliveries.
pub fn killed(routed: &Routed) -> Option<u32>
    ensures { result ≡ killed_in routed.now.a }
{
    match routed.a {
        Some(
            Delivery {
                sid,
                item: Item::Kill,
            },
        ) => Some(sid),
        _ => None,
    }
}

/// The user's input before its first event: a click moves the focus to those clients that take it
/// so.
pub(crate) fn opened_focus(config: &Config) -> Focus
    requires screen { IsScreenSize config.now.width config.now.height }
    requires few { length config.now.clients ≤ most_sessions }
    ensures attending { IsServerInput config.now result }
    ensures input { result.input ≡ first_input }
{
    let mut focus = Focus::new(config.width, config.height);
    set_clicks(&mut focus, config.clients.as_slice());
    focus
}

/// Tells the focus which clients take no focus by clicks.
fn set_clicks(focus: &mut Focus, clients: &[nit_config::Member])
    requires few { length clients.now ≤ most_sessions }
    requires all { (t : ℕ) → t < most_sessions → slice_index_or focus.old.clicks t false ≡ true }
    ensures rest { focus.new ≡ record focus.old { clicks = focus.new.clicks } }
    ensures clicks { (t : ℕ) → t < length clients.now → slice_index_or focus.new.clicks t false ≡
        (client_in clients.now t).clicks }
{
    for (sid, client) in clients.iter().enumerate() {
        if client.clicks {
            continue;
        }
        focus.no_click(sid as u32);
    }
}
