//! A run, done again entry by entry.

ghost use Rattle.std.specs.Prelude.{◌≡◌, ◌+◌, ◌<◌, ◌≤◌, true, false, All, length, map, IfOk, OnOk};
ghost use Rattle.std.specs.Prelude.{slice_index_or, slice_set, None, IsTrue, ◌↔◌, ℕ, ◌∷◌, [], ◌-◌};
ghost use Rattle.std.specs.Prelude.{◌^◌};
ghost use Rattle.nit_events.specs.declared.entry.Entry.TheVariants as entry;
ghost use Rattle.nit_audit.specs.Terms.{CanReplay, CanRestack, IsConfiguration, IsDevice, IsMember};
ghost use Rattle.nit_audit.specs.Terms.{IsReplay, IsReplayAnswer, View, accepted, after_accepted};
ghost use Rattle.nit_audit.specs.Terms.{after_deliveries, bar_rows, changed, delivered};
ghost use Rattle.nit_audit.specs.Terms.{deliveries_of, delivery, first_input, first_session};
ghost use Rattle.nit_audit.specs.Terms.{first_state, input_closing, is_rectangle, is_title};
ghost use Rattle.nit_audit.specs.Terms.{is_view, layer, member, most_read, most_sessions};
ghost use Rattle.nit_audit.specs.Terms.{rectangle, refusal, replay_routing, routed_as, session_in};
ghost use Rattle.nit_audit.specs.Terms.{state_of_replay};

use crate::keys::{Change, Which};
use crate::same::Same;
use crate::views::Views;
use nit_config::Config;
use nit_events::{Call, Delivery, Device, Item, Reply, Routed, Text};
use nit_focus::Focus;
use nit_glyph::Title;
use nit_rect::{MOST_SESSIONS, NoMemory, Rect};
use nit_session::Machine;
use std::alloc::Global;
use std::marker::Model;

/// The sessions, the views, where the user's input goes, and how many shots and entries there were.
#[derive(Drop)]
pub(crate) struct Replay {
    machines: Vec<Machine>,
    views: Views,
    focus: Focus,
    shots: u32,
    count: u32,
}

impl Model for Replay {
    ghost use Rattle.nit_audit.specs.AuditReplay.{ReplayModel};

    ghost Value = { ReplayModel };

    ghost view = { λ r. record {
      sessions = r.machines.items;
      stack = r.views;
      focus = r.focus;
      shots = r.shots;
      count = r.count;
    } };
}

impl Replay {
    /// Before the first entry.
    pub(crate) fn new(alloc: Global, config: &Config) -> Result<Replay, NoMemory>
        requires { IsConfiguration config.now }
        ensures kept { IfOk result (λ r. IsReplay config.now r) }
        ensures state { IfOk result (λ r. state_of_replay config.now r ≡ first_state config.now) }
        ensures none { IfOk result (λ r. (r.shots ≡ 0) × (r.count ≡ 0)) }
    {
        Ok(Replay {
            machines: opened_machines(alloc, config.clients.as_slice())?,
            views: Views::new(alloc),
            focus: opened_focus(config),
            shots: 0,
            count: 0,
        })
    }

    /// A session's call, with its reply.
    pub(crate) fn call(
        &mut self,
        config: &Config,
        sid: u32,
        call: &Call,
        reply: &Reply,
    ) -> Result<bool, NoMemory>
        requires { CanReplay config.now self.old }
        ensures { IfOk result (IsReplayAnswer config.now (entry.Call sid call.now reply.now)
            self.old self.new) }
    {
        if !self.knows(sid) {
            return Ok(false);
        }
        if let Some(refused) = self.refused(sid, call) {
            self.count();
            return Ok(refused.is_same(reply));
        }
        let answer = self.accept(sid, call);
        if !answer.is_same(reply) {
            return Ok(false);
        }
        self.settle(config, sid, call, reply)?;
        Ok(true)
    }

    /// Whether there is such a session.
    fn knows(&self, sid: u32) -> bool
        ensures { IsTrue result ↔ (sid < length self.now.sessions) }
    {
        (sid as usize) < self.machines.len()
    }

    /// The first refusal that a session's call meets. None where it is to be accepted.
    fn refused(&self, sid: u32, call: &Call) -> Option<Reply>
        requires { sid < length self.now.sessions }
        ensures { result ≡ refusal (session_in self.now.sessions sid) call.now }
    {
        self.machines[sid as usize].refused(call)
    }

    /// A session serves a call that is not refused.
    fn accept(&mut self, sid: u32, call: &Call) -> Reply
        requires session { sid < length self.old.sessions }
        requires accepted { refusal (session_in self.old.sessions sid) call.now ≡ None }
        requires next { (session_in self.old.sessions sid).next < 2 ^ 32 - 1 }
        ensures reply { result ≡ (accepted (session_in self.old.sessions sid) call.now).reply }
        ensures session { let served = accepted (session_in self.old.sessions sid) call.now in
            self.new ≡ record self.old {
              sessions = slice_set self.old.sessions sid served.session;
            } }
    {
        self.machines[sid as usize].accept(call)
    }

    /// The views, the input and the count after a call that is accepted.
    fn settle(
        &mut self,
        config: &Config,
        sid: u32,
        call: &Call,
        reply: &Reply,
    ) -> Result<(), NoMemory>
        requires call { CanRestack sid call.now }
        requires few { self.old.count < most_read }
        ensures { OnOk result (self.new ≡ record self.old {
          stack = after_accepted (layer config.now) sid call.now reply.now self.old.stack;
          focus = record self.old.focus { input = input_closing sid call.now self.old.focus.input };
          count = self.old.count + 1;
        }) }
    {
        restack(&mut self.views, config, sid, call, reply)?;
        forget_closed(&mut self.focus, sid, call);
        self.count += 1;
        Ok(())
    }

    /// One more entry.
    fn count(&mut self)
        requires { self.old.count < most_read }
        ensures { self.new ≡ record self.old { count = self.old.count + 1 } }
    {
        self.count += 1;
    }

    /// A device event, with its deliveries.
    pub(crate) fn input(&mut self, config: &Config, dev: Device, routed: &Routed) -> bool
        requires going { CanReplay config.now self.old }
        requires device { IsDevice dev }
        ensures { IsReplayAnswer config.now (entry.Input dev routed.now) self.old self.new result }
    {
        let told = self.route(config, dev);
        if !told.is_same(routed) {
            return false;
        }
        self.deliver(told.a);
        self.deliver(told.b);
        self.deliver(told.c);
        self.count();
        true
    }

    /// A device event is routed: the input goes on, and nobody is told anything yet.
    fn route(&mut self, config: &Config, dev: Device) -> Routed
        requires kept { IsReplay config.now self.old }
        requires device { IsDevice dev }
        ensures routed { result ≡ routed_as (replay_routing config.now self.old dev).deliveries }
        ensures all { deliveries_of result ≡ (replay_routing config.now self.old dev).deliveries }
        ensures input { self.new ≡ record self.old {
          focus = record self.old.focus { input = (replay_routing config.now self.old dev).state };
        } }
    {
        let pointed = self.views.owner(rows_of(config), self.focus.clamp(dev));
        self.focus.input(dev, pointed)
    }

    /// A shot, with its number.
    pub(crate) fn shot(&mut self, config: &Config, number: u32) -> bool
        requires { CanReplay config.now self.old }
        ensures { IsReplayAnswer config.now (entry.Shot number) self.old self.new result }
    {
        if number != self.shots + 1 {
            return false;
        }
        self.shots += 1;
        self.count += 1;
        true
    }

    /// A session gets what is delivered to it; nothing is done where there is nothing.
    fn deliver(&mut self, told: Option<Delivery>)
        requires { (t : ℕ) → (session_in self.old.sessions t).lost < 2 ^ 32 - 1 }
        ensures { self.new ≡ record self.old {
          sessions = delivered (delivery told) self.old.sessions;
          stack = after_deliveries (delivery told) self.old.stack;
        } }
    {
        if let Some(d) = told {
            give(&mut self.machines, d.sid, d.item);
            if let Item::Kill = d.item {
                self.views.remove(Which::Each(d.sid));
            }
        }
    }
}

/// A session gets an item.
fn give(machines: &mut Vec<Machine>, sid: u32, item: Item)
    requires { (t : ℕ) → (session_in machines.old.items t).lost < 2 ^ 32 - 1 }
    ensures { machines.new.items
        ≡ delivered (record { sid = sid; item = item } ∷ []) machines.old.items }
{
    if let Some(machine) = machines.get_mut(sid as usize) {
        machine.receive(item);
    }
}

/// A session that has closed itself is forgotten.
fn forget_closed(focus: &mut Focus, sid: u32, call: &Call)
    ensures { focus.new ≡ record focus.old { input = input_closing sid call.now focus.old.input } }
{
    if let Call::Close = *call {
        focus.forget(sid);
    }
}

/// The views after a call that is accepted.
fn restack(
    views: &mut Views,
    config: &Config,
    sid: u32,
    call: &Call,
    reply: &Reply,
) -> Result<(), NoMemory>
    requires { CanRestack sid call.now }
    ensures { OnOk result (views.new
        ≡ after_accepted (layer config.now) sid call.now reply.now views.old) }
{
    match *call {
        Call::View => {
            if let Reply::Handle(handle) = *reply {
                views.create(config, sid, handle)?;
            }
        }
        Call::Place(v, x, y, w, h) => place(views, sid, v, (x, y, w, h)),
        Call::Offset(v, ox, oy) => views.change(sid, v, Change::Offset(ox, oy)),
        Call::Title(v, text) => retitle(views, sid, v, &text),
        Call::Front(v) => views.front(config, sid, v)?,
        Call::Back(v) => views.back(config, sid, v)?,
        Call::Above(v, n) => {
            if v != n {
                views.above(sid, v, n)?;
            }
        }
        Call::Destroy(v) => views.remove(Which::One(sid, v)),
        Call::Close => views.remove(Which::Each(sid)),
        Call::Buffer(..) | Call::Refresh(..) | Call::Take | Call::Upgrade(_) => {}
    }
    Ok(())
}

/// The view has another rectangle, of this place and size.
fn place(views: &mut Views, sid: u32, v: u32, at: (i32, i32, u32, u32))
    requires { IsTrue (is_rectangle at.0 at.1 at.2 at.3) }
    ensures { views.new ≡ changed (is_view sid v)
        (λ view. record view { rect = rectangle at.0 at.1 at.2 at.3 }) views.old }
{
    let rect = Rect::of(at.0, at.1, at.2, at.3);
    views.change(sid, v, Change::Rectangle(rect));
}

/// The view has another title, of this text.
fn retitle(views: &mut Views, sid: u32, v: u32, text: &Text)
    requires { IsTrue (is_title text.now) }
    ensures { views.new ≡ changed (is_view sid v) (λ view. record view { title = text.now })
        views.old }
{
    let title = Title::of(text.as_bytes());
    views.change(sid, v, Change::Title(title));
}

/// The rows of the status bar.
fn rows_of(config: &Config) -> u32
    ensures rows { result ≡ bar_rows config.now }
    ensures few { result ≤ 7 }
{
    if config.bar { 7 } else { 0 }
}

/// A machine for each client, as it opens.
fn opened_machines(alloc: Global, clients: &[nit_config::Member]) -> Result<Vec<Machine>, NoMemory>
    requires { All IsMember clients.now }
    ensures { IfOk result (λ v. v.items ≡ map (λ m. first_session m.donation) clients.now) }
{
    let mut machines = Vec::with_capacity(alloc, clients.len())?;
    for client in clients {
        machines.push(Machine::new(alloc, client.donation)?)?;
    }
    Ok(machines)
}

/// The user's input before its first event: a click moves the focus to those clients that take it
/// so.
fn opened_focus(config: &Config) -> Focus
    requires { IsConfiguration config.now }
    ensures screen { (result.width ≡ config.now.width) × (result.height ≡ config.now.height) }
    ensures clicks { (t : ℕ) → t < most_sessions
        → slice_index_or result.clicks t false ≡ (member config.now t).clicks }
    ensures input { result.input ≡ first_input }
{
    let mut focus = Focus::new(config.width, config.height);
    for sid in 0..MOST_SESSIONS as u32 {
        if clicks_of(config, sid) {
            continue;
        }
        focus.no_click(sid);
    }
    focus
}

/// Whether a click on a session moves the focus to it.
fn clicks_of(config: &Config, sid: u32) -> bool
    ensures { result ≡ (member config.now sid).clicks }
{
    match config.clients.get(sid as usize) {
        Some(client) => client.clicks,
        None => false,
    }
}
