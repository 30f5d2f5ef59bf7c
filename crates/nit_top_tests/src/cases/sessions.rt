//! Sessions that are never refused, each by itself: what they answer to their own calls, given what
//! is routed to them.

use crate::cases::table::Case;
use crate::checks::same;
use nit_events::{Call, Delivery, Entry, Event, Item, Reply};
use std::alloc::Global;
use std::process::Abort;

/// The most events that wait for a session.
const QUEUE: usize = 64;

/// One session: the number of its last view, and the events that wait.
#[derive(Drop)]
struct Session {
    views: u32,
    queue: Vec<Event>,
}

impl Session {
    fn new(alloc: Global) -> Session {
        Session {
            views: 0,
            queue: Vec::new(alloc),
        }
    }

    /// An event is routed to the session.
    fn hear(&mut self, rt: &impl Abort, event: Event) {
        if self.queue.len() < QUEUE {
            self.queue.push(event).expect(rt, "memory");
        }
    }

    /// What the session answers to a call that is not refused.
    fn answer(&mut self, call: &Call) -> Reply {
        match call {
            Call::View => self.add_view(),
            Call::Take => self.take(),
            _ => Reply::Done,
        }
    }

    fn add_view(&mut self) -> Reply {
        self.views = self.views.saturating_add(1);
        Reply::Handle(self.views)
    }

    fn take(&mut self) -> Reply {
        if self.queue.is_empty() {
            return Reply::NoEvent;
        }
        Reply::Event(self.queue.remove(0))
    }
}

/// So many sessions.
fn sessions(rt: &impl Abort, alloc: Global, count: u64) -> Vec<Session> {
    let mut all = Vec::new(alloc);
    for _sid in 0..count {
        all.push(Session::new(alloc)).expect(rt, "memory");
    }
    all
}

/// A delivery is heard by its session.
fn deliver(rt: &impl Abort, all: &mut [Session], delivery: Option<Delivery>) {
    if let Some(
        Delivery {
            sid,
            item: Item::Event(event),
        },
    ) = delivery
    {
        session_of(rt, all, sid).hear(rt, event);
    }
}

/// The session of this number.
fn session_of<'a>(rt: &impl Abort, all: &'a mut [Session], sid: u32) -> &'a mut Session {
    all.get_mut(sid as usize).expect(rt, "a session")
}

/// Each reply of the journal is the one that its session gives by itself.
pub fn assert_sessions(rt: &impl Abort, alloc: Global, case: &Case, journal: &[Entry], count: u64) {
    let mut all = sessions(rt, alloc, count);
    for entry in journal {
        assert_entry(rt, case, &mut all, entry);
    }
}

/// The reply of this entry is the one that its session gives by itself.
fn assert_entry(rt: &impl Abort, case: &Case, all: &mut [Session], entry: &Entry) {
    match *entry {
        Entry::Call { sid, call, reply } => {
            let own = session_of(rt, all, sid).answer(&call);
            same(rt, case.title, &own, &reply);
        }
        Entry::Input { routed, .. } => {
            deliver(rt, all, routed.a);
            deliver(rt, all, routed.b);
            deliver(rt, all, routed.c);
        }
        Entry::Shot { .. } | Entry::Final => (),
    }
}
