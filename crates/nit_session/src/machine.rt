//! The machine of a session.
ghost use Rattle.std.specs.Prelude.{◌≡◌, ◌+◌, ◌-◌, ◌^◌, ◌<◌, ◌≤◌, not, filter, ◌==◌, None, IfOk};
ghost use Rattle.nit_session.specs.Terms.{Destroy, IsDonation, Take, View, accepted, by_call};
ghost use Rattle.nit_session.specs.Terms.{by_handle, ended, first_session, last_handle, list_any};
ghost use Rattle.nit_session.specs.Terms.{queued, receive, refusal, serve, vec_capacity};

use nit_events::{Call, Event, Item, Queue, Reply, Status};
use nit_journal::refusing::{
    by_buffer, by_offset, by_rectangle, by_status, by_title, by_upgrade, by_view, first_of,
};
use nit_rect::NoMemory;
use nit_slots::{Account, MOST_VIEWS};
use std::alloc::Global;
use std::marker::Model;

/// A session that is served by itself, seen as the journal sees it: what it was given and holds,
/// its buffer's size, its handles, its queued events, and how many events were lost.
#[derive(Drop)]
pub struct Machine {
    account: Account,
    status: Status,
    w: u32,
    h: u32,
    next: u32,
    handles: Vec<u32>,
    queue: Queue,
    lost: u32,
}

impl Model for Machine {
    ghost use Rattle.std.specs.Prelude.{◌≤◌, vec_capacity};
    ghost use Rattle.nit_journal.specs.Session.{Session};
    ghost use Rattle.nit_session.specs.Machine.{IsMachine};
    ghost use Rattle.nit_slots.specs.Account.{most_views};

    ghost Value = { Session };

    ghost view = { λ m. record {
      donation = m.account.donation;
      reserve = m.account.reserve;
      status = m.status;
      bw = m.w;
      bh = m.h;
      next = m.next;
      handles = m.handles.items;
      queue = m.queue;
      lost = m.lost;
    } };

    ghost invariant = { λ m. record {
      kept : IsMachine m.account m.w m.h m.next m.handles.items;
      space : most_views ≤ vec_capacity m.handles;
    } };
}

impl Machine {
    /// A session that opens with this donation, 256..=268435456 units. All memory that it will ever
    /// use is taken here.
    ///
    /// # Errors
    ///
    /// `NoMemory` where memory runs out.
    pub fn new(alloc: Global, donation: u32) -> Result<Machine, NoMemory>
        requires { IsDonation donation }
        ensures { IfOk result (λ m. m ≡ first_session donation) }
    {
        Ok(Machine {
            account: Account::new(donation),
            status: Status::Live,
            w: 0,
            h: 0,
            next: 1,
            handles: Vec::with_capacity(alloc, MOST_VIEWS as usize)?,
            queue: Queue::new(alloc)?,
            lost: 0,
        })
    }

    /// Whether the session is served.
    pub fn status(&self) -> Status
        ensures { result ≡ self.now.status }
    {
        self.status
    }

    /// The width and the height of the buffer, in words.
    pub fn size(&self) -> (u32, u32)
        ensures { result ≡ (self.now.bw, self.now.bh) }
    {
        (self.w, self.h)
    }

    /// Serves the call. The next handle is below 2^32 - 1, and it rises by 1 at most.
    #[tactic(auto, using(crate::proofs::MachineLemmas::serve_cases))]
    pub fn serve(&mut self, call: &Call) -> Reply
        requires { self.old.next < last_handle }
        ensures reply { result ≡ (serve self.old call.now).reply }
        ensures session { self.new ≡ (serve self.old call.now).session }
        ensures next { self.new.next ≤ self.old.next + 1 }
    {
        match self.refused(call) {
            Some(reply) => reply,
            None => self.accept(call),
        }
    }

    /// The session gets an item, which changes it only while it is live. Fewer than 2^32 - 1 events
    /// are lost so far.
    pub fn receive(&mut self, item: Item)
        requires { self.old.lost < 2 ^ 32 - 1 }
        ensures { self.new ≡ receive self.old item }
    {
        match self.status {
            Status::Live => match item {
                Item::Event(e) => self.offer(e),
                Item::Kill => self.end(Status::Killed),
            },
            Status::Closed | Status::Killed => {}
        }
    }

    /// The first refusal that the call meets. None where it is to be accepted.
    pub fn refused(&self, call: &Call) -> Option<Reply>
        ensures { result ≡ refusal self.now call.now }
    {
        first_of(by_status(self.status), self.by_call(call))
    }

    /// The first refusal that the call meets at a live session.
    fn by_call(&self, call: &Call) -> Option<Reply>
        ensures { result ≡ by_call self.now call.now }
    {
        match *call {
            Call::Buffer(w, h) => by_buffer(self.account, w, h),
            Call::View => by_view(self.account),
            Call::Place(v, x, y, w, h) => first_of(self.by_handle(v), by_rectangle(x, y, w, h)),
            Call::Offset(v, x, y) => first_of(self.by_handle(v), by_offset(x, y)),
            Call::Front(v) | Call::Back(v) | Call::Destroy(v) => self.by_handle(v),
            Call::Above(v, n) => first_of(self.by_handle(v), self.by_handle(n)),
            Call::Title(v, text) => first_of(self.by_handle(v), by_title(&text)),
            Call::Refresh(x, y, w, h) => by_rectangle(x, y, w, h),
            Call::Upgrade(n) => by_upgrade(self.account, n),
            Call::Take | Call::Close => None,
        }
    }

    /// The session has a view of this handle.
    fn by_handle(&self, v: u32) -> Option<Reply>
        ensures { result ≡ by_handle self.now v }
    {
        if holds(&self.handles, v) {
            None
        } else {
            Some(Reply::NoSuchView(v))
        }
    }

    /// Serves a call that is not refused. The next handle is below 2^32 - 1, and it rises by 1 at
    /// most.
    pub fn accept(&mut self, call: &Call) -> Reply
        requires accepted { refusal self.old call.now ≡ None }
        requires next { self.old.next < last_handle }
        ensures reply { result ≡ (accepted self.old call.now).reply }
        ensures session { self.new ≡ (accepted self.old call.now).session }
        ensures next { self.new.next ≤ self.old.next + 1 }
    {
        match *call {
            Call::Buffer(w, h) => {
                let paid = self.account.try_buffer(w, h);
                prove!(paid.is_ok());
                self.w = w;
                self.h = h;
                Reply::Done
            }
            Call::View => self.create(),
            Call::Destroy(v) => {
                self.destroy(v);
                Reply::Done
            }
            Call::Take => self.take(),
            Call::Upgrade(n) => {
                let raised = self.account.upgrade(n);
                prove!(raised.is_ok());
                Reply::Done
            }
            Call::Close => {
                self.end(Status::Closed);
                Reply::Done
            }
            Call::Place(..)
            | Call::Offset(..)
            | Call::Front(_)
            | Call::Back(_)
            | Call::Above(..)
            | Call::Title(..)
            | Call::Refresh(..) => Reply::Done,
        }
    }

    /// The new view of an accepted `View`.
    fn create(&mut self) -> Reply
        requires accepted { refusal self.old View ≡ None }
        requires next { self.old.next < last_handle }
        ensures reply { result ≡ (accepted self.old View).reply }
        ensures session { self.new ≡ (accepted self.old View).session }
    {
        let paid = self.account.try_view();
        prove!(paid.is_ok());
        let handle = self.next;
        self.handles.push_reserved(handle);
        self.next += 1;
        Reply::Handle(handle)
    }

    /// The view of an accepted `Destroy(v)` is gone.
    fn destroy(&mut self, v: u32)
        requires { refusal self.old (Destroy v) ≡ None }
        ensures { self.new ≡ (accepted self.old (Destroy v)).session }
    {
        self.account.drop_view();
        remove(&mut self.handles, v);
    }

    /// The oldest event is taken out and answered, or that there is none.
    fn take(&mut self) -> Reply
        ensures reply { result ≡ (accepted self.old Take).reply }
        ensures session { self.new ≡ (accepted self.old Take).session }
    {
        match self.queue.take() {
            Some(e) => Reply::Event(e),
            None => Reply::NoEvent,
        }
    }

    /// The session is over.
    fn end(&mut self, how: Status)
        ensures { self.new ≡ ended how self.old }
    {
        self.account.clear();
        self.status = how;
        self.w = 0;
        self.h = 0;
        self.handles.clear();
        self.queue.clear();
    }

    /// An event joins the queue, or is lost where 64 wait.
    fn offer(&mut self, e: Event)
        requires { self.old.lost < 2 ^ 32 - 1 }
        ensures { self.new ≡ queued e self.old }
    {
        if !self.queue.offer(e) {
            self.lost += 1;
        }
    }
}

/// Whether v is among the handles.
fn holds(handles: &[u32], v: u32) -> bool
    ensures { result ≡ list_any (λ h. h == v) handles.now }
{
    handles.iter().any(|h| *h == v)
}

/// Takes v out of the handles.
fn remove(handles: &mut Vec<u32>, v: u32)
    ensures items { handles.new.items ≡ filter (λ h. not (h == v)) handles.old.items }
    ensures capacity { vec_capacity handles.new ≡ vec_capacity handles.old }
{
    handles.retain(|h| *h != v);
}
