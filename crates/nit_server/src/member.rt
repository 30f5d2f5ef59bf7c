//! One session as the server keeps it.

ghost use Rattle.std.specs.Prelude.{◌≡◌, ◌+◌, ◌-◌, ◌*◌, ◌^◌, ◌<◌, ◌≤◌, ◌↔◌, [], ◌∷◌, ◌++◌, false};
ghost use Rattle.std.specs.Prelude.{true, None, Some, IfOk, IfSome, IsNone, IsSomeAnd, length, map};
ghost use Rattle.nit_server.specs.Terms.{Buffer, Destroy, IsDonation, IsPaid, IsTable, Take};
ghost use Rattle.nit_server.specs.Terms.{Upgrade, accepted, by_call, by_handle, ended};
ghost use Rattle.nit_server.specs.Terms.{first_session, has_handle, has_view, is_slot_taken};
ghost use Rattle.nit_server.specs.Terms.{most_side, most_views, most_waiting, queued, receive};
ghost use Rattle.nit_server.specs.Terms.{refusal, slot_of, spare, view_slots, with_slot};
ghost use Rattle.nit_server.specs.Terms.{without_handle, without_slot};
ghost use Rattle.nit_events.specs.declared.call.Call.TheVariants.{View};
ghost use Rattle.nit_events.specs.declared.event.Item.TheVariants as item;

use nit_events::{Call, Event, Queue, Reply, Status};
use nit_journal::refusing::{
    by_buffer, by_offset, by_rectangle, by_status, by_title, by_upgrade, by_view, first_of,
};
use nit_rect::NoMemory;
use nit_slots::{Account, Slots, Table, view_slots};
use std::alloc::Global;
use std::marker::Model;

/// A session: what it pays for, its views with their slots, its buffer's size, its events and its
/// status.
#[derive(Drop)]
pub(crate) struct KeptSession {
    account: Account,
    table: Table,
    queue: Queue,
    status: Status,
    width: u32,
    height: u32,
    lost: u64,
}

impl Model for KeptSession {
    ghost use Rattle.nit_server.specs.KeptSession.{KeptSessionModel, IsKeptSession};
    ghost use Rattle.nit_server.specs.KeptSession.{session_of_parts};

    ghost Value = { KeptSessionModel };

    ghost view = { λ m. record {
      session = session_of_parts m.account m.table m.status m.width m.height m.queue m.lost;
      pairs = m.table.pairs;
      most = m.table.most;
    } };

    ghost invariant = { λ m. IsKeptSession m.account m.table m.width m.height };
}

impl KeptSession {
    /// A session that opens with this donation, 256..=268435456 units. All memory that it will ever
    /// use is taken here.
    pub(crate) fn new(alloc: Global, donation: u32) -> Result<KeptSession, NoMemory>
        requires { IsDonation donation }
        ensures { IfOk result (λ m. m
            ≡ record { session = first_session donation; pairs = []; most = view_slots donation }) }
    {
        Ok(KeptSession {
            account: Account::new(donation),
            table: Table::new(alloc, view_slots(donation))?,
            queue: Queue::new(alloc)?,
            status: Status::Live,
            width: 0,
            height: 0,
            lost: 0,
        })
    }

    /// The first refusal that the call meets. None where it is to be accepted.
    pub(crate) fn refused(&self, call: &Call) -> Option<Reply>
        ensures { result ≡ refusal self.now.session call.now }
    {
        first_of(by_status(self.status), self.by_call(call))
    }

    /// The first refusal that the call meets at a live session.
    fn by_call(&self, call: &Call) -> Option<Reply>
        ensures { result ≡ by_call self.now.session call.now }
    {
        match *call {
            Call::Buffer(w, h) => self.by_buffer(w, h),
            Call::View => self.by_view(),
            Call::Place(v, x, y, w, h) => first_of(self.by_handle(v), by_rectangle(x, y, w, h)),
            Call::Offset(v, x, y) => first_of(self.by_handle(v), by_offset(x, y)),
            Call::Front(v) | Call::Back(v) | Call::Destroy(v) => self.by_handle(v),
            Call::Above(v, n) => first_of(self.by_handle(v), self.by_handle(n)),
            Call::Title(v, text) => first_of(self.by_handle(v), by_title(&text)),
            Call::Refresh(x, y, w, h) => by_rectangle(x, y, w, h),
            Call::Upgrade(n) => by_upgrade(self.account, n),
            Call::Take | Call::Close => None,
        }
    }

    /// The first refusal that `Buffer(w, h)` meets.
    fn by_buffer(&self, w: u32, h: u32) -> Option<Reply>
        ensures { result ≡ by_call self.now.session (Buffer w h) }
    {
        by_buffer(self.account, w, h)
    }

    /// The first refusal that `View` meets.
    fn by_view(&self) -> Option<Reply>
        ensures { result ≡ by_call self.now.session View }
    {
        by_view(self.account)
    }

    /// The session has a view of this handle.
    fn by_handle(&self, v: u32) -> Option<Reply>
        ensures { result ≡ by_handle self.now.session v }
    {
        match self.find(v) {
            Some(_slot) => None,
            None => Some(Reply::NoSuchView(v)),
        }
    }

    /// The buffer of an accepted `Buffer(w, h)`.
    pub(crate) fn buffer(&mut self, w: u32, h: u32)
        requires { refusal self.old.session (Buffer w h) ≡ None }
        ensures { self.new ≡ record self.old {
          session =
              (accepted self.old.session (Buffer w h)).session;
        } }
    {
        let paid = self.account.try_buffer(w, h);
        prove!(paid.is_ok());
        self.width = w;
        self.height = h;
    }

    /// The new view of an accepted `View`: its handle, and a slot that was free.
    pub(crate) fn create(&mut self, slots: &mut Slots) -> (u32, u32)
        requires accepted { refusal self.old.session View ≡ None }
        requires free { 0 < spare slots.old }
        requires next { self.old.session.next < 2 ^ 32 - 1 }
        ensures handle { result.0 ≡ self.old.session.next }
        ensures session { self.new.session ≡ (accepted self.old.session View).session }
        ensures pairs { self.new.pairs ≡ self.old.pairs ++ result ∷ [] }
        ensures most { self.new.most ≡ self.old.most }
        ensures was_not_held { has_handle self.old.pairs result.0 ≡ false }
        ensures below { result.1 < slots.old.total }
        ensures was_free { is_slot_taken slots.old result.1 ≡ false }
        ensures slots { slots.new
            ≡ record slots.old { taken = with_slot slots.old.taken result.1 } }
        ensures more_taken { length slots.new.taken ≡ length slots.old.taken + 1 }
    {
        let paid = self.account.try_view();
        prove!(paid.is_ok());
        self.table.create(slots)
    }

    /// The slot of a handle. None exactly where the session has no such view.
    pub(crate) fn find(&self, h: u32) -> Option<u32>
        ensures slot { result ≡ slot_of self.now.pairs h }
        ensures none { IsNone result ↔ (has_view self.now.session h ≡ false) }
    {
        self.table.find(h)
    }

    /// The slot of a handle that the session has.
    pub(crate) fn slot(&self, h: u32) -> u32
        requires { has_view self.now.session h ≡ true }
        ensures { slot_of self.now.pairs h ≡ Some result }
    {
        self.find(h).unwrap()
    }

    /// The view is gone, and its slot is free.
    pub(crate) fn destroy(&mut self, slots: &mut Slots, h: u32)
        requires { IsSomeAnd (slot_of self.old.pairs h)
            (λ slot. is_slot_taken slots.old slot ≡ true) }
        ensures session { self.new.session ≡ (accepted self.old.session (Destroy h)).session }
        ensures pairs { self.new.pairs ≡ without_handle self.old.pairs h }
        ensures most { self.new.most ≡ self.old.most }
        ensures slots { IsSomeAnd (slot_of self.old.pairs h) (λ slot.
            slots.new ≡ record slots.old { taken = without_slot slots.old.taken slot }) }
        ensures fewer_held { length self.new.pairs + 1 ≡ length self.old.pairs }
        ensures fewer_taken { length slots.new.taken + 1 ≡ length slots.old.taken }
    {
        self.table.destroy(slots, h);
        self.account.drop_view();
    }

    /// The greatest handle. None exactly where the session has no view.
    pub(crate) fn last(&self) -> Option<u32>
        ensures none { IsNone result ↔ (self.now.pairs ≡ []) }
        ensures held { IfSome result (λ h. has_handle self.now.pairs h ≡ true) }
    {
        self.table.last()
    }

    /// The oldest event is taken out and answered, or that there is none.
    pub(crate) fn take(&mut self) -> Reply
        ensures reply { result ≡ (accepted self.old.session Take).reply }
        ensures session { self.new ≡ record self.old {
          session =
              (accepted self.old.session Take).session;
        } }
    {
        match self.queue.take() {
            Some(e) => Reply::Event(e),
            None => Reply::NoEvent,
        }
    }

    /// The donation of an accepted `Upgrade(n)`.
    pub(crate) fn upgrade(&mut self, n: u32)
        requires { refusal self.old.session (Upgrade n) ≡ None }
        ensures { self.new ≡ record self.old {
          session =
              (accepted self.old.session (Upgrade n)).session;
        } }
    {
        let raised = self.account.upgrade(n);
        prove!(raised.is_ok());
    }

    /// The session is over, once its views are gone.
    pub(crate) fn end(&mut self, how: Status)
        requires { self.old.pairs ≡ [] }
        ensures { self.new ≡ record self.old { session = ended how self.old.session } }
    {
        self.account.clear();
        self.queue.clear();
        self.status = how;
        self.width = 0;
        self.height = 0;
    }

    /// The session is the first one of this donation again, 256..=268435456 units, once it has no
    /// view.
    pub(crate) fn open(&mut self, donation: u32)
        requires donation { IsDonation donation }
        requires pairs { self.old.pairs ≡ [] }
        requires most { self.old.most ≡ view_slots donation }
        ensures { self.new
            ≡ record { session = first_session donation; pairs = []; most = view_slots donation } }
    {
        self.account = Account::new(donation);
        self.table.restart();
        self.queue.clear();
        self.status = Status::Live;
        self.width = 0;
        self.height = 0;
        self.lost = 0;
    }

    /// A session that is live gets an event.
    pub(crate) fn tell(&mut self, e: Event)
        requires { self.old.session.lost < 2 ^ 64 - 1 }
        ensures { self.new ≡ record self.old { session = receive self.old.session (item.Event e) } }
    {
        match self.status {
            Status::Live => self.offer(e),
            Status::Closed | Status::Killed => {}
        }
    }

    /// An event joins the queue, or is lost where 64 wait.
    fn offer(&mut self, e: Event)
        requires { self.old.session.lost < 2 ^ 64 - 1 }
        ensures { self.new ≡ record self.old { session = queued e self.old.session } }
    {
        if !self.queue.offer(e) {
            self.lost += 1;
        }
    }

    /// The handle of the next view.
    pub(crate) fn next_handle(&self) -> u32
        ensures { result ≡ self.now.session.next }
    {
        self.table.next()
    }

    /// How many views the session has.
    pub(crate) fn views(&self) -> u32
        ensures count { result ≡ length self.now.session.handles }
        ensures most { result ≤ most_views }
    {
        let _ = self.table.last();
        self.account.views()
    }

    /// What the session has been donated, and what its reserve still has, in units.
    pub(crate) fn units(&self) -> (u32, u32)
        ensures { result ≡ (self.now.session.donation, self.now.session.reserve) }
    {
        (self.account.donation(), self.account.reserve())
    }

    /// How many events were lost.
    pub(crate) fn lost(&self) -> u64
        ensures { result ≡ self.now.session.lost }
    {
        self.lost
    }

    /// How many events wait.
    pub(crate) fn left(&self) -> u32
        ensures value { result ≡ length self.now.session.queue }
        ensures most { result ≤ most_waiting }
    {
        self.queue.len()
    }

    /// Whether the session is served.
    pub(crate) fn status(&self) -> Status
        ensures { result ≡ self.now.session.status }
    {
        self.status
    }

    /// The width and the height of the buffer, in words.
    pub(crate) fn size(&self) -> (u32, u32)
        ensures { result ≡ (self.now.session.bw, self.now.session.bh) }
    {
        (self.width, self.height)
    }

    /// What holds of every session. It does nothing.
    pub(crate) fn facts(&self)
        ensures paid { IsPaid self.now.session }
        ensures handles { self.now.session.handles ≡ map (λ p. p.0) self.now.pairs }
        ensures table { IsTable (record {
          pairs = self.now.pairs;
          next = self.now.session.next;
          most = self.now.most;
        }) }
        ensures sides { (self.now.session.bw ≤ most_side) × (self.now.session.bh ≤ most_side) }
        ensures place { refusal self.now.session View ≡ None → length self.now.pairs
            < self.now.most }
    {
        let _ = self.account.donation();
        let _ = self.table.last();
    }
}
