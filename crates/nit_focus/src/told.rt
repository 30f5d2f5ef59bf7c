ghost use Rattle.std.specs.Prelude.{◌≡◌, ◌+◌, ◌≤◌, [], ◌∷◌, ◌++◌, length};
ghost use Rattle.nit_focus.specs.Terms.{deliveries_of, routed_as, to};

use nit_events::{Delivery, Event, Item, Routed};
use std::marker::Model;

/// What a device event has delivered so far, at most three items, seen as their list.
#[derive(Drop)]
pub(crate) struct Told {
    routed: Routed,
}

impl Model for Told {
    ghost use Rattle.std.specs.Prelude.{◌≡◌, List};
    ghost use Rattle.nit_events.specs.Input.{routed_as, deliveries_of};
    ghost use Rattle.nit_events.specs.declared.event.Delivery.{Delivery};

    ghost Value = { List Delivery };

    ghost view = { λ t. deliveries_of t.routed };

    ghost invariant = { λ t. routed_as (deliveries_of t.routed) ≡ t.routed };
}

impl Told {
    /// Nothing is delivered.
    pub(crate) fn nothing() -> Told
        ensures { result ≡ [] }
    {
        Told {
            routed: Routed {
                a: None,
                b: None,
                c: None,
            },
        }
    }

    /// An event to a session; nothing where there is none.
    pub(crate) fn to(sid: Option<u32>, event: Event) -> Told
        ensures told { result ≡ to sid event }
        ensures few { length result ≤ 1 }
    {
        let mut told = Told::nothing();
        told.tell(sid, event);
        told
    }

    /// An event to a session as well.
    pub(crate) fn tell(&mut self, sid: Option<u32>, event: Event)
        requires { length self.old ≤ 2 }
        ensures told { self.new ≡ self.old ++ to sid event }
        ensures few { length self.new ≤ length self.old + 1 }
    {
        if let Some(sid) = sid {
            self.add(Delivery {
                sid,
                item: Item::Event(event),
            });
        }
    }

    /// A delivery after all others.
    pub(crate) fn add(&mut self, delivery: Delivery)
        requires { length self.old ≤ 2 }
        ensures told { self.new ≡ self.old ++ delivery ∷ [] }
        ensures one_more { length self.new ≡ length self.old + 1 }
    {
        if self.routed.a.is_none() {
            self.routed.a = Some(delivery);
        } else if self.routed.b.is_none() {
            self.routed.b = Some(delivery);
        } else {
            self.routed.c = Some(delivery);
        }
    }

    /// The deliveries as an entry keeps them.
    pub(crate) fn routed(&self) -> Routed
        ensures routed { result ≡ routed_as self.now }
        ensures all { deliveries_of result ≡ self.now }
        ensures few { length self.now ≤ 3 }
    {
        self.routed
    }
}
