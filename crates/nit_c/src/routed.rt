//! Whom an event went to, as C reads it.

ghost use Rattle.std.specs.Prelude.{◌≡◌};
ghost use Rattle.nit_c.specs.Terms.{c_delivery, c_item, c_routed, c_told, one_of, only_routed};

use crate::numbers::{DONE, KILL, unserved_number};
use crate::reply::{EMPTY, NitEvent, event_of};
use nit_events::{Delivery, Item, Routed};
use nit_host::Unserved;

/// Whom one thing that the user did went to.
#[repr(C)]
#[derive(Clone, Copy)]
pub struct NitDelivery {
    /// The number of the seat.
    pub seat: u32,
    /// What its client is told, or that it is locked out.
    pub event: NitEvent,
}

/// The answer to what the user did: the first `count` of `a`, `b` and `c`, in this order.
#[repr(C)]
#[derive(Clone, Copy)]
pub struct NitRouted {
    /// The kind of the answer.
    pub kind: u32,
    /// 0..=3.
    pub count: u32,
    /// The first delivery.
    pub a: NitDelivery,
    /// The second.
    pub b: NitDelivery,
    /// The third.
    pub c: NitDelivery,
}

/// No delivery.
const NOBODY: NitDelivery = NitDelivery {
    seat: 0,
    event: EMPTY,
};

/// An answer that is its kind alone.
pub(crate) fn only_routed(kind: u32) -> NitRouted
    ensures { result ≡ only_routed kind }
{
    NitRouted {
        kind,
        count: 0,
        a: NOBODY,
        b: NOBODY,
        c: NOBODY,
    }
}

/// What the user's input does to a client, as C reads it.
fn item_of(item: &Item) -> NitEvent
    ensures { result ≡ c_item item.now }
{
    match item {
        Item::Event(event) => event_of(event),
        Item::Kill => NitEvent {
            kind: KILL,
            ..EMPTY
        },
    }
}

/// A delivery as C reads it.
fn delivery_of(delivery: &Option<Delivery>) -> NitDelivery
    ensures { result ≡ c_delivery delivery.now }
{
    match delivery {
        Some(delivery) => NitDelivery {
            seat: delivery.sid,
            event: item_of(&delivery.item),
        },
        None => NOBODY,
    }
}

/// One where there is a delivery, and 0 where there is none.
fn one_of(delivery: &Option<Delivery>) -> u32
    ensures { result ≡ one_of delivery.now }
{
    match delivery {
        Some(_delivery) => 1,
        None => 0,
    }
}

/// The deliveries of an event as C reads them.
fn routed_of(routed: &Routed) -> NitRouted
    ensures { result ≡ c_routed routed.now }
{
    NitRouted {
        kind: DONE,
        count: one_of(&routed.a) + one_of(&routed.b) + one_of(&routed.c),
        a: delivery_of(&routed.a),
        b: delivery_of(&routed.b),
        c: delivery_of(&routed.c),
    }
}

/// What a host answers to what the user did, as C reads it.
pub(crate) fn told_of(answer: &Result<Routed, Unserved>) -> NitRouted
    ensures { result ≡ c_told answer.now }
{
    match answer {
        Ok(routed) => routed_of(routed),
        Err(why) => only_routed(unserved_number(*why)),
    }
}
