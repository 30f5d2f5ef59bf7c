//! The events that wait for a session.

use crate::checks::same;
use nit_events::{Event, Queue};
use std::process::Abort;

#[test]
fn full_queue(rt: HostRuntime) {
    let mut queue = Queue::new(rt.alloc()).expect(&rt, "memory");
    assert_filled(&rt, &mut queue);
    same(&rt, "length", &queue.len(), &64);
    assert_emptied(&rt, &mut queue);
    same(&rt, "empty", &queue.take(), &None);
}

/// The first 64 events find room, and the next one is refused.
fn assert_filled(rt: &impl Abort, queue: &mut Queue) {
    for code in 0..65 {
        let has_room = queue.offer(event(code));
        same(rt, "room", &(code, has_room), &(code, code < 64));
    }
}

/// The events come in their order.
fn assert_emptied(rt: &impl Abort, queue: &mut Queue) {
    for code in 0..64 {
        same(rt, "order", &queue.take(), &Some(event(code)));
    }
}

/// An event of this number.
fn event(number: u16) -> Event {
    match number {
        1 => Event::Wheel(-1),
        _ => Event::Press(number),
    }
}
