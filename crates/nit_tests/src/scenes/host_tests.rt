//! One client on a screen of six columns and four rows. The words were worked out by hand.

use nit_events::{Call, Reply};
use nit_glyph::{Label, Lettering};
use nit_host::{Client, Host, ScreenPlan, SeatPlan, plan};
use nit_rect::Rect;
use std::alloc::Global;
use std::process::Abort;
use std::rt::HostRuntime;

/// The bare screen.
const B: u32 = 0x20;

/// The client's view stands in columns 1 and 2 and rows 1 and 2, and shows its buffer.
const SHOWN: [u32; 24] = [
    B, B, B, B, B, B, //
    B, 1, 2, B, B, B, //
    B, 3, 4, B, B, B, //
    B, B, B, B, B, B,
];

#[test]
fn a_look_brings_words_up_to_date(rt: HostRuntime) {
    let mut host = opened(&rt, rt.alloc());
    let mut out = [7; 24];
    let all = look(&rt, &mut host, &mut out);
    assert!(rt; all == Rect::new(0, 0, 6, 4));
    client(&rt, &mut host);
    let part = look(&rt, &mut host, &mut out);
    assert!(rt; part == Rect::new(1, 1, 2, 2));
    assert!(rt; out == SHOWN);
    let none = look(&rt, &mut host, &mut out);
    assert!(rt; none.is_none());
}

/// A look at a screen of this size.
fn look(rt: &impl Abort, host: &mut Host, out: &mut [u32; 24]) -> Option<Rect> {
    let (width, height) = host.size();
    assert!(rt; width == 6);
    assert!(rt; height == 4);
    host.look(out)
}

/// A host with one free seat.
fn opened(rt: &impl Abort, alloc: Global) -> Host {
    let seats = [SeatPlan {
        donation: 65536,
        layer: 0,
        clicks: true,
    }];
    let screen = ScreenPlan {
        width: 6,
        height: 4,
        bar: false,
        lettering: Lettering::PLAIN,
    };
    let config = plan(alloc, &screen, &seats).expect(rt, "a plan");
    Host::vacant(alloc, &config, screen.lettering).expect(rt, "memory")
}

/// A client with a buffer and a view.
fn client(rt: &impl Abort, host: &mut Host) {
    let label = Label::new(b"a").expect(rt, "a label");
    let client = host.seat(0, label).expect(rt, "a free seat");
    assert!(rt; client == Client { seat: 0, turn: 1 });
    done(rt, host, client, &Call::Buffer(2, 2));
    let made = host.call(client, &Call::View);
    assert!(rt; made == Ok(Reply::Handle(1)));
    done(rt, host, client, &Call::Place(1, 1, 1, 2, 2));
    let drawn = host.refresh(client, (0, 0), (2, 2), &[1, 2, 3, 4]);
    assert!(rt; drawn == Ok(Reply::Done));
}

fn done(rt: &impl Abort, host: &mut Host, client: Client, call: &Call) {
    let reply = host.call(client, call);
    assert!(rt; reply == Ok(Reply::Done));
}
