//! Journals as texts, and their entries as values; and the texts of refused configurations.

use crate::checks::{must, same};
use nit_config::ConfigError;
use nit_events::{Call, Delivery, Device, Entry, Event, Item, Reply, Routed};
use nit_report::{journal_text, parse_journal};
use std::alloc::Global;
use std::fmt::Write;
use std::process::Abort;

#[test]
fn journals(rt: HostRuntime) {
    assert_text(&rt, rt.alloc(), &TWO_ENTRIES, TWO);
    assert_text(&rt, rt.alloc(), &MOVED, MOVED_TEXT);
}

#[test]
fn journal_read_again(rt: HostRuntime) {
    assert_entries(&rt, rt.alloc(), TWO, &TWO_ENTRIES);
}

#[test]
fn refused_configurations(rt: HostRuntime) {
    let mut texts = String::new(rt.alloc());
    for refusal in &REFUSALS {
        write!(texts, "{refusal}\n").expect(&rt, "memory");
    }
    let want = "syntax\nkind\nmissing\nunknown\ntoo many\nrange\nlabel\ntwice\nno memory\n";
    same(&rt, "texts", &texts.as_str(), &want);
}

/// A call of a session, with its answer.
macro_rules! call {
    ($sid:expr, $call:expr, $reply:expr) => {
        Entry::Call {
            sid: $sid,
            call: $call,
            reply: $reply,
        }
    };
}

/// The journal of two clients, of which one moves its view between a shot and the last picture.
const TWO: &str =
    "call 0 done < buffer 4 2\ncall 0 handle 1 < view\ncall 0 done < place 1 0 0 4 2\n\
     call 1 done < buffer 4 2\ncall 1 handle 1 < view\ncall 1 done < place 1 0 0 4 2\n\
     shot 1\ncall 1 done < place 1 4 2 4 2\nfinal\n";

/// The entries of this journal.
const TWO_ENTRIES: [Entry; 9] = [
    call!(0, Call::Buffer(4, 2), Reply::Done),
    call!(0, Call::View, Reply::Handle(1)),
    call!(0, Call::Place(1, 0, 0, 4, 2), Reply::Done),
    call!(1, Call::Buffer(4, 2), Reply::Done),
    call!(1, Call::View, Reply::Handle(1)),
    call!(1, Call::Place(1, 0, 0, 4, 2), Reply::Done),
    Entry::Shot { number: 1 },
    call!(1, Call::Place(1, 4, 2, 4, 2), Reply::Done),
    Entry::Final,
];

/// What the user does, with its deliveries in order.
const MOVED: [Entry; 2] = [
    Entry::Input {
        dev: Device::Motion(6, 1),
        routed: Routed {
            a: Some(Delivery {
                sid: 0,
                item: Item::Event(Event::Leave),
            }),
            b: Some(Delivery {
                sid: 1,
                item: Item::Event(Event::Motion(6, 1)),
            }),
            c: None,
        },
    },
    Entry::Input {
        dev: Device::Motion(1, 1),
        routed: Routed {
            a: None,
            b: None,
            c: None,
        },
    },
];

const MOVED_TEXT: &str = "input motion 6 1 > 0 leave > 1 motion 6 1\ninput motion 1 1\n";

/// All that a configuration may be refused for.
const REFUSALS: [ConfigError; 9] = [
    ConfigError::Syntax,
    ConfigError::Kind,
    ConfigError::Missing,
    ConfigError::Unknown,
    ConfigError::TooMany,
    ConfigError::Range,
    ConfigError::Label,
    ConfigError::Twice,
    ConfigError::NoMemory,
];

/// The journal of these entries has this text.
fn assert_text(rt: &impl Abort, alloc: Global, entries: &[Entry], want: &str) {
    let text = journal_text(alloc, entries).expect(rt, "memory for a text");
    same(rt, want, &text.as_slice(), &want.as_bytes());
}

/// The text of these entries is read as them.
fn assert_entries(rt: &impl Abort, alloc: Global, text: &str, want: &[Entry]) {
    must(rt, text, text.len() <= MOST);
    let entries = parse_journal(alloc, text.as_bytes()).expect(rt, "a journal");
    same(rt, text, &entries.as_slice(), &want);
}

/// The most bytes of a journal.
const MOST: usize = 134_217_728;
