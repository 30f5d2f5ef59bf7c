//! How the journal of a case is, by a line of it. `cases` has the language.

use crate::cases::sessions::assert_sessions;
use crate::cases::table::{Case, number, worded};
use crate::cases::{assert_text, owned};
use crate::checks::{must, same_by};
use nit_events::{Entry, Reply};
use nit_report::parse_journal;
use std::alloc::Global;
use std::process::Abort;

/// The most bytes that the reader of journals takes are more than this; no table comes near it.
const MOST: usize = 1_000_000;

/// The journal is as this line says.
pub fn assert_journal(rt: &impl Abort, alloc: Global, case: &Case, journal: &[Entry], line: &str) {
    let (word, rest) = worded(line);
    match word {
        "whole" => assert_entries(rt, alloc, case, journal, rest),
        "replies" => assert_replies(rt, alloc, case, journal, rest),
        _ => assert_sessions(rt, alloc, case, journal, number(rt, rest)),
    }
}

/// The session is answered this, as `1 TEXT`.
fn assert_replies(rt: &impl Abort, alloc: Global, case: &Case, journal: &[Entry], want: &str) {
    let (session, want) = worded(want);
    same_by(rt, case.title, want, &journal.last(), &Some(&Entry::Final));
    let found = replies(rt, alloc, journal, number(rt, session));
    assert_text(rt, alloc, case, want, &found);
}

/// The entries are those that these texts spell, one behind the other.
fn assert_entries(rt: &impl Abort, alloc: Global, case: &Case, found: &[Entry], names: &str) {
    let mut text = String::new(alloc);
    for name in names.split(' ') {
        let named = case.text(rt, alloc, name);
        text.push_str(&named).expect(rt, "memory");
    }
    let want = entries(rt, alloc, &text);
    same_by(rt, case.title, names, &found, &want.as_slice());
}

/// The entries that a text spells, by the reader of journals.
fn entries(rt: &impl Abort, alloc: Global, text: &str) -> Vec<Entry> {
    must(rt, text, text.len() <= MOST);
    parse_journal(alloc, text.as_bytes()).expect(rt, "a journal")
}

/// What this session is answered, one reply a line.
fn replies(rt: &impl Abort, alloc: Global, journal: &[Entry], session: u64) -> String {
    let mut text = String::new(alloc);
    for entry in journal {
        if let Entry::Call { sid, reply, .. } = entry {
            if *sid as u64 == session {
                push_reply(rt, alloc, &mut text, reply);
            }
        }
    }
    text
}

fn push_reply(rt: &impl Abort, alloc: Global, text: &mut String, reply: &Reply) {
    let spelled = spelled(rt, alloc, reply);
    text.push_str(&spelled).expect(rt, "memory");
    text.push_str("\n").expect(rt, "memory");
}

/// A reply as the journal's text has it. No case has one with an event.
fn spelled(rt: &impl Abort, alloc: Global, reply: &Reply) -> String {
    let numbers = match *reply {
        Reply::Handle(handle) => format!(in alloc; "handle {handle}"),
        Reply::NoSuchView(handle) => format!(in alloc; "no-such-view {handle}"),
        Reply::OutOfQuota { need, left } => format!(in alloc; "out-of-quota {need} {left}"),
        Reply::NoReserve { need, left } => format!(in alloc; "no-reserve {need} {left}"),
        _ => return owned(rt, alloc, word(reply)),
    };
    numbers.expect(rt, "memory")
}

/// The spelling of a reply without numbers.
fn word(reply: &Reply) -> &'static str {
    match reply {
        Reply::Done => "done",
        Reply::NoEvent => "no-event",
        Reply::BadRect => "bad-rect",
        Reply::BadSize => "bad-size",
        Reply::BadTitle => "bad-title",
        Reply::TooManyViews => "too-many-views",
        Reply::Closed => "closed",
        Reply::Killed => "killed",
        _ => "?",
    }
}
