//! A book and two shares of it.

use nit_events::{Call, Entry, Reply};
use nit_ledger::{Book, HasRaw};

#[test]
fn two_shares_append_count_and_meet(rt: HostRuntime) {
    let mut book = Book::new(rt.alloc()).expect(&rt, "memory");
    let mut first = book.share();
    let mut second = book.share();
    let viewed = Entry::Call {
        sid: 0,
        call: Call::View,
        reply: Reply::Handle(0),
    };
    let closed = Entry::Call {
        sid: 1,
        call: Call::Close,
        reply: Reply::Closed,
    };
    let before = OnePixel { word: 0 };
    let after = OnePixel { word: 7 };
    book.append(&mut first, &viewed, &before);
    book.append(&mut second, &closed, &after);
    book.count(&mut first);
    book.append(&mut first, &Entry::Final, &after);
    book.meet(&mut second);
    can_be_sent(&first);
    can_be_sent(&book);
}

/// A screen of one pixel. Contracts see its raw word after an entry.
#[derive(Drop)]
struct OnePixel {
    word: u32,
}

impl HasRaw for OnePixel {
    ghost use Rattle.std.specs.Prelude.{[], ◌∷◌};

    ghost raw = { λ s. s.word ∷ [] };
}

/// Compiles for what can be sent to another thread.
fn can_be_sent<T: Send>(_value: &T) {}
