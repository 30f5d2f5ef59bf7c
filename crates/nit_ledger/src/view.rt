//! What a book and its shares know, and the rule that holds of all of them.
use atomic_table::{Table, TableRule};
use nit_events::Entry;
use std::alloc::Global;
use std::collections::LinkedList;

/// The table of a book: one word, which never changes, and a view for the book and for each share.
pub(crate) type Pages = Table<(), BookView, (), BookRule, Global>;

/// An entry of a book: one of the journal, and the raw words of the screen after it. No value of
/// it is made.
pub struct Recorded {
    pub entry: Entry,
    pub raw: LinkedList<u32>,
}

/// What a share knows. No value of it is made.
pub struct Token {
    /// Which share of the book it is.
    pub number: u64,
    /// How often it has counted.
    pub count: u64,
    /// The entries that the book had when the share last met it.
    pub seen: LinkedList<Recorded>,
}

/// What a seat of the book's table knows. No value of it is made.
pub enum BookView {
    /// The book: its entries, the count of each share, and the share that is taken in.
    OfBook(LinkedList<Recorded>, LinkedList<u64>, Option<Token>),
    /// A share.
    OfShare(Token),
    /// Nothing: the share that it knew was taken in.
    Spent,
}

/// There is exactly one view of the book. Each number below the number of its counts is held by
/// exactly one view: by a share's, or by the book's where the share is taken in. Each share is in
/// step with the book. The one word is 0. At the beginning there is no entry and no count.
pub struct BookRule;

impl TableRule<(), BookView, ()> for BookRule {
    ghost use Rattle.std.specs.Prelude.{[]};
    ghost use Rattle.nit_ledger.specs.BookRule.{IsBookRule, book_at_rest};

    ghost holds = { λ _. IsBookRule };

    ghost first = { λ _. book_at_rest [] [] };
}
