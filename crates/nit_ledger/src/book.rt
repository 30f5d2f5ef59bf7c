//! A book, and what its shares do at it.
ghost use Rattle.std.specs.Prelude.{◌≡◌, ◌+◌, ◌<◌, [], ◌∷◌, ◌++◌, length, IfOk};
ghost use Rattle.nit_ledger.specs.Terms.{IsShareOf, most_shares, raised, raised_by};

use crate::share::Share;
use crate::steps::{AddedEntry, Adding, Counting, Deed, Looking};
use crate::turn::{deed, give_back, split_off, take_in};
use crate::view::{BookView, Pages};
use atomic_table::Seat;
use nit_events::Entry;
use nit_rect::NoMemory;
use std::alloc::Global;
use std::marker::{Brand, Model};

/// What has raw words: a list of them that contracts alone know. An entry is added with those
/// after it.
pub trait HasRaw {
    ghost use Rattle.std.specs.Prelude.{ℕ, List};

    ghost raw: { Self → List ℕ };
}

/// Entries that only grow, each with the raw words after it, and a count for each share. It is
/// seen as its name, the list of its entries and the list of its counts, one for each share that it
/// has made.
#[derive(Drop)]
pub struct Book {
    pages: Pages,
    seat: Seat<(), BookView>,
}

impl Model for Book {
    ghost use Rattle.nit_ledger.specs.Book.{BookModel};
    ghost use Rattle.nit_ledger.specs.BookSeat.{book_model_of, IsSeatOf, IsResting};

    ghost Value = { BookModel };

    ghost view = { λ b. book_model_of b.seat };

    ghost invariant = { λ b. IsSeatOf b.pages.shared.table_id b.seat × IsResting b.seat };
}

impl Book {
    /// A book without entries and without shares. Only this call takes memory.
    pub fn new(alloc: Global) -> Result<Book, NoMemory>
        ensures entries { IfOk result (λ book. book.entries ≡ []) }
        ensures counts { IfOk result (λ book. book.counts ≡ []) }
    {
        let (pages, seat) = Pages::of_words(alloc, &[0], &())?;
        Ok(Book { pages, seat })
    }

    /// A new share, whose number is the number of shares before. It has counted nothing and has
    /// seen all entries. The book has fewer than 64 shares.
    pub fn share(&mut self) -> Share
        requires { length self.old.counts < most_shares }
        ensures book { self.new ≡ record self.old { counts = self.old.counts ++ 0 ∷ [] } }
        ensures share { result ≡ record {
          name = self.old.name;
          number = length self.old.counts;
          count = 0;
          seen = self.old.entries;
        } }
    {
        Share {
            seat: Some(split_off(&self.pages, &mut self.seat)),
        }
    }

    /// Adds an entry, which the share counts, with the raw words of `shown` after it. The share is
    /// of this book. After it the share has seen all entries.
    pub fn append<R: HasRaw>(&mut self, share: &mut Share, e: &Entry, shown: &R)
        requires { share.old.name ≡ self.old.name }
        ensures book { self.new ≡ record self.old {
          entries = self.old.entries ++ record { entry = e.now; raw = R.raw shown.now } ∷ [];
          counts = raised self.old.counts share.old.number;
        } }
        ensures share { share.new
            ≡ record share.old { count = share.old.count + 1; seen = self.new.entries } }
        ensures before { IsShareOf self.old share.old }
    {
        self.add::<Brand, R>(share, e, shown);
    }

    /// The share counts, and no entry is added. The share is of this book. After it the share has
    /// seen all entries.
    pub fn count(&mut self, share: &mut Share)
        requires { share.old.name ≡ self.old.name }
        ensures book { self.new
            ≡ record self.old { counts = raised self.old.counts share.old.number } }
        ensures share { share.new
            ≡ record share.old { count = share.old.count + 1; seen = self.old.entries } }
        ensures before { IsShareOf self.old share.old }
    {
        self.turn::<Counting>(share);
    }

    /// The share sees all entries, and nothing else changes. The share is of this book.
    pub fn meet(&mut self, share: &mut Share)
        requires { share.old.name ≡ self.old.name }
        ensures book { self.new ≡ self.old }
        ensures share { share.new ≡ record share.old { seen = self.old.entries } }
        ensures before { IsShareOf self.old share.old }
    {
        self.turn::<Looking>(share);
    }

    /// Adds the entry that the call picks, with the raw words that it picks.
    fn add<X: AddedEntry, R: HasRaw>(&mut self, share: &mut Share, e: &Entry, shown: &R)
        requires name { share.old.name ≡ self.old.name }
        requires entry { e.now ≡ X.entry }
        requires raw { R.raw shown.now ≡ X.raw }
        ensures book { self.new ≡ record self.old {
          entries = self.old.entries ++ record { entry = e.now; raw = R.raw shown.now } ∷ [];
          counts = raised self.old.counts share.old.number;
        } }
        ensures share { share.new
            ≡ record share.old { count = share.old.count + 1; seen = self.new.entries } }
        ensures before { IsShareOf self.old share.old }
    {
        let _ = e;
        let _ = shown;
        self.turn::<Adding<X>>(share);
    }

    /// The share is taken in, does its deed and is given back.
    fn turn<D: Deed>(&mut self, share: &mut Share)
        requires { share.old.name ≡ self.old.name }
        ensures book { self.new ≡ record self.old {
          entries = self.old.entries ++ D.added;
          counts = raised_by self.old.counts share.old.number D.risen;
        } }
        ensures share { share.new ≡ record share.old {
          count = share.old.count + D.risen;
          seen = self.old.entries ++ D.added;
        } }
        ensures before { IsShareOf self.old share.old }
    {
        let Some(seat) = share.seat.take() else {
            unreachable!()
        };
        take_in(&self.pages, &mut self.seat, seat);
        deed::<D>(&self.pages, &mut self.seat);
        share.seat = Some(give_back(&self.pages, &mut self.seat));
    }
}
