//! Each kind of step on a book's view.
use crate::view::BookView;
use atomic_table::{Join, Play, Split};
use nit_events::Entry;
use std::marker::{Brand, PhantomData};

/// A new share is split off the book.
pub(crate) struct Opens;

impl Split<BookView> for Opens {
    ghost use Rattle.nit_ledger.specs.BookRule.{book_after_split, newest_share};

    ghost left = { book_after_split };

    ghost right = { newest_share };
}

/// A share is taken in, and is given back.
pub(crate) struct Carries;

impl Join<BookView> for Carries {
    ghost use Rattle.nit_ledger.specs.declared.view.BookView.TheVariants.{Spent};
    ghost use Rattle.nit_ledger.specs.BookRule.{with_share};

    ghost both = { with_share };

    ghost spent = { Spent };
}

impl Split<BookView> for Carries {
    ghost use Rattle.nit_ledger.specs.BookRule.{without_share, share_in};

    ghost left = { without_share };

    ghost right = { share_in };
}

/// What the share that is taken in does: which entries it adds, and by how much its count rises.
/// After it the share has seen all entries.
pub(crate) trait Deed {
    ghost use Rattle.std.specs.Prelude.{ℕ, List};
    ghost use Rattle.nit_ledger.specs.declared.view.Recorded.{Recorded};

    ghost added: { List Recorded };

    ghost risen: { ℕ };
}

/// The step in which the deed is done.
pub(crate) struct Does<D: Deed>(PhantomData<D>);

impl<D: Deed> Play<(), BookView> for Does<D> {
    ghost use Rattle.nit_ledger.specs.BookRule.{StepDone};

    ghost then = { StepDone D.added D.risen };
}

/// An entry, and the raw words after it. Each call that adds one picks both.
pub(crate) trait AddedEntry {
    ghost use Rattle.std.specs.Prelude.{ℕ, List};
    ghost use Rattle.nit_events.specs.declared.entry.Entry.{Entry};

    ghost entry: { Entry };

    ghost raw: { List ℕ };
}

impl AddedEntry for Brand {
    ghost use Rattle.std.specs.Prelude.{[]};
    ghost use Rattle.nit_events.specs.declared.entry.Entry.TheVariants.{Final};

    ghost entry = { Final };

    ghost raw = { [] };
}

/// One entry is added, and counted.
pub(crate) struct Adding<X: AddedEntry>(PhantomData<X>);

impl<X: AddedEntry> Deed for Adding<X> {
    ghost use Rattle.std.specs.Prelude.{[], ◌∷◌};

    ghost added = { record { entry = X.entry; raw = X.raw } ∷ [] };

    ghost risen = { 1 };
}

/// Nothing is added, and the count rises.
pub(crate) struct Counting;

impl Deed for Counting {
    ghost use Rattle.std.specs.Prelude.{[]};

    ghost added = { [] };

    ghost risen = { 1 };
}

/// Nothing is added or counted.
pub(crate) struct Looking;

impl Deed for Looking {
    ghost use Rattle.std.specs.Prelude.{[]};

    ghost added = { [] };

    ghost risen = { 0 };
}
