//! The parts of a share's turn at the book: it is taken in, does its deed and is given back.
ghost use Rattle.std.specs.Prelude.{◌≡◌, ◌+◌, [], ◌∷◌, ◌++◌, length};
ghost use Rattle.nit_ledger.specs.Terms.{IsHolding, IsResting, IsSeatOf, IsShares, IsTokenInStep};
ghost use Rattle.nit_ledger.specs.Terms.{OfShare, book_at_rest, book_with_share, counts_at};
ghost use Rattle.nit_ledger.specs.Terms.{entries_at, raised_by, taken_token, token, token_at};

use crate::steps::{Carries, Deed, Does, Opens};
use crate::view::{BookView, Pages};
use atomic_table::Seat;

/// Splits a new share off.
pub(crate) fn split_off(pages: &Pages, book: &mut Seat<(), BookView>) -> Seat<(), BookView>
    requires pages { IsSeatOf pages.now.shared.table_id book.old }
    requires book { IsResting book.old }
    ensures pages { (book.new.table_id ≡ book.old.table_id)
        × (result.table_id ≡ book.old.table_id) }
    ensures book { book.new.me
        ≡ (book_at_rest (entries_at book.old) (counts_at book.old ++ 0 ∷ []), []) }
    ensures share { result.me
        ≡ (OfShare (token (length (counts_at book.old)) 0 (entries_at book.old)), []) }
{
    pages.shared.split_seat::<Opens>(book)
}

/// Takes a share in.
pub(crate) fn take_in(pages: &Pages, book: &mut Seat<(), BookView>, share: Seat<(), BookView>)
    requires pages { IsSeatOf pages.now.shared.table_id book.old
        × (share.table_id ≡ book.old.table_id) }
    requires book { IsResting book.old }
    requires share { IsShares share }
    ensures pages { book.new.table_id ≡ book.old.table_id }
    ensures book { book.new.me
        ≡ (book_with_share (entries_at book.old) (counts_at book.old) (token_at share), []) }
{
    pages.shared.join_seat::<Carries>(book, share);
}

/// The share that is taken in does its deed.
pub(crate) fn deed<D: Deed>(pages: &Pages, book: &mut Seat<(), BookView>)
    requires pages { IsSeatOf pages.now.shared.table_id book.old }
    requires book { IsHolding book.old }
    ensures pages { book.new.table_id ≡ book.old.table_id }
    ensures book { let t = taken_token book.old in let es = entries_at book.old ++ D.added in
        book.new.me ≡ (
          book_with_share es (raised_by (counts_at book.old) t.number D.risen)
              (token t.number (t.count + D.risen) es),
          [],
        ) }
    ensures before { IsTokenInStep (entries_at book.old) (counts_at book.old)
        (taken_token book.old) }
{
    pages.shared.load::<Does<D>>(book, 0);
}

/// Gives the share back.
pub(crate) fn give_back(pages: &Pages, book: &mut Seat<(), BookView>) -> Seat<(), BookView>
    requires pages { IsSeatOf pages.now.shared.table_id book.old }
    requires book { IsHolding book.old }
    ensures pages { (book.new.table_id ≡ book.old.table_id)
        × (result.table_id ≡ book.old.table_id) }
    ensures book { book.new.me ≡ (book_at_rest (entries_at book.old) (counts_at book.old), []) }
    ensures share { result.me ≡ (OfShare (taken_token book.old), []) }
{
    pages.shared.split_seat::<Carries>(book)
}
