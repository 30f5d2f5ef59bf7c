//! A share of a book.

use crate::view::BookView;
use atomic_table::Seat;
use std::marker::Model;

/// What one actor knows of a book, seen as the book's name, its number, its count, and the entries
/// that the book had when they last met. It can be sent to another thread.
#[derive(Drop)]
pub struct Share {
    /// None while the share is taken in.
    pub(crate) seat: Option<Seat<(), BookView>>,
}

impl Model for Share {
    ghost use Rattle.nit_ledger.specs.Book.{ShareModel};
    ghost use Rattle.nit_ledger.specs.BookSeat.{share_model_of, HasSeat};

    ghost Value = { ShareModel };

    ghost view = { λ s. share_model_of s.seat };

    ghost invariant = { λ s. HasSeat s.seat };
}
