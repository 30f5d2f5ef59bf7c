//! A reader's end of a buffer.

use crate::standing::Standing;
use crate::steps::{Loads, PixelView, Words};
use atomic_table::Seat;
use nit_word::Glass;
use std::marker::Model;

/// A reader's end of a buffer, seen as its sight, which tells a log and no words, and the stages
/// where it watches, and as the buffer and the seat that it has. It can be sent to another thread.
#[derive(Drop)]
pub struct Lens<'a> {
    pub(crate) words: &'a Words,
    pub(crate) seat: Seat<(), PixelView>,
}

impl<'a> Model for Lens<'a> {
    ghost use Rattle.std.specs.Prelude.{◌≡◌};
    ghost use Rattle.nit_pixels.specs.End.{End};
    ghost use Rattle.nit_pixels.specs.PixelSeat.{end_of, IsReaders};

    ghost Value = { End };

    ghost view = { λ l. end_of l.seat };

    ghost invariant = { λ l. IsReaders l.seat × (l.seat.table_id ≡ l.words.now.table_id) };
}

impl<'a> Glass for Lens<'a> {
    type Rest = Standing;

    ghost sight = { λ l. l.sight };

    ghost rest = { λ l. l.stand };

    fn load(&mut self, i: usize) -> u32 {
        self.words.load::<Loads>(&mut self.seat, i) as u32
    }
}
