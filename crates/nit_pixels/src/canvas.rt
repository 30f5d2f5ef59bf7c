//! The owner's end of a buffer.
ghost use Rattle.std.specs.Prelude.{◌≡◌, ◌<◌, ◌∷◌, [], IsSome, None};
ghost use Rattle.nit_pixels.specs.Terms.{HasStage, MayHold, reader_sight, stored, told_words};
ghost use Rattle.nit_pixels.specs.Terms.{with_stages};

use crate::lens::Lens;
use crate::standing::Standing;
use crate::steps::{Loads, PixelView, SplitsOff, Stores, Words};
use crate::watching::{Stages, begin_watch, end_watch, lay_down, take_up};
use atomic_table::Seat;
use nit_plan::Surface;
use nit_word::Glass;
use std::marker::{Brand, Model};

/// The owner's end of a buffer, seen as its sight, which tells words and log, and as the buffer and
/// the seat that it has. It can be sent to another thread.
#[derive(Drop)]
pub struct Canvas<'a> {
    pub(crate) words: &'a Words,
    pub(crate) seat: Seat<(), PixelView>,
    /// The words after this place were never set.
    pub(crate) last_set: usize,
}

impl<'a> Model for Canvas<'a> {
    ghost use Rattle.std.specs.Prelude.{◌≡◌};
    ghost use Rattle.nit_pixels.specs.End.{End};
    ghost use Rattle.nit_pixels.specs.PixelSeat.{end_of, IsOwners, IsZeroBehind};

    ghost Value = { End };

    ghost view = { λ c. end_of c.seat };

    ghost invariant = { λ c. IsOwners c.seat × (c.seat.table_id ≡ c.words.now.table_id)
        × IsZeroBehind c.last_set c.seat };
}

impl<'a> Canvas<'a> {
    /// A reader's end of the same buffer, with the same owner, size and ink and an empty log, which
    /// knows no stages. The canvas stays as it was.
    pub fn split(&mut self) -> Lens<'a>
        ensures canvas { self.new ≡ self.old }
        ensures lens { result.sight ≡ reader_sight self.old.sight }
        ensures buffer { result.stand.buffer ≡ self.old.stand.buffer }
    {
        let seat = self.words.split_seat::<SplitsOff>(&mut self.seat);
        Lens {
            words: self.words,
            seat,
        }
    }

    /// A reader's end that knows which words stand there: those of the canvas. From now on the
    /// canvas stores at a place only what the stages have there that the two agree on. A canvas
    /// makes one such end.
    pub fn watch(&mut self) -> Lens<'a>
        requires unwatched { self.old.sight.stages ≡ None }
        ensures canvas { self.new ≡ record self.old {
          sight = with_stages (told_words self.old.sight.words ∷ []) self.old.sight;
        } }
        ensures lens { result.sight ≡ with_stages (told_words self.old.sight.words ∷ [])
            (reader_sight self.old.sight) }
        ensures buffer { result.stand.buffer ≡ self.old.stand.buffer }
    {
        let seat = begin_watch::<Brand>(self.words, &mut self.seat);
        Lens {
            words: self.words,
            seat,
        }
    }

    /// The canvas and its watching end agree on these stages, which have all of the canvas's words.
    /// Nothing else changes.
    pub fn agree<X: Stages>(&mut self, lens: &mut Lens<'a>)
        requires buffer { lens.old.stand.buffer ≡ self.old.stand.buffer }
        requires watches { IsSome lens.old.sight.stages }
        requires watched { IsSome self.old.sight.stages }
        requires held { HasStage (with_stages X.stages self.old.sight)
            (told_words self.old.sight.words) }
        ensures canvas { self.new
            ≡ record self.old { sight = with_stages X.stages self.old.sight } }
        ensures lens { lens.new ≡ record lens.old { sight = with_stages X.stages lens.old.sight } }
    {
        let part = lay_down(self.words, &mut lens.seat);
        end_watch::<Brand>(self.words, &mut self.seat, part);
        let part = begin_watch::<X>(self.words, &mut self.seat);
        take_up::<Brand>(self.words, &mut lens.seat, part);
    }

    /// Sets the word at place `i`, which is below the size, to `w`, which is 0 or what the ink has
    /// there, and of the stages, where the canvas knows any. Nothing else about the canvas changes.
    pub fn store(&mut self, i: usize, w: u32)
        requires place { i < self.old.sight.size }
        requires word { MayHold self.old.sight i w }
        ensures { self.new ≡ record self.old { sight = stored self.old.sight i w } }
    {
        self.words.store::<Stores>(&mut self.seat, i, w as u64);
        self.last_set = self.last_set.max(i);
    }
}

impl<'a> Glass for Canvas<'a> {
    type Rest = Standing;

    ghost sight = { λ c. c.sight };

    ghost rest = { λ c. c.stand };

    fn load(&mut self, i: usize) -> u32 {
        self.words.load::<Loads>(&mut self.seat, i) as u32
    }
}

impl<'a> Surface for Canvas<'a> {
    fn store(&mut self, i: usize, w: u32) {
        Canvas::store(self, i, w);
    }

    fn unset_from(&self, end: usize) -> usize {
        if self.last_set < end {
            self.last_set + 1
        } else {
            end
        }
    }
}
