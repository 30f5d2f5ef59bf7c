//! A buffer of pixel words, and the right to be its owner.
ghost use Rattle.std.specs.Prelude.{◌≡◌, IfOk};
ghost use Rattle.nit_pixels.specs.Terms.{IsRunDonation, new_sight};

use crate::canvas::Canvas;
use crate::steps::{Identity, PixelRule, PixelView};
use crate::zeros::zero_words;
use atomic_table::{Seat, Table};
use nit_rect::NoMemory;
use nit_script::Client;
use std::alloc::Global;
use std::marker::Model;
use std::snapshot::Snapshot;

/// The words of one owner, seen as the name that tells this buffer from every other.
#[derive(Drop)]
pub struct PixelBuffer {
    table: Table<(), PixelView, Identity, PixelRule, Global>,
}

impl Model for PixelBuffer {
    ghost use Rattle.atomic_table.specs.Seated.{table_id_coded};
    ghost use Rattle.nit_pixels.specs.End.{BufferName};

    ghost Value = { BufferName };

    ghost coded = { table_id_coded };

    ghost view = { λ b. b.table.shared.table_id };
}

/// The right to be the owner of one buffer, seen as the canvas that it will make. A buffer has one
/// key.
#[derive(Drop)]
pub struct Key {
    seat: Seat<(), PixelView>,
}

impl Model for Key {
    ghost use Rattle.nit_pixels.specs.End.{End};
    ghost use Rattle.nit_pixels.specs.PixelSeat.{end_of, IsOwners, IsZeroBehind};

    ghost Value = { End };

    ghost view = { λ k. end_of k.seat };

    ghost invariant = { λ k. IsOwners k.seat × IsZeroBehind 0 k.seat };
}

impl PixelBuffer {
    /// A buffer of this owner, whose session opens with this donation and has this script, and its
    /// one key. It has as many words as the session can ever pay for, all 0. At each place of it
    /// may stand what the lines of the script leave there. Only this call takes memory.
    ///
    /// # Errors
    ///
    /// `NoMemory` where memory runs out.
    pub fn new(
        alloc: Global,
        owner: u32,
        script: &Client,
        donation: u32,
    ) -> Result<(PixelBuffer, Key), NoMemory>
        requires { IsRunDonation donation }
        ensures sight { IfOk result (λ made. made.1.sight ≡ new_sight owner script.now donation) }
        ensures key { IfOk result (λ made. made.1.stand.buffer ≡ made.0) }
    {
        let lines = script.lines();
        let identity = Identity {
            owner,
            script: Snapshot::of(script),
            donation,
        };
        let words = zero_words(donation);
        let (table, seat) = Table::of_words(alloc, words, &identity)?;
        Ok((PixelBuffer { table }, Key { seat }))
    }

    /// The owner's end of the buffer. The key is this buffer's.
    pub fn canvas(&self, key: Key) -> Canvas<'_>
        requires { key.stand.buffer ≡ self.now }
        ensures { result ≡ key }
    {
        Canvas {
            words: &self.table.shared,
            seat: key.seat,
            last_set: 0,
        }
    }
}
