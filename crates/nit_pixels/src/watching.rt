//! Stages that the owner's end and one reader's end agree on, and the steps by which they agree.
ghost use Rattle.std.specs.Prelude.{◌≡◌, [], IsSome, None};
ghost use Rattle.nit_pixels.specs.Terms.{HaveWords, IsPixelSeatOf, IsWatching, agreeing};
ghost use Rattle.nit_pixels.specs.Terms.{agreeing_as, reader_view, told_words, unagreed};
ghost use Rattle.nit_pixels.specs.Terms.{watching_view};

use crate::steps::{BeginsWatch, EndsWatch, LaysDown, PixelView, Remains, TakesUp, Words};
use atomic_table::Seat;
use std::marker::Brand;

/// Lists of words that two ends agree on. Contracts alone know them, and a call picks them.
pub trait Stages {
    ghost use Rattle.std.specs.Prelude.{ℕ, List};

    ghost stages: { List (List ℕ) };
}

impl Stages for Brand {
    ghost use Rattle.std.specs.Prelude.{[]};

    ghost stages = { [] };
}

/// Splits a seat off the owner's that knows these stages, which have the owner's words. No other
/// agrees with the owner.
pub(crate) fn begin_watch<X: Stages>(
    words: &Words,
    seat: &mut Seat<(), PixelView>,
) -> Seat<(), PixelView>
    requires table { IsPixelSeatOf words.now.table_id seat.old }
    requires owner { IsSome seat.old.me.0.words }
    requires unwatched { seat.old.me.0.agreed ≡ None }
    requires held { HaveWords X.stages (told_words seat.old.me.0.words) }
    ensures table { (seat.new.table_id ≡ seat.old.table_id) × (seat.new.id ≡ seat.old.id)
        × (result.table_id ≡ seat.old.table_id) }
    ensures seat { seat.new.me ≡ (agreeing X.stages seat.old.me.0, seat.old.me.1) }
    ensures part { result.me ≡ (agreeing X.stages (reader_view seat.old.me.0), []) }
{
    words.split_seat::<BeginsWatch<X>>(seat)
}

/// Splits a seat off a reader's that knows its stages, and the reader's knows none.
pub(crate) fn lay_down(words: &Words, seat: &mut Seat<(), PixelView>) -> Seat<(), PixelView>
    requires table { IsPixelSeatOf words.now.table_id seat.old }
    requires watches { IsWatching seat.old.me.0 }
    ensures table { (seat.new.table_id ≡ seat.old.table_id) × (seat.new.id ≡ seat.old.id)
        × (result.table_id ≡ seat.old.table_id) }
    ensures seat { seat.new.me ≡ (unagreed seat.old.me.0, seat.old.me.1) }
    ensures part { result.me ≡ (watching_view seat.old.me.0, []) }
{
    words.split_seat::<LaysDown>(seat)
}

/// The owner's seat takes in the one that agrees with it, and agrees with none.
pub(crate) fn end_watch<R: Remains>(
    words: &Words,
    seat: &mut Seat<(), PixelView>,
    part: Seat<(), PixelView>,
)
    requires table { IsPixelSeatOf words.now.table_id seat.old
        × (part.table_id ≡ seat.old.table_id) }
    requires owner { IsSome seat.old.me.0.words }
    requires watches { IsWatching part.me.0 × (part.me.1 ≡ []) }
    requires remains { R.view ≡ reader_view seat.old.me.0 }
    ensures table { (seat.new.table_id ≡ seat.old.table_id) × (seat.new.id ≡ seat.old.id) }
    ensures seat { seat.new.me ≡ (unagreed seat.old.me.0, seat.old.me.1) }
{
    words.join_seat::<EndsWatch<R>>(seat, part);
}

/// A reader's seat takes in one that agrees with the owner's, and knows its stages.
pub(crate) fn take_up<R: Remains>(
    words: &Words,
    seat: &mut Seat<(), PixelView>,
    part: Seat<(), PixelView>,
)
    requires table { IsPixelSeatOf words.now.table_id seat.old
        × (part.table_id ≡ seat.old.table_id) }
    requires reader { seat.old.me.0.words ≡ None }
    requires watches { IsWatching part.me.0 × (part.me.1 ≡ []) }
    requires remains { R.view ≡ reader_view seat.old.me.0 }
    ensures table { (seat.new.table_id ≡ seat.old.table_id) × (seat.new.id ≡ seat.old.id) }
    ensures seat { seat.new.me ≡ (agreeing_as part.me.0 seat.old.me.0, seat.old.me.1) }
{
    words.join_seat::<TakesUp<R>>(seat, part);
}
