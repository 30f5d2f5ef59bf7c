//! The rule of the words, and each kind of step on them.
use crate::watching::Stages;
use atomic_table::{Join, Play, Shared, Split, TableRule};
use nit_script::Client;
use std::collections::LinkedList;
use std::marker::{Brand, PhantomData};
use std::snapshot::Snapshot;

/// The words as threads see them.
pub(crate) type Words = Shared<(), PixelView, Identity, PixelRule>;

/// What an end knows. No value of it is made.
pub struct PixelView {
    /// The number of the owner.
    pub owner: u32,
    /// The words before the owner's script, and after each of its lines.
    pub stages: LinkedList<LinkedList<u32>>,
    /// The words, in the owner's view alone.
    pub words: Option<LinkedList<u32>>,
    /// Lists of words of which one has the word at each place, in the owner's view and in that of
    /// the one reader who agrees on them with it.
    pub agreed: Option<LinkedList<LinkedList<u32>>>,
    /// The place and the word of each load, oldest first.
    pub log: LinkedList<(usize, u32)>,
}

/// What is fixed when the words are made.
#[derive(Drop)]
pub struct Identity {
    /// The number of the owner.
    pub owner: u32,
    /// The owner's script. Contracts alone know it.
    pub script: Snapshot<Client>,
    /// What the owner's session opens with.
    pub donation: u32,
}

/// Each word is 0 or one that the owner's script leaves at its place after some of its lines, all
/// views have one owner and one script's words, and the one view that tells words tells those of
/// the table. The first view is the owner's. It and at most one other agree on stages, which have
/// the words of the table.
pub struct PixelRule;

impl TableRule<(), PixelView, Identity> for PixelRule {
    ghost use Rattle.nit_pixels.specs.PixelRule.{IsPixelRule, owner_view};

    ghost holds = { IsPixelRule };

    ghost first = { owner_view };
}

/// A load, of the owner or of a reader: it is logged, and the owner finds the word that it knows.
pub(crate) struct Loads;

impl Play<(), PixelView> for Loads {
    ghost use Rattle.nit_pixels.specs.PixelRule.{LoadStep};

    ghost then = { LoadStep };
}

/// A store of the owner.
pub(crate) struct Stores;

impl Play<(), PixelView> for Stores {
    ghost use Rattle.nit_pixels.specs.PixelRule.{StoreStep};

    ghost then = { StoreStep };
}

/// A reader's view is split off the owner's, which stays.
pub(crate) struct SplitsOff;

impl Split<PixelView> for SplitsOff {
    ghost use Rattle.nit_pixels.specs.PixelRule.{reader_view};

    ghost left = { λ view. view };

    ghost right = { reader_view };
}

/// A reader's view that knows the stages is split off the owner's, and the two agree on them.
pub(crate) struct BeginsWatch<X: Stages>(PhantomData<X>);

impl<X: Stages> Split<PixelView> for BeginsWatch<X> {
    ghost use Rattle.nit_pixels.specs.PixelRule.{agreeing, reader_view};

    ghost left = { agreeing X.stages };

    ghost right = { λ view. agreeing X.stages (reader_view view) };
}

/// A reader's view gives up what it agrees on, and a view of its own has it.
pub(crate) struct LaysDown;

impl Split<PixelView> for LaysDown {
    ghost use Rattle.nit_pixels.specs.PixelRule.{unagreed, watching_view};

    ghost left = { unagreed };

    ghost right = { watching_view };
}

/// What is left of a view that is taken in. Each call that takes one in picks it.
pub(crate) trait Remains {
    ghost use Rattle.nit_pixels.specs.declared.steps.PixelView.{PixelView};

    ghost view: { PixelView };
}

impl Remains for Brand {
    ghost use Rattle.nit_pixels.specs.PixelRule.{blank_view};

    ghost view = { blank_view };
}

/// The owner's view takes in the view that agrees with it, and agrees with none.
pub(crate) struct EndsWatch<R: Remains>(PhantomData<R>);

impl<R: Remains> Join<PixelView> for EndsWatch<R> {
    ghost use Rattle.nit_pixels.specs.PixelRule.{unagreed};

    ghost both = { λ view _. unagreed view };

    ghost spent = { R.view };
}

/// A reader's view takes in one that agrees with the owner's, and agrees on the same.
pub(crate) struct TakesUp<R: Remains>(PhantomData<R>);

impl<R: Remains> Join<PixelView> for TakesUp<R> {
    ghost use Rattle.nit_pixels.specs.PixelRule.{agreeing_as};

    ghost both = { λ view part. agreeing_as part view };

    ghost spent = { R.view };
}
