//! Passes and clip passes as pairs, each of which goes to one thread, and as lists again.

ghost use Rattle.std.specs.Prelude.{◌≡◌, IfOk, length, ◌≤◌, [], map, vec_capacity, vec_len, ◌+◌};
ghost use Rattle.std.specs.Prelude.{◌++◌};
ghost use Rattle.nit_perform.specs.Terms.{AreBlank, HasRoomBack, IsReadyWithClips, IsRunnable};
ghost use Rattle.nit_perform.specs.Terms.{IsSetting, clips_setup, clips_setup_in};

use nit_actor::Pair;
use nit_clip::ClipScript;
use nit_config::Config;
use nit_hall::{ClipOpened, ClipPass, Opened, Parts, Pass, Room, UserPass, open, open_clips};
use nit_pixels::Canvas;
use nit_rect::NoMemory;
use std::alloc::Global;

/// A room with its actors: the user's pass, and each client's pass with its clip pass. The two last
/// lists are empty, with room for the passes and the clip passes when they come back.
#[derive(Drop)]
pub struct Paired<'a> {
    pub room: Room<'a>,
    pub user: UserPass<'a>,
    pub pairs: Vec<Pair<'a>>,
    pub passes: Vec<Pass<'a>>,
    pub clips: Vec<ClipPass<'a>>,
}

/// Opens a room with these scripts and a clip script for each, and pairs its passes with its clip
/// passes. The run can then begin.
pub fn open_pairs<'a>(
    alloc: Global,
    config: &Config,
    parts: Parts<'a>,
    canvases: Vec<Canvas<'a>>,
    clips: &'a [ClipScript],
) -> Result<Paired<'a>, NoMemory>
    requires setting { IsSetting config.now parts.scripts.now parts.plans.now }
    requires canvases { AreBlank config.now parts.scripts.now canvases.items }
    requires runnable { IsRunnable
        (clips_setup config.now parts.scripts.now parts.input.now clips.now) }
    requires each { length clips.now ≡ length parts.scripts.now }
    ensures ready { IfOk result (λ p. IsReadyWithClips p.room.parts p.room p.pairs.items p.user) }
    ensures back { IfOk result (λ p. HasRoomBack p) }
    ensures setup { IfOk result (λ p. clips_setup_in p.room.parts
        ≡ clips_setup config.now parts.entry.scripts.now parts.entry.input.now clips.entry.now) }
{
    let opened = open(alloc, config, parts, canvases)?;
    let opened = open_clips(alloc, opened, clips)?;
    let pairs = Vec::with_capacity(alloc, parts.scripts.len())?;
    Ok(make_pairs(opened, pairs))
}

/// The room of an opening, with its passes and clip passes in pairs, in order. There is a clip pass
/// for each pass; `pairs` is empty, and has room for all.
fn make_pairs<'a>(opened: ClipOpened<'a>, pairs: Vec<Pair<'a>>) -> Paired<'a>
    requires each { length opened.clips.items ≡ length opened.opened.passes.items }
    requires empty { pairs.items ≡ [] }
    requires room { vec_len opened.opened.passes ≤ vec_capacity pairs }
    ensures room { result.room ≡ opened.entry.opened.room }
    ensures user { result.user ≡ opened.entry.opened.user }
    ensures passes { map (λ b. b.pass) result.pairs.items ≡ opened.entry.opened.passes.items }
    ensures clips { map (λ b. b.clip) result.pairs.items ≡ opened.entry.clips.items }
    ensures back { HasRoomBack result }
{
    let ClipOpened { opened, clips } = opened;
    let Opened { room, passes, user } = opened;
    let mut passes = passes;
    let mut clips = clips;
    let mut pairs = pairs;
    pair_up(&mut passes, &mut clips, &mut pairs);
    Paired {
        room,
        user,
        pairs,
        passes,
        clips,
    }
}

/// Takes all passes and clip passes, and puts each pass with its clip pass behind the pairs, in
/// order. There is room for them.
fn pair_up<'a>(passes: &mut Vec<Pass<'a>>, clips: &mut Vec<ClipPass<'a>>, pairs: &mut Vec<Pair<'a>>)
    requires each { length clips.old.items ≡ length passes.old.items }
    requires room { vec_len pairs.old + vec_len passes.old ≤ vec_capacity pairs.old }
    ensures passes { map (λ b. b.pass) pairs.new.items
        ≡ map (λ b. b.pass) pairs.old.items ++ passes.old.items }
    ensures clips { map (λ b. b.clip) pairs.new.items
        ≡ map (λ b. b.clip) pairs.old.items ++ clips.old.items }
    ensures no_passes { passes.new.items ≡ [] }
    ensures no_clips { clips.new.items ≡ [] }
    ensures room { vec_capacity pairs.new ≡ vec_capacity pairs.old }
    ensures passes_room { vec_capacity passes.new ≡ vec_capacity passes.old }
    ensures clips_room { vec_capacity clips.new ≡ vec_capacity clips.old }
{
    let Some(pass) = passes.pop() else {
        return;
    };
    let Some(clip) = clips.pop() else {
        unreachable!()
    };
    pair_up(passes, clips, pairs);
    pairs.push_reserved(Pair { pass, clip });
}

/// Takes each pair apart, and puts its passes behind these lists, in order. There is room for them.
pub fn take_apart<'a>(
    pairs: &mut Vec<Pair<'a>>,
    passes: &mut Vec<Pass<'a>>,
    clips: &mut Vec<ClipPass<'a>>,
)
    requires room { vec_len passes.old + vec_len pairs.old ≤ vec_capacity passes.old }
    requires clips_room { vec_len clips.old + vec_len pairs.old ≤ vec_capacity clips.old }
    ensures passes { passes.new.items ≡ passes.old.items ++ map (λ b. b.pass) pairs.old.items }
    ensures clips { clips.new.items ≡ clips.old.items ++ map (λ b. b.clip) pairs.old.items }
    ensures passes_kept { vec_capacity passes.new ≡ vec_capacity passes.old }
    ensures clips_kept { vec_capacity clips.new ≡ vec_capacity clips.old }
{
    let Some(Pair { pass, clip }) = pairs.pop() else {
        return;
    };
    take_apart(pairs, passes, clips);
    passes.push_reserved(pass);
    clips.push_reserved(clip);
}
