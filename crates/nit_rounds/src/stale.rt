//! What is drawn on a session's own glass, and not yet on the scene's.
//!
//! The scene loads a session's words by its own glass of it only in events of others. So strokes in
//! a row that cover each other are copied once.

ghost use Rattle.std.specs.Prelude.{◌≡◌, ◌+◌, ◌<◌, ◌≤◌, ◌&&◌, ◌||◌, true, ℕ, None, Some, IfSome};
ghost use Rattle.nit_rounds.specs.Terms.{AreBehind, FitsInto, HasSession, IsBehind, IsButFor};
ghost use Rattle.nit_rounds.specs.Terms.{glass_in, is_stale, length, most_side, nat_le, slice_set};

use crate::copying::copy_area;
use nit_plan::BufferArea;
use nit_scene::Scene;
use nit_word::Inked;

/// Places of a session's buffer, which had `w` columns when they were drawn.
#[derive(Clone, Copy, Debug, PartialEq, Eq)]
pub struct Stale {
    pub sid: u32,
    pub w: u32,
    pub area: BufferArea,
}

/// Whether some columns or rows are among others, all by the first one and how many there are.
fn lies_among(first: u32, count: u32, other: u32, others: u32) -> bool
    requires few { (first + count ≤ most_side) × (other + others ≤ most_side) }
    ensures { result ≡ (nat_le other first && nat_le (first + count) (other + others)) }
{
    other <= first && first + count <= other + others
}

/// Whether each word of the one is a word of the other, so far as that is seen by their corners.
fn lies_in(inner: &Stale, outer: &Stale) -> bool
    requires inner { (n : ℕ) × FitsInto n inner.now }
    requires outer { (n : ℕ) × FitsInto n outer.now }
    ensures { result ≡ true → (n : ℕ) → is_stale (Some inner.now) n ≡ true
        → is_stale (Some outer.now) n ≡ true }
{
    if inner.area.w == 0 || inner.area.h == 0 {
        return true;
    }
    inner.w == outer.w
        && lies_among(inner.area.x, inner.area.w, outer.area.x, outer.area.w)
        && lies_among(inner.area.y, inner.area.h, outer.area.y, outer.area.h)
}

/// What is stale when a later area of the own glass is too: of two the larger one where it has all
/// words of the other. Else the words of the earlier one are copied first.
pub(crate) fn add(
    scene: &mut Scene<Inked>,
    own: &Inked,
    stale: Option<Stale>,
    later: Stale,
) -> Stale
    requires session { HasSession scene.old later.sid }
    requires same { IfSome stale (λ a. a.sid ≡ later.sid) }
    requires earlier { IfSome stale (FitsInto own.now.size) }
    requires later { FitsInto own.now.size later }
    requires but { IsButFor (λ n. is_stale stale n || is_stale (Some later) n)
        (glass_in scene.old.glasses later.sid) own.now }
    ensures scene { scene.new ≡ record scene.old {
      glasses = slice_set scene.old.glasses later.sid (glass_in scene.new.glasses later.sid);
    } }
    ensures behind { IsBehind (Some result) later.sid (glass_in scene.new.glasses later.sid)
        own.now }
{
    let Some(earlier) = stale else {
        return later;
    };
    if lies_in(&later, &earlier) {
        return earlier;
    }
    if lies_in(&earlier, &later) {
        return later;
    }
    copy_area(scene, later.sid, own, earlier.w, earlier.area);
    later
}

/// Copies what is stale, so that the scene's glasses are the own ones.
pub(crate) fn settle(scene: &mut Scene<Inked>, owns: &[Inked], stale: Option<Stale>)
    requires each { length owns.now ≡ length scene.old.config.clients }
    requires behind { AreBehind stale scene.old.glasses owns.now }
    ensures { scene.new ≡ record scene.old { glasses = owns.now } }
{
    if let Some(a) = stale {
        copy_area(scene, a.sid, &owns[a.sid as usize], a.w, a.area);
    }
}

/// Copies what is stale of other sessions. Nothing is stale then but of this one.
pub(crate) fn settle_others(
    scene: &mut Scene<Inked>,
    owns: &[Inked],
    stale: &mut Option<Stale>,
    sid: u32,
)
    requires each { length owns.now ≡ length scene.old.config.clients }
    requires behind { AreBehind stale.old scene.old.glasses owns.now }
    ensures scene { scene.new ≡ record scene.old { glasses = scene.new.glasses } }
    ensures others { slice_set scene.new.glasses sid (glass_in owns.now sid) ≡ owns.now }
    ensures behind { IsBehind stale.new sid (glass_in scene.new.glasses sid)
        (glass_in owns.now sid) }
{
    let Some(a) = *stale else {
        return;
    };
    if a.sid != sid {
        settle(scene, owns, *stale);
        *stale = None;
    }
}
