//! Areas that become one with another area.

ghost use Rattle.std.specs.Prelude.{◌≡◌, ◌<◌, None, IfSome, IsSomeAnd, false, length, slice_get};
ghost use Rattle.std.specs.Prelude.{true};
ghost use Rattle.nit_look.specs.Terms.{AreParts, HasPlaces, IsApartFrom, IsJoined, areas_meet};
ghost use Rattle.nit_look.specs.Terms.{list_any};
ghost use Rattle.nit_look.specs.Terms.{most_parts};

use crate::area::Area;
use crate::parts::MOST_PARTS;
use arrayvec::ArrayVec;

/// Joins areas with one beside them, so that none of them meets what it becomes, and there is room
/// for it.
pub(crate) fn join(areas: &mut ArrayVec<Area, MOST_PARTS>, one: &Area) -> Area
    requires parts { AreParts areas.old.items }
    requires pixels { HasPlaces one.now }
    ensures joined { IsJoined areas.old.items one.now areas.new.items result }
    ensures apart { IsApartFrom result areas.new.items }
    ensures room { length areas.new.items < most_parts }
    ensures same { length areas.old.items < most_parts → IsApartFrom one.now areas.old.items
        → (areas.new.items ≡ areas.old.items) × (result ≡ one.now) }
{
    let all = take_in(areas, one);
    if areas.is_full() {
        join_nearest(areas, &all)
    } else {
        all
    }
}

/// Takes out each area that meets one beside them, and each that meets what these become, and gives
/// the area round all of them. None of the others meets it.
fn take_in(areas: &mut ArrayVec<Area, MOST_PARTS>, one: &Area) -> Area
    requires parts { AreParts areas.old.items }
    requires pixels { HasPlaces one.now }
    ensures joined { IsJoined areas.old.items one.now areas.new.items result }
    ensures apart { IsApartFrom result areas.new.items }
    ensures same { IsApartFrom one.now areas.old.items
        → (areas.new.items ≡ areas.old.items) × (result ≡ one.now) }
{
    let mut all = *one;
    'areas: while let Some(place) = first_met(areas.as_slice(), &all) {
        let part = areas.remove(place);
        all = all.around(&part);
    }
    all
}

/// Takes out the area that grows least by one beside them, and each that meets what these become,
/// and gives the area round all of them. There is an area.
fn join_nearest(areas: &mut ArrayVec<Area, MOST_PARTS>, one: &Area) -> Area
    requires some { 0 < length areas.old.items }
    requires parts { AreParts areas.old.items }
    requires pixels { HasPlaces one.now }
    ensures joined { IsJoined areas.old.items one.now areas.new.items result }
    ensures apart { IsApartFrom result areas.new.items }
    ensures fewer { length areas.new.items < length areas.old.items }
{
    let place = nearest(areas.as_slice(), one);
    let part = areas.remove(place);
    take_in(areas, &one.around(&part))
}

/// The place of the first area that meets another one, which all have pixels.
fn first_met(areas: &[Area], one: &Area) -> Option<usize>
    ensures some { IfSome result (λ k. IsSomeAnd (slice_get areas.now k)
        (λ a. areas_meet a one.now ≡ true)) }
    ensures none { result ≡ None → list_any (λ a. areas_meet a one.now) areas.now ≡ false }
{
    'areas: for place in 0..areas.len() {
        if areas[place].meets(one) {
            return Some(place);
        }
    }
    None
}

/// The place of the area that grows least by another one. There is an area.
fn nearest(areas: &[Area], one: &Area) -> usize
    requires { 0 < length areas.now }
    ensures { result < length areas.now }
{
    let mut best = 0;
    'areas: for place in 1..areas.len() {
        if areas[place].growth(one) < areas[best].growth(one) {
            best = place;
        }
    }
    best
}
