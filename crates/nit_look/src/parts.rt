//! What of a screen may have changed, as a few areas.

ghost use Rattle.std.specs.Prelude.{◌≡◌, ◌<◌, [], ℕ, All, true};
ghost use Rattle.nit_look.specs.Terms.{AreParts, AreWithin, IsAreaAdded, IsAreaOf, has_any};
ghost use Rattle.nit_look.specs.Terms.{has_place, is_area_within, list_any};

use crate::area::Area;
use crate::joining::join;
use arrayvec::ArrayVec;
use std::marker::Model;

/// How many areas there are at most.
pub const MOST_PARTS: usize = 16;

/// At most 16 areas, each of which has a pixel, and no two of which meet. They are seen as their
/// list.
#[derive(Drop)]
pub struct Parts {
    areas: ArrayVec<Area, MOST_PARTS>,
}

impl Model for Parts {
    ghost use Rattle.std.specs.Prelude.{List};
    ghost use Rattle.nit_look.specs.Parts.{AreParts};
    ghost use Rattle.nit_look.specs.declared.area.Area.{Area};

    ghost Value = { List Area };

    ghost view = { λ p. p.areas.items };

    ghost invariant = { λ p. AreParts p.areas.items };
}

impl Parts {
    /// No area.
    pub fn none() -> Parts
        ensures { result ≡ [] }
    {
        Parts {
            areas: ArrayVec::new(),
        }
    }

    /// Adds the pixels of an area, and takes no memory. Areas that it meets become one with it, as
    /// the area round both. Where there are 16 others, the one that grows least by it does.
    pub fn add(&mut self, area: &Area)
        ensures added { IsAreaAdded self.old area.now self.new }
        ensures parts { AreParts self.new }
    {
        if area.is_empty() || is_inside_one(area, self.areas.as_slice()) {
            return;
        }
        let all = join(&mut self.areas, area);
        self.areas.push(all);
    }

    /// An area that has all pixels of them, bounded by their outermost edges.
    pub fn around(&self) -> Area
        ensures area { (width height : ℕ) → All (IsAreaOf width height) self.now
            → IsAreaOf width height result }
        ensures all { (x y : ℕ) → has_any self.now x y ≡ true → has_place result x y ≡ true }
    {
        let areas = self.areas.as_slice();
        if areas.is_empty() {
            return Area::none();
        }
        let mut all = areas[0];
        'areas: for place in 1..areas.len() {
            all = all.around(&areas[place]);
        }
        all
    }

    /// The areas.
    pub fn as_slice(&self) -> &[Area]
        ensures areas { result.now ≡ self.now }
        ensures parts { AreParts self.now }
    {
        self.areas.as_slice()
    }
}

/// Whether an area lies in one of these.
fn is_inside_one(area: &Area, areas: &[Area]) -> bool
    ensures { result ≡ list_any (is_area_within area.now) areas.now }
{
    areas.iter().any(|part| area.is_within(part))
}
