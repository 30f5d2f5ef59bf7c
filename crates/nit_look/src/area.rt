//! A part of a screen, as columns and rows.

ghost use Rattle.std.specs.Prelude.{◌≡◌, ◌≤◌, ◌<◌, ◌&&◌, ℕ, false, true};
ghost use Rattle.nit_look.specs.Terms.{HasPlaces, IsAreaOf, areas_meet, around, has_place};
ghost use Rattle.nit_look.specs.Terms.{is_area_within};
ghost use Rattle.nit_look.specs.Terms.{most_height, most_width, rectangle_over};

use nit_rect::Rect;

/// The pixels of the columns from `left` to before `right`, in the rows from `top` to before
/// `bottom`.
#[derive(Clone, Copy, Debug, Default, PartialEq, Eq)]
pub struct Area {
    pub left: u32,
    pub top: u32,
    pub right: u32,
    pub bottom: u32,
}

impl Area {
    /// No pixel.
    pub fn none() -> Area
        ensures area { (width height : ℕ) → IsAreaOf width height result }
        ensures none { (x y : ℕ) → has_place result x y ≡ false }
    {
        Area::of_rows(0, 0)
    }

    /// The topmost rows of a screen of this width, so many of them.
    pub fn of_rows(width: u32, rows: u32) -> Area
        ensures area { (height : ℕ) → rows ≤ height → IsAreaOf width height result }
        ensures all { (x y : ℕ) → x < width → y < rows → has_place result x y ≡ true }
        ensures none { (x y : ℕ) → rows ≤ y → has_place result x y ≡ false }
    {
        Area {
            left: 0,
            top: 0,
            right: width,
            bottom: rows,
        }
    }

    /// The area that is bounded by the outermost edges of both.
    pub fn around(&self, other: &Area) -> Area
        ensures { result ≡ around self.now other.now }
    {
        Area {
            left: self.left.min(other.left),
            top: self.top.min(other.top),
            right: self.right.max(other.right),
            bottom: self.bottom.max(other.bottom),
        }
    }

    /// An area that has all pixels that both have.
    pub fn meet(&self, other: &Area) -> Area
        ensures area { (width height : ℕ) → IsAreaOf width height self.now
            → IsAreaOf width height other.now → IsAreaOf width height result }
        ensures both { (x y : ℕ) → has_place self.now x y ≡ true → has_place other.now x y ≡ true
            → has_place result x y ≡ true }
    {
        let left = self.left.max(other.left);
        let top = self.top.max(other.top);
        Area {
            left,
            top,
            right: self.right.min(other.right).max(left),
            bottom: self.bottom.min(other.bottom).max(top),
        }
    }

    /// Whether it has no pixel.
    pub(crate) fn is_empty(&self) -> bool
        ensures some { result ≡ false → HasPlaces self.now }
        ensures none { result ≡ true → (x y : ℕ) → has_place self.now x y ≡ false }
    {
        self.right <= self.left || self.bottom <= self.top
    }

    /// Whether its edges are within those of the other.
    pub(crate) fn is_within(&self, other: &Area) -> bool
        ensures { result ≡ is_area_within self.now other.now }
    {
        other.left <= self.left
            && other.top <= self.top
            && self.right <= other.right
            && self.bottom <= other.bottom
    }

    /// Whether a pixel lies in both, which have pixels.
    pub(crate) fn meets(&self, other: &Area) -> bool
        ensures { result ≡ areas_meet self.now other.now }
    {
        self.left < other.right
            && other.left < self.right
            && self.top < other.bottom
            && other.top < self.bottom
    }

    /// How many pixels it has.
    fn pixels(&self) -> u64 {
        let wide = self.right.saturating_sub(self.left);
        let high = self.bottom.saturating_sub(self.top);
        (wide as u64).saturating_mul(high as u64)
    }

    /// How many pixels more than it has the area that is bounded by the outermost edges of both.
    pub(crate) fn growth(&self, other: &Area) -> u64 {
        self.around(other).pixels().saturating_sub(self.pixels())
    }

    /// The rectangle of the area's pixels.
    pub fn rect(&self) -> Rect
        requires left { self.now.left ≤ self.now.right }
        requires top { self.now.top ≤ self.now.bottom }
        requires wide { self.now.right ≤ most_width }
        requires high { self.now.bottom ≤ most_height }
        ensures { result ≡ rectangle_over self.now }
    {
        let made = Rect::new(
            self.left as i32,
            self.top as i32,
            self.right - self.left,
            self.bottom - self.top,
        );
        match made {
            Some(rect) => rect,
            None => unreachable!(),
        }
    }
}
