//! Regions of a screen.

ghost use Rattle.std.specs.Prelude.{◌≡◌, ◌≤◌, false};
ghost use Rattle.nit_run.specs.Terms.{HasPixels, IsRegionWords, LiesIn, is_off_screen, most_height};
ghost use Rattle.nit_run.specs.Terms.{most_width, rectangle_of, screen};

use nit_rect::Rect;

/// A region of a screen as the words of a command give it: its left column, its top row, its width
/// and its height. It may be empty, or lie outside the screen.
#[derive(Clone, Copy, Debug)]
pub struct Region {
    pub x: u32,
    pub y: u32,
    pub w: u32,
    pub h: u32,
}

impl Region {
    /// Whether the region has no pixels, or does not lie on a screen of this width and height.
    pub fn is_outside(&self, width: u32, height: u32) -> bool
        requires { IsRegionWords self.now }
        ensures { result ≡ is_off_screen self.now width height }
    {
        self.w == 0 || self.h == 0 || width < self.x + self.w || height < self.y + self.h
    }

    /// The rectangle of a region that lies on a screen of this width and height.
    pub fn rect(&self, width: u32, height: u32) -> Rect
        requires screen { (width ≤ most_width) × (height ≤ most_height) }
        requires inside { is_off_screen self.now width height ≡ false }
        ensures value { result ≡ rectangle_of self.now }
        ensures inside { LiesIn result (screen width height) }
        ensures pixels { HasPixels result }
    {
        Rect::of(self.x as i32, self.y as i32, self.w, self.h)
    }
}
