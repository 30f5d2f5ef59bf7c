//! A rectangle of the screen, filmed.

ghost use Rattle.std.specs.Prelude.{◌≡◌, ◌≤◌, ◌*◌, ◌++◌, ℕ, List, length, replicate};
ghost use Rattle.nit_capture.specs.Terms.{HasPixels, IfOk, IsPictureSize, LiesIn, OnErr, OnOk};
ghost use Rattle.nit_capture.specs.Terms.{Shows, screen};

use crate::cut::cut_into;
use crate::grid::Grid;
use crate::writing::append_record;
use nit_rect::{NoMemory, Rect};
use std::alloc::Global;
use std::marker::Model;

/// A rectangle of a screen that is filmed, and its pixels in the picture that was taken last. They
/// are black at first.
#[derive(Drop)]
pub struct Capture {
    width: usize,
    height: usize,
    rect: Rect,
    before: Vec<u32>,
    scratch: Vec<u32>,
}

impl Model for Capture {
    ghost use Rattle.std.specs.Prelude.{◌*◌, ◌≡◌, length};
    ghost use Rattle.nit_capture.specs.Capture.{CaptureModel, IsCapture, capture_of};

    ghost Value = { CaptureModel };

    ghost view = { λ c. capture_of c.width c.height c.rect c.before.items };

    ghost invariant = { λ c. IsCapture (capture_of c.width c.height c.rect c.before.items)
        × (length c.scratch.items ≡ c.rect.w * c.rect.h) };
}

impl Capture {
    ghost use Rattle.nit_capture.specs.Capture.{first_capture, cropped, cropped_bytes, next_record};
    ghost use Rattle.nit_capture.specs.Capture.{with_last};

    /// A capture of the rectangle `r` that has no picture yet. All numbers are in pixels: the
    /// screen has 1 to 1024 columns (`width`) and 1 to 768 rows (`height`), and `r` lies on it and
    /// has pixels.
    ///
    /// # Errors
    ///
    /// `NoMemory` where memory runs out.
    pub fn new(alloc: Global, width: u32, height: u32, r: Rect) -> Result<Capture, NoMemory>
        requires size { IsPictureSize width height }
        requires inside { LiesIn r (screen width height) }
        requires pixels { HasPixels r }
        ensures { IfOk result (λ c. c ≡ first_capture width height r) }
    {
        let pixels = r.area() as usize;
        let before = black_words(alloc, pixels)?;
        let scratch = black_words(alloc, pixels)?;
        Ok(Capture {
            width: width as usize,
            height: height as usize,
            rect: r,
            before,
            scratch,
        })
    }

    /// Appends the record of a picture of the screen, cut to the rectangle, to `out`. The picture
    /// is the last bytes of `ppm`, three for each pixel of the screen by rows: red, green and blue.
    /// So it may be a P6 file, whose front is then passed over.
    ///
    /// # Errors
    ///
    /// `NoMemory` where memory runs out. The capture and the bytes in `out` are then as they were.
    pub fn picture(&mut self, ppm: &[u8], out: &mut Vec<u8>) -> Result<(), NoMemory>
        requires { 3 * (self.old.width * self.old.height) ≤ length ppm.now }
        // The picture that is cut is that of the last bytes, and for a picture's bytes that of its
        // frame.
        ensures made { OnOk result (out.new.items
            ≡ out.old.items ++ next_record self.old (cropped_bytes self.old ppm.now)) }
        ensures left { OnOk result (self.new
            ≡ with_last self.old (cropped_bytes self.old ppm.now)) }
        ensures appended { (frame : List ℕ) → Shows self.old.width self.old.height ppm.now frame →
            OnOk result (out.new.items
            ≡ out.old.items ++ next_record self.old (cropped self.old frame)) }
        ensures kept { (frame : List ℕ) → Shows self.old.width self.old.height ppm.now frame →
            OnOk result (self.new ≡ with_last self.old (cropped self.old frame)) }
        ensures screen { self.new ≡ with_last self.old self.new.before }
        ensures refused { OnErr result ((self.new ≡ self.old) × (out.new.items ≡ out.old.items)) }
    {
        let screen = Grid {
            width: self.width,
            height: self.height,
        };
        cut_into(&mut self.scratch, screen, &self.rect, ppm);
        let grid = Grid {
            width: self.rect.w() as usize,
            height: self.rect.h() as usize,
        };
        append_record(grid, &self.before, &self.scratch, out)?;
        std::mem::swap(&mut self.before, &mut self.scratch);
        Ok(())
    }
}

/// So many words that are 0.
fn black_words(alloc: Global, count: usize) -> Result<Vec<u32>, NoMemory>
    ensures { IfOk result (λ v. v.items ≡ replicate count 0) }
{
    Ok(vec![in alloc; 0; count]?)
}
