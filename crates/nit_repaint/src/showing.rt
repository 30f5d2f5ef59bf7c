//! Showing again, where more is shown than raw words, what views of one session show.

ghost use Rattle.std.specs.Prelude.{◌≡◌, ◌<◌, ◌≤◌, Some, length};
ghost use Rattle.nit_repaint.specs.Terms.{AreSet, FitsStack, IsFrameToShow, IsOnlyCut, frame};
ghost use Rattle.nit_repaint.specs.Terms.{is_to_come, pixel, scenery, shown_at, wanted};

use crate::buffers::begin_seat;
use crate::painter::Painter;
use nit_damage::Cutter;
use nit_overlay::{LetteredLook, overlay_piece};
use nit_rect::Rect;

/// Sets the frame to what is shown at each pixel that is to come by the cutter.
fn show_to_come(cutter: &mut Cutter, lettered: &LetteredLook, raw: &[u32], frame: &mut [u32])
    requires fits { FitsStack cutter.old lettered.now.look.stack.now }
    requires look { IsFrameToShow lettered.now raw.now frame.old }
    ensures room { cutter.new.room ≡ cutter.old.room }
    ensures shown { AreSet (is_to_come cutter.old lettered.now.look.stack.now) (length raw.now)
        (shown_at lettered.now raw.now) frame.old frame.new }
{
    'pieces: while let Some(piece) = cutter.next(lettered.look.stack) {
        overlay_piece(lettered, raw, &piece, frame);
    }
}

impl Painter {
    /// Sets the frame to what is shown at each pixel that views of the session `of` own and that
    /// shows `part` of its buffer, or at all that they own where no part is given, as
    /// [`Painter::paint_session`] loads them. Each raw word is below 2^24.
    pub fn show_session(
        &mut self,
        lettered: &LetteredLook,
        of: u32,
        part: &Option<Rect>,
        frame: &mut [u32],
    )
        requires look { IsFrameToShow lettered.now self.old.raw.items frame.old }
        requires room { length lettered.now.look.stack.now.views ≤ self.old.cutter.room }
        ensures kept { IsOnlyCut self.old self.new }
        ensures shown { AreSet
            (λ k. wanted of part.now lettered.now.look.stack.now
            (pixel lettered.now.look.stack.now.width k))
            (length self.old.raw.items) (shown_at lettered.now self.old.raw.items)
            frame.old frame.new }
    {
        let views = lettered.look.stack.len();
        'views: for i in 0..views {
            let is_of_session = begin_seat(&mut self.cutter, lettered.look.stack, i, of, part);
            if !is_of_session {
                continue;
            }
            show_to_come(&mut self.cutter, lettered, self.raw.as_slice(), frame);
        }
    }

    /// Sets `out` to the frame: what the screen shows at each pixel.
    /// Each raw word is below 2^24.
    pub fn show_whole(&mut self, lettered: &LetteredLook, out: &mut [u32])
        requires look { IsFrameToShow lettered.now self.old.raw.items out.old }
        requires room { length lettered.now.look.stack.now.views ≤ self.old.cutter.room }
        ensures kept { IsOnlyCut self.old self.new }
        ensures shown { out.new ≡ frame (scenery lettered.now) self.old.raw.items }
    {
        self.cutter.begin_all(lettered.look.stack);
        show_to_come(&mut self.cutter, lettered, self.raw.as_slice(), out);
    }
}
