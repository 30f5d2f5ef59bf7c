//! What the screen shows.

ghost use Rattle.std.specs.Prelude.{◌≡◌, ◌*◌, All, false, length};
ghost use Rattle.nit_screen.specs.Terms.{AreRaw, IsWord, frame, scenery_of, state_of};

use crate::screen::Screen;
use nit_overlay::laws::frame_pixels;

impl Screen {
    /// Makes the frame, if calls or input have left it to be made.
    pub fn show(&mut self)
        requires raw { AreRaw (state_of self.old.serving) self.old.raw }
        ensures { self.new ≡ record self.old { is_stale = false } }
    {
        self.pixels.show(&self.server);
    }

    /// The frame, as it is kept. [`show`](Screen::show) has made it.
    pub fn frame(&self) -> &[u32]
        requires fresh { self.now.is_stale ≡ false }
        ensures frame { result.now ≡ frame (scenery_of (state_of self.now.serving)) self.now.raw }
        ensures words { All IsWord result.now }
        ensures pixels { length result.now
            ≡ self.now.serving.config.width * self.now.serving.config.height }
    {
        frame_pixels();
        self.server.facts();
        self.pixels.frame()
    }
}
