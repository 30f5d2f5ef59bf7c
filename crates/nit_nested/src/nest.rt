//! Frames, kept as lines of a script.

ghost use Rattle.std.specs.Prelude.{◌≡◌, ◌++◌, ◌+◌, ◌*◌, ◌≤◌, ◌∷◌, [], ℕ, List, Option, Some, None};
ghost use Rattle.std.specs.Prelude.{length, All, IfOk, OnOk, OnErr};
ghost use Rattle.nit_nested.specs.Terms.{AllByRecursion, CanPay, FitsColour, IsScreenSize};
ghost use Rattle.nit_nested.specs.Terms.{ShowsFrames, UnlessMemory, frame_answer, script_answer};

use crate::error::NestError;
use crate::frame::Frame;
use crate::{rows, weaving};
use nit_script::Client;
use std::alloc::Global;
use std::marker::Model;

/// The most lines that a script may have.
const MAX_LINES: usize = 65_536;

/// Frames of a screen of `w` by `h`, seen as the lists of their words. They are kept as the lines
/// of a script.
#[derive(Drop)]
pub struct Nest {
    alloc: Global,
    w: u32,
    h: u32,
    frames: Vec<Frame>,
    held: usize,
}

impl Model for Nest {
    ghost use Rattle.std.specs.Prelude.{map};
    ghost use Rattle.nit_nested.specs.FrameLines.{words_of_lines};
    ghost use Rattle.nit_nested.specs.Nest.{NestModel, IsNest};

    ghost Value = { NestModel };

    ghost view = { λ n. record { w = n.w; h = n.h; frames = map words_of_lines n.frames.items } };

    ghost invariant = { λ n. IsNest n.w n.h n.frames.items n.held };
}

impl Nest {
    /// No frame yet, for a screen of this size. It takes no memory.
    pub fn new(alloc: Global, w: u32, h: u32) -> Nest
        requires { IsScreenSize w h }
        ensures { result ≡ record { w = w; h = h; frames = [] } }
    {
        Nest {
            alloc,
            w,
            h,
            frames: Vec::new(alloc),
            held: 0,
        }
    }

    /// One frame more, of `w * h` words below 2^24. It is refused exactly where a `buffer` line,
    /// the lines that are held and the frame's own are more than 65,536 together, and where memory
    /// runs out.
    ///
    /// # Errors
    ///
    /// `TooLong` or `NoMemory`; nothing has changed then.
    pub fn frame(&mut self, words: &[u32]) -> Result<(), NestError>
        requires size { length words.now ≡ self.old.w * self.old.h }
        requires words { All FitsColour words.now }
        ensures answer { UnlessMemory result (result ≡ frame_answer self.old words.now) }
        ensures added { OnOk result (self.new
            ≡ record self.old { frames = self.old.frames ++ words.now ∷ [] }) }
        ensures refused { OnErr result (self.new ≡ self.old) }
    {
        let count = rows::count_lines(self.w, self.h, words);
        if MAX_LINES < 1 + self.held + count {
            return Err(NestError::TooLong);
        }
        let Ok(lines) = rows::frame_lines(self.alloc, self.w, self.h, words) else {
            return Err(NestError::NoMemory);
        };
        self.frames.push(Frame { lines })?;
        self.held += count;
        Ok(())
    }

    /// The script that shows the frames: `own` with the buffer before all, and with each frame's
    /// lines at the beginning of its phase. At the end of each phase the buffer then has the
    /// phase's frame, whatever else `own` does, where the session can pay for the buffer.
    ///
    /// # Errors
    ///
    /// `Bad` names the first line of `own` that is `buffer`, `fill`, `check` or `close`. Otherwise
    /// `Phases` says that `own` has not as many phases as there are frames. Otherwise `TooLong`
    /// says that the script would have more than 65,536 lines. `NoMemory` comes where memory runs
    /// out.
    pub fn script(&self, own: &Client) -> Result<Client, NestError>
        ensures answer { UnlessMemory result (result ≡ script_answer self.now own.now) }
        ensures shown { IfOk result (λ script.
            (donation : ℕ) → CanPay donation self.now.w self.now.h
            → ShowsFrames self.now.w self.now.h self.now.frames script donation) }
    {
        let own = own.lines();
        let frames = self.frames.as_slice();
        if let Some(line) = weaving::find_forbidden(own) {
            return Err(NestError::Bad { line });
        }
        if weaving::count_phases(own) != frames.len() {
            return Err(NestError::Phases);
        }
        if MAX_LINES < 1 + self.held + own.len() {
            return Err(NestError::TooLong);
        }
        let Ok(lines) = weaving::frame_script(self.alloc, self.w, self.h, frames, own) else {
            return Err(NestError::NoMemory);
        };
        Ok(Client { lines })
    }
}
