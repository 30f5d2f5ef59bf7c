//! A stream of numbers, from which the lines of generated scripts are drawn.

ghost use Rattle.std.specs.Prelude.{◌≡◌, ◌<◌, ◌≤◌};
ghost use Rattle.nit_report.specs.Terms.{Draws, below, seed};

use std::marker::Model;

/// A number times this ..
const FACTOR: u64 = 1_664_525;

/// .. and this more is the number that follows it, cut off to 32 bits.
const ADDEND: u64 = 1_013_904_223;

/// How many numbers there are in a stream.
const NUMBERS: u64 = 0x1_0000_0000;

/// The lower half of a number is left out of what is drawn.
const LOWER_HALF: u32 = 0x1_0000;

/// How many streams there are in a run.
const STREAMS: u64 = 9;

/// A stream, seen as the number at which it stands.
#[derive(Drop)]
pub struct Stream {
    number: u32,
}

impl Model for Stream {
    ghost use Rattle.std.specs.Prelude.{ℕ};

    ghost Value = { ℕ };

    ghost view = { λ s. s.number };
}

impl Stream {
    /// One of the streams 0..=8 of the run of number n.
    pub fn new(n: u32, stream: u32) -> Stream
        requires { stream ≤ 8 }
        ensures { result ≡ seed n stream }
    {
        let number = (STREAMS * n as u64 + stream as u64) % NUMBERS;
        Stream {
            number: number as u32,
        }
    }

    /// A number below the limit.
    #[tactic(auto, unfolding(crate::specs::Draw::following))]
    pub fn draw(&mut self, limit: u32) -> u32
        requires { 0 < limit }
        ensures drawn { Draws (below limit) self.old result self.new }
        ensures below { result < limit }
    {
        let following = (self.number as u64 * FACTOR + ADDEND) % NUMBERS;
        self.number = following as u32;
        self.number / LOWER_HALF % limit
    }
}
