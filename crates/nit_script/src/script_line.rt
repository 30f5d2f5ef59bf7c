//! What a kind of line is to have, so that scripts of such lines are read, written and counted.

ghost use Rattle.std.specs.Prelude.{◌≡◌, ◌++◌, OnOk};
ghost use Rattle.nit_script.specs.Terms.{BeginsWith, HasNoReading, HasOneReading, MatchOption};

use nit_rect::NoMemory;
use std::alloc::Global;

/// A line of a script.
pub trait ScriptLine: Drop {
    ghost use Rattle.std.specs.Prelude.{Bool, List, ℕ};

    /// What the line holds is within the grammar.
    ghost Fits: { Self → Type 0 };

    /// The bytes of the line, without a line feed.
    ghost spelling: { Self → List ℕ };

    /// The line ends a phase.
    ghost ends_phase: { Self → Bool };

    /// The line in front, with its line feed, and what follows it. There is none exactly where no
    /// line that fits is spelled in front.
    fn take(bytes: &[u8]) -> Option<(Self, &[u8])>
        ensures { MatchOption result (HasNoReading Fits spelling bytes.now)
            (λ x. BeginsWith Fits spelling bytes.now x.0 x.1.now) };

    /// Writes the line after `out`, without a line feed. It can be refused for want of memory
    /// alone.
    fn put(&self, alloc: Global, out: &mut Vec<u8>) -> Result<(), NoMemory>
        ensures { OnOk result (out.new.items ≡ out.old.items ++ spelling self.now) };

    /// The line ends a phase.
    fn ends_phase(&self) -> bool
        ensures { result ≡ ends_phase self.now };

    /// Bytes have one line in front at most.
    fn one_in_front()
        ensures { HasOneReading Fits spelling };
}
