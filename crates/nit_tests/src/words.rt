//! Words that a test begins with.

ghost use Rattle.std.specs.Prelude.{◌≡◌, replicate};

use std::alloc::Global;
use std::process::Abort;

/// This word, so many times.
pub fn repeated(rt: &impl Abort, alloc: Global, word: u32, count: usize) -> Vec<u32>
    ensures { result.items ≡ replicate count word }
{
    vec![in alloc; word; count].expect(rt, "memory for words")
}
