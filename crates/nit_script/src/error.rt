ghost use Rattle.std.specs.Prelude.{◌≡◌};
ghost use Rattle.nit_script.specs.Terms.{NoMemory};

use std::alloc::AllocFailed;
use std::error::Error;
use std::fmt;

/// Why bytes are no script.
#[derive(Clone, Copy, Debug, PartialEq, Eq)]
pub enum ScriptError {
    /// The first line without a reading, counted from 1. It is one of the first 65,536.
    Bad { line: u32 },
    /// Each of the first 65,536 lines has a reading, and a byte stands after them.
    TooLong,
    /// Memory ran out.
    NoMemory,
}

impl fmt::Display for ScriptError {
    fn fmt<W: fmt::Write>(&self, f: &mut fmt::Formatter<W>) -> fmt::Result {
        match self {
            ScriptError::Bad { line } => write!(f, "line {line} has no reading"),
            ScriptError::TooLong => write!(f, "more than 65536 lines"),
            ScriptError::NoMemory => write!(f, "no memory"),
        }
    }
}

impl Error for ScriptError {}

impl<T: Drop> From<AllocFailed<T>> for ScriptError {
    ghost from_gives = { λ _ e. e ≡ NoMemory };

    fn from(_error: AllocFailed<T>) -> ScriptError {
        ScriptError::NoMemory
    }
}
