ghost use Rattle.std.specs.Prelude.{◌≡◌};
ghost use Rattle.nit_nested.specs.Terms.{NoMemory};

use std::alloc::{AllocError, AllocFailed};
use std::error::Error;
use std::fmt;

/// Why frames cannot be shown by a script.
#[derive(Clone, Copy, Debug, PartialEq, Eq)]
pub enum NestError {
    /// The first line that may not stand in the script, counted from 1: `buffer`, `fill`, `check`
    /// or `close`.
    Bad { line: u32 },
    /// The script has not as many phases as there are frames.
    Phases,
    /// There would be more than 65,536 lines.
    TooLong,
    /// Memory ran out.
    NoMemory,
}

impl fmt::Display for NestError {
    fn fmt<W: fmt::Write>(&self, f: &mut fmt::Formatter<W>) -> fmt::Result {
        match self {
            NestError::Bad { line } => write!(f, "line {line} may not stand in the script"),
            NestError::Phases => write!(f, "phases and frames differ"),
            NestError::TooLong => write!(f, "more than 65536 lines"),
            NestError::NoMemory => write!(f, "no memory"),
        }
    }
}

impl Error for NestError {}

impl From<AllocError> for NestError {
    ghost from_gives = { λ _ e. e ≡ NoMemory };

    fn from(_error: AllocError) -> NestError {
        NestError::NoMemory
    }
}

impl<T: Drop> From<AllocFailed<T>> for NestError {
    ghost from_gives = { λ _ e. e ≡ NoMemory };

    fn from(_error: AllocFailed<T>) -> NestError {
        NestError::NoMemory
    }
}
