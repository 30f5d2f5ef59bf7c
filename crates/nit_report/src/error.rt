ghost use Rattle.std.specs.Prelude.{◌≡◌};
ghost use Rattle.nit_report.specs.Terms.{NoMemory};

use std::alloc::AllocFailed;
use std::error::Error;
use std::fmt;

/// Why bytes are no journal's text.
#[derive(Clone, Copy, Debug, PartialEq, Eq)]
pub enum JournalError {
    /// The first line that spells no entry, counted from 1.
    Bad { line: u32 },
    /// Memory ran out.
    NoMemory,
}

impl fmt::Display for JournalError {
    fn fmt<W: fmt::Write>(&self, f: &mut fmt::Formatter<W>) -> fmt::Result {
        match self {
            JournalError::Bad { line } => write!(f, "line {line} has no reading"),
            JournalError::NoMemory => write!(f, "no memory"),
        }
    }
}

impl Error for JournalError {}

impl<T: Drop> From<AllocFailed<T>> for JournalError {
    ghost from_gives = { λ _ e. e ≡ NoMemory };

    fn from(_error: AllocFailed<T>) -> JournalError {
        JournalError::NoMemory
    }
}
