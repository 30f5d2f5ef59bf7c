//! The trait, and why a call is refused.

ghost use Rattle.std.specs.Prelude.{◌≡◌, ◌≢◌, []};
ghost use Rattle.nit_store.specs.Terms.{StoreModel};

use std::alloc::AllocError;

/// Why a read gives no bytes.
#[derive(Clone, Copy, Debug, PartialEq, Eq)]
pub enum ReadError {
    /// The store could not read the file; its count of failed reads rose.
    Failed,
    /// The file has more bytes than were asked for at most.
    TooLong,
    /// There is not enough memory.
    NoMemory,
}

/// Why nothing was put, or nothing was said.
#[derive(Clone, Copy, Debug, PartialEq, Eq)]
pub enum PutError {
    /// The store could not write; its count of failed writes rose.
    Failed,
    /// There is not enough memory.
    NoMemory,
}

impl From<AllocError> for ReadError {
    ghost use Rattle.nit_store.specs.declared.store.ReadError.TheVariants.{NoMemory};

    ghost from_gives = { λ _ error. error ≡ NoMemory };

    fn from(_error: AllocError) -> ReadError {
        ReadError::NoMemory
    }
}

impl From<AllocError> for PutError {
    ghost use Rattle.nit_store.specs.declared.store.PutError.TheVariants.{NoMemory};

    ghost from_gives = { λ _ error. error ≡ NoMemory };

    fn from(_error: AllocError) -> PutError {
        PutError::NoMemory
    }
}

/// Where files are read and put, and text is said.
pub trait Store {
    ghost use Rattle.nit_store.specs.StoreAnswers.{AfterRead, AfterPut, AfterSay};

    /// The counts of failures, and where they are told the files, what was said and which names
    /// were asked for.
    ghost shown: { Self → StoreModel };

    /// The bytes of a file, of which there are at most `max`; the answer is `TooLong` where there
    /// are more. A name that is not there has no bytes, or the read fails.
    fn read(&mut self, name: &str, max: usize) -> Result<Vec<u8>, ReadError>
        ensures answer { AfterRead (shown self.old) name.now max (shown self.new) result };

    /// Puts these bytes under a name, in place of those that it had. A refusal leaves all files.
    fn put(&mut self, name: &str, bytes: &[u8]) -> Result<(), PutError>
        ensures answer { AfterPut (shown self.old) name.now bytes.now (shown self.new) result };

    /// Says a text, which is not empty, after what was said before. A refusal leaves what was said.
    fn say(&mut self, bytes: &[u8]) -> Result<(), PutError>
        requires { bytes.now ≢ [] }
        ensures answer { AfterSay (shown self.old) bytes.now (shown self.new) result };
}
