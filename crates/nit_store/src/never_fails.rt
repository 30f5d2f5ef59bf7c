//! A store in memory that never fails.

ghost use Rattle.std.specs.Prelude.{◌≡◌, [], OnOk};
ghost use Rattle.nit_store.specs.Terms.{HasDifferentNames, files_of};

use crate::files::{FileList, copy_of};
use crate::store::{PutError, ReadError, Store};
use std::alloc::Global;
use std::marker::Model;

/// Files and what was said, in memory. No call fails but for want of memory, and a name that is not
/// there reads as no bytes.
#[derive(Drop)]
pub struct NeverFails {
    alloc: Global,
    files: FileList,
    said: Vec<u8>,
}

impl Model for NeverFails {
    ghost use Rattle.nit_store.specs.NeverFails.{NeverFailsModel};

    ghost Value = { NeverFailsModel };

    ghost view = { λ s. record { files = s.files; said = s.said.items } };
}

impl NeverFails {
    /// A store with these files, of which nothing was said. It takes no memory.
    pub fn new(alloc: Global, files: Vec<(String, Vec<u8>)>) -> NeverFails
        requires { HasDifferentNames (files_of files.items) }
        ensures { result ≡ record { files = files_of files.items; said = [] } }
    {
        NeverFails {
            alloc,
            files: FileList::new(files),
            said: Vec::new(alloc),
        }
    }

    /// The files, in the order in which they were first put.
    pub fn files(&self) -> &[(String, Vec<u8>)]
        ensures files { files_of result.now ≡ self.now.files }
        ensures names { HasDifferentNames self.now.files }
    {
        self.files.as_slice()
    }

    /// What was said.
    pub fn said(&self) -> &[u8]
        ensures { result.now ≡ self.now.said }
    {
        self.said.as_slice()
    }
}

impl Store for NeverFails {
    ghost use Rattle.nit_store.specs.NeverFails.{never_fails_shown};
    ghost use Rattle.nit_store.specs.Files.{with_file};
    ghost use Rattle.nit_store.specs.StoreAnswers.{AfterRead, AfterPut, AfterSay};

    ghost shown = { never_fails_shown };

    fn read(&mut self, name: &str, max: usize) -> Result<Vec<u8>, ReadError> {
        let Some(bytes) = self.files.get(name) else {
            return Ok(Vec::new(self.alloc));
        };
        if bytes.len() > max {
            return Err(ReadError::TooLong);
        }
        Ok(copy_of(self.alloc, bytes)?)
    }

    /// As in the trait. A new name becomes the last file.
    #[tactic(auto, using(crate::proofs::NamedFiles::put_in))]
    fn put(&mut self, name: &str, bytes: &[u8]) -> Result<(), PutError>
        ensures answer { AfterPut (never_fails_shown self.old) name.now bytes.now
            (never_fails_shown self.new) result }
        ensures placed { OnOk result
            (self.new.files ≡ with_file name.now bytes.now self.old.files) }
    {
        self.files.put(self.alloc, name, bytes)?;
        Ok(())
    }

    fn say(&mut self, bytes: &[u8]) -> Result<(), PutError> {
        self.said.extend_from_slice(bytes)?;
        Ok(())
    }
}
