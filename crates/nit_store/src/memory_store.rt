//! A store in memory, of which chosen calls fail.

ghost use Rattle.std.specs.Prelude.{◌≡◌, ◌≢◌, ◌+◌, ◌≤◌, ◌↔◌, ◌⊎◌, [], ◌∷◌, ◌++◌};
ghost use Rattle.nit_store.specs.Terms.{Contains, HasDifferentNames, IfOk, IsErr, IsErrOf, IsTrue};
ghost use Rattle.nit_store.specs.Terms.{OnErr, OnOk, files_of, names_of, one_more};

use crate::files::{FileList, copy_of};
use crate::store::{PutError, ReadError, Store};
use std::alloc::{AllocError, Global};
use std::marker::Model;

/// Files, what was said and which names were asked for, in memory. Calls of `read`, `put` and `say`
/// are counted together from 1. The calls with chosen numbers fail, and so does a read of a name
/// that is not there, and no others. The counts stay at 2^64 - 1 once they are there.
#[derive(Drop)]
pub struct MemoryStore {
    alloc: Global,
    files: FileList,
    said: Vec<u8>,
    asked: Vec<String>,
    read_faults: u64,
    write_faults: u64,
    calls: u64,
    failing: Vec<u64>,
}

impl Model for MemoryStore {
    ghost use Rattle.nit_store.specs.MemoryStore.{MemoryStoreModel};
    ghost use Rattle.nit_store.specs.Files.{names_of};

    ghost Value = { MemoryStoreModel };

    ghost view = { λ m. record {
      files = m.files;
      said = m.said.items;
      asked = names_of m.asked.items;
      read_faults = m.read_faults;
      write_faults = m.write_faults;
      calls = m.calls;
      failing = m.failing.items;
    } };
}

impl MemoryStore {
    ghost use Rattle.nit_store.specs.MemoryStore.{fresh_memory_store, FailsNext, CountsCall};

    /// A store with these files, of which no call was made yet. The calls with the numbers in
    /// `failing` are to fail, the first call having the number 1. It takes no memory.
    pub fn new(alloc: Global, files: Vec<(String, Vec<u8>)>, failing: Vec<u64>) -> MemoryStore
        requires { HasDifferentNames (files_of files.items) }
        ensures { result ≡ fresh_memory_store (files_of files.items) failing.items }
    {
        MemoryStore {
            alloc,
            files: FileList::new(files),
            said: Vec::new(alloc),
            asked: Vec::new(alloc),
            read_faults: 0,
            write_faults: 0,
            calls: 0,
            failing,
        }
    }

    /// The files, in the order in which they were first put.
    pub fn files(&self) -> &[(String, Vec<u8>)]
        ensures files { files_of result.now ≡ self.now.files }
        ensures names { HasDifferentNames self.now.files }
    {
        self.files.as_slice()
    }

    /// What was said.
    pub fn said(&self) -> &[u8]
        ensures { result.now ≡ self.now.said }
    {
        self.said.as_slice()
    }

    /// The names of all reads and puts, in order; a name may stand here more than once.
    pub fn asked(&self) -> &[String]
        ensures { names_of result.now ≡ self.now.asked }
    {
        self.asked.as_slice()
    }

    /// Counts a call, and says whether it is one that fails.
    fn count_call(&mut self) -> bool
        ensures fails { IsTrue result ↔ FailsNext self.old }
        ensures counted { self.new ≡ record self.old { calls = one_more self.old.calls } }
    {
        let fails = is_next_of(&self.failing, self.calls);
        self.calls = self.calls.saturating_add(1);
        fails
    }

    /// Counts a call on a name, adds the name to those that were asked for, and says whether the
    /// call is one that fails.
    fn count_asking(&mut self, name: &str) -> Result<bool, AllocError>
        ensures fails { IfOk result (λ fails. IsTrue fails ↔ FailsNext self.old) }
        ensures ok { OnOk result (self.new ≡ record self.old {
          calls = one_more self.old.calls;
          asked = self.old.asked ++ name.now ∷ [];
        }) }
        ensures err { OnErr result
            (self.new ≡ record self.old { calls = one_more self.old.calls }) }
    {
        let fails = self.count_call();
        self.asked.push(String::from_str(self.alloc, name)?)?;
        Ok(fails)
    }

    /// Counts a read that failed.
    fn fail_read(&mut self) -> ReadError
        ensures answer { result ≡ ReadError.Failed }
        ensures after { self.new ≡ record self.old { read_faults = one_more self.old.read_faults } }
        ensures later { self.old.read_faults ≤ self.new.read_faults }
    {
        self.read_faults = self.read_faults.saturating_add(1);
        ReadError::Failed
    }

    /// Counts a put or a saying that failed.
    fn fail_write(&mut self) -> PutError
        ensures answer { result ≡ PutError.Failed }
        ensures after { self.new
            ≡ record self.old { write_faults = one_more self.old.write_faults } }
        ensures later { self.old.write_faults ≤ self.new.write_faults }
    {
        self.write_faults = self.write_faults.saturating_add(1);
        PutError::Failed
    }
}

/// Whether the number after `made` is one of these.
fn is_next_of(numbers: &[u64], made: u64) -> bool
    ensures { IsTrue result ↔ Contains numbers.now (made + 1) }
{
    let Some(next) = made.checked_add(1) else {
        return false;
    };
    numbers.contains(&next)
}

impl Store for MemoryStore {
    ghost use Rattle.nit_store.specs.MemoryStore.{memory_store_shown, FailsNext, FailsToRead};
    ghost use Rattle.nit_store.specs.MemoryStore.{CountsCall};
    ghost use Rattle.nit_store.specs.Files.{with_file};
    ghost use Rattle.nit_store.specs.StoreAnswers.{AfterRead, AfterPut, AfterSay};

    ghost shown = { memory_store_shown };

    /// As in the trait. It fails exactly where the call is to fail or the name is not there, unless
    /// there is no memory to keep the name that was asked for.
    fn read(&mut self, name: &str, max: usize) -> Result<Vec<u8>, ReadError>
        ensures answer { AfterRead (memory_store_shown self.old) name.now max
            (memory_store_shown self.new) result }
        ensures counted { CountsCall self.old self.new }
        ensures fails { FailsToRead self.old name.now →
            IsErrOf result ReadError.Failed ⊎ IsErrOf result ReadError.NoMemory }
        ensures fails_only { IsErrOf result ReadError.Failed → FailsToRead self.old name.now }
        ensures adds_one { IsErrOf result ReadError.Failed →
            self.new.read_faults ≡ one_more self.old.read_faults }
    {
        let fails = self.count_asking(name)?;
        let bytes = match self.files.get(name) {
            Some(bytes) if !fails => bytes,
            _ => return Err(self.fail_read()),
        };
        if bytes.len() > max {
            return Err(ReadError::TooLong);
        }
        Ok(copy_of(self.alloc, bytes)?)
    }

    /// As in the trait. It fails exactly where the call is to fail, unless there is no memory to
    /// keep the name that was asked for. A new name becomes the last file.
    #[tactic(auto, using(crate::proofs::NamedFiles::put_in))]
    fn put(&mut self, name: &str, bytes: &[u8]) -> Result<(), PutError>
        ensures answer { AfterPut (memory_store_shown self.old) name.now bytes.now
            (memory_store_shown self.new) result }
        ensures counted { CountsCall self.old self.new }
        ensures fails { FailsNext self.old → IsErr result }
        ensures fails_only { IsErrOf result PutError.Failed → FailsNext self.old }
        ensures adds_one { IsErrOf result PutError.Failed →
            self.new.write_faults ≡ one_more self.old.write_faults }
        ensures placed { OnOk result
            (self.new.files ≡ with_file name.now bytes.now self.old.files) }
    {
        if self.count_asking(name)? {
            return Err(self.fail_write());
        }
        self.files.put(self.alloc, name, bytes)?;
        Ok(())
    }

    /// As in the trait. It fails exactly where the call is to fail.
    fn say(&mut self, bytes: &[u8]) -> Result<(), PutError>
        requires { bytes.now ≢ [] }
        ensures answer { AfterSay (memory_store_shown self.old) bytes.now
            (memory_store_shown self.new) result }
        ensures counted { CountsCall self.old self.new }
        ensures fails { IsErrOf result PutError.Failed ↔ FailsNext self.old }
        ensures adds_one { IsErrOf result PutError.Failed →
            self.new.write_faults ≡ one_more self.old.write_faults }
    {
        if self.count_call() {
            return Err(self.fail_write());
        }
        self.said.extend_from_slice(bytes)?;
        Ok(())
    }
}
