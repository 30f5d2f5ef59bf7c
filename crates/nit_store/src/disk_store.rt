//! The real files and the standard output.

ghost use Rattle.std.specs.Prelude.{◌≡◌};

use crate::store::{PutError, ReadError, Store};
use std::alloc::Global;
use std::fs::File;
use std::io::{ErrorKind, Read, Write};
use std::marker::Model;
use std::rt::Files;
use std::{fs, io};

/// The files that are read, by names of the current folder; the folder into which files are put;
/// and the standard output. It tells nothing but how often reads and how often writes failed; each
/// count stays at 2^64 - 1 once it is there.
#[derive(Drop)]
pub struct DiskStore<'a, R: Files + Print> {
    rt: &'a R,
    alloc: Global,
    folder: Option<&'a str>,
    read_faults: u64,
    write_faults: u64,
}

impl<'a, R: Files + Print> Model for DiskStore<'a, R> {
    ghost use Rattle.nit_store.specs.DiskStore.{DiskStoreModel};

    ghost Value = { DiskStoreModel };

    ghost view = { λ d. record { reads = d.read_faults; writes = d.write_faults } };
}

impl<'a, R: Files + Print> DiskStore<'a, R> {
    ghost use Rattle.nit_store.specs.DiskStore.{CountsWrite};

    /// The store of a runtime, of which nothing failed yet. It puts into this folder, or else into
    /// the current one. It takes no memory.
    pub fn new(rt: &'a R, alloc: Global, folder: Option<&'a str>) -> DiskStore<'a, R>
        ensures { result ≡ record { reads = 0; writes = 0 } }
    {
        DiskStore {
            rt,
            alloc,
            folder,
            read_faults: 0,
            write_faults: 0,
        }
    }

    /// The answer to a write that came to this end, which is counted where it failed.
    fn written(&mut self, end: io::Result<()>) -> Result<(), PutError>
        ensures { CountsWrite self.old self.new result }
    {
        match end {
            Ok(()) => Ok(()),
            Err(error) if error.kind() == ErrorKind::OutOfMemory => Err(PutError::NoMemory),
            Err(_) => {
                self.write_faults = self.write_faults.saturating_add(1);
                Err(PutError::Failed)
            }
        }
    }
}

/// The bytes of a file, or the first of them, one more than `max`.
fn read_file<R: Files>(rt: &R, alloc: Global, name: &str, max: usize) -> io::Result<Vec<u8>> {
    let file = File::open(rt, name)?;
    let mut bytes = Vec::new(alloc);
    file.take((max as u64).saturating_add(1))
        .read_to_end(&mut bytes)?;
    Ok(bytes)
}

/// How many files may be written beside one of a name at the same time, or be left there.
const MOST_PARTS: u32 = 1000;

/// A new file beside the one of this name, and its name. It is no file that stood there before, and
/// no other run writes it.
fn create_part<R: Files>(rt: &R, alloc: Global, name: &str) -> io::Result<(String, R::File)> {
    for number in 1..=MOST_PARTS {
        let part = format!(in alloc; "{name}.{number}.part")?;
        match File::create_new(rt, &part) {
            Ok(file) => return Ok((part, file)),
            Err(error) if error.kind() == ErrorKind::AlreadyExists => {}
            Err(error) => return Err(error),
        }
    }
    Err(io::Error::from(ErrorKind::AlreadyExists))
}

/// Writes these bytes into a file, and closes it.
fn write_whole<W: Write + Drop>(mut file: W, bytes: &[u8]) -> io::Result<()> {
    file.write_all(bytes)
}

/// Puts these bytes under a name. They are written beside the file of this name, which is replaced
/// once they are whole; a refusal leaves it, and takes away what was written.
fn put_file<R: Files>(rt: &R, alloc: Global, name: &str, bytes: &[u8]) -> io::Result<()> {
    let (part, file) = create_part(rt, alloc, name)?;
    let end = match write_whole(file, bytes) {
        Ok(()) => fs::rename(rt, &part, name),
        refused => refused,
    };
    if end.is_err() {
        // Where it cannot be taken away either, it stays.
        let _ = fs::remove_file(rt, &part);
    }
    end
}

/// Puts a file, by its name and its bytes, into this folder.
fn put_within<R: Files>(
    rt: &R,
    alloc: Global,
    folder: &str,
    file: (&str, &[u8]),
) -> io::Result<()> {
    let (name, bytes) = file;
    let place = format!(in alloc; "{folder}/{name}")?;
    put_file(rt, alloc, &place, bytes)
}

impl<'a, R: Files + Print> Store for DiskStore<'a, R> {
    ghost use Rattle.nit_store.specs.DiskStore.{disk_store_shown};

    ghost shown = { disk_store_shown };

    fn read(&mut self, name: &str, max: usize) -> Result<Vec<u8>, ReadError> {
        match read_file(self.rt, self.alloc, name, max) {
            Ok(bytes) if bytes.len() > max => Err(ReadError::TooLong),
            Ok(bytes) => Ok(bytes),
            Err(error) if error.kind() == ErrorKind::OutOfMemory => Err(ReadError::NoMemory),
            Err(_) => {
                self.read_faults = self.read_faults.saturating_add(1);
                Err(ReadError::Failed)
            }
        }
    }

    fn put(&mut self, name: &str, bytes: &[u8]) -> Result<(), PutError> {
        let end = match self.folder {
            Some(folder) => put_within(self.rt, self.alloc, folder, (name, bytes)),
            None => put_file(self.rt, self.alloc, name, bytes),
        };
        self.written(end)
    }

    fn say(&mut self, bytes: &[u8]) -> Result<(), PutError> {
        let end = self.rt.write_all(bytes);
        self.written(end)
    }
}
