//! Files in memory.

ghost use Rattle.std.specs.Prelude.{◌≡◌, IfOk, OnOk, OnErr, string_bytes};
ghost use Rattle.nit_store.specs.Terms.{HasDifferentNames, bytes_eq, file_at, files_of};
ghost use Rattle.nit_store.specs.Terms.{have_different_names, option_copied, position, with_file};

use std::alloc::{AllocError, Global};
use std::marker::Model;

/// A copy of these bytes.
pub(crate) fn copy_of(alloc: Global, bytes: &[u8]) -> Result<Vec<u8>, AllocError>
    ensures { IfOk result (λ copy. copy.items ≡ bytes.now) }
{
    bytes.to_vec(alloc)
}

/// Files with different names, in the order in which they were first put.
#[derive(Drop)]
pub(crate) struct FileList {
    list: Vec<(String, Vec<u8>)>,
}

impl Model for FileList {
    ghost use Rattle.std.specs.Prelude.{List};
    ghost use Rattle.nit_store.specs.Store.{File};
    ghost use Rattle.nit_store.specs.Files.{files_of, HasDifferentNames};

    ghost Value = { List File };

    ghost view = { λ f. files_of f.list.items };

    ghost invariant = { λ f. HasDifferentNames (files_of f.list.items) };
}

impl FileList {
    pub(crate) fn new(list: Vec<(String, Vec<u8>)>) -> FileList
        requires { HasDifferentNames (files_of list.items) }
        ensures { result ≡ files_of list.items }
    {
        FileList { list }
    }

    pub(crate) fn as_slice(&self) -> &[(String, Vec<u8>)]
        ensures files { files_of result.now ≡ self.now }
        ensures names { HasDifferentNames self.now }
    {
        self.list.as_slice()
    }

    /// The bytes under a name, if it is there.
    pub(crate) fn get(&self, name: &str) -> Option<&[u8]>
        ensures { option_copied result ≡ file_at name.now self.now }
    {
        bytes_at(&self.list, name)
    }

    /// Puts these bytes under a name, in the place of those that it had.
    pub(crate) fn put(&mut self, alloc: Global, name: &str, bytes: &[u8]) -> Result<(), AllocError>
        ensures ok { OnOk result (self.new ≡ with_file name.now bytes.now self.old) }
        ensures err { OnErr result (self.new ≡ self.old) }
    {
        let copy = copy_of(alloc, bytes)?;
        match place_of(&self.list, name) {
            Some(place) => {
                let file = &mut self.list[place];
                file.1 = copy;
            }
            None => self.list.push((String::from_str(alloc, name)?, copy))?,
        }
        Ok(())
    }
}

/// Whether no two of these files have one name.
pub fn have_different_names(files: &[(String, Vec<u8>)]) -> bool
    ensures { result ≡ have_different_names (files_of files.now) }
{
    for (place, file) in files.iter().enumerate() {
        if bytes_at(&files[place + 1..], file.0.as_str()).is_some() {
            return false;
        }
    }
    true
}

/// The bytes of the first file of this name.
fn bytes_at<'a>(files: &'a [(String, Vec<u8>)], name: &str) -> Option<&'a [u8]>
    ensures { option_copied result ≡ file_at name.now (files_of files.now) }
{
    for file in files {
        if file.0.as_str() == name {
            return Some(file.1.as_slice());
        }
    }
    None
}

/// The place of the first file of this name.
fn place_of(files: &[(String, Vec<u8>)], name: &str) -> Option<usize>
    ensures { result ≡ position (λ f. bytes_eq (string_bytes f.0) name.now) files.now }
{
    files.iter().position(|file| file.0.as_str() == name)
}
