//! The program: the words of the command line, the real files and the standard output.
#![tactic(auto)]

use nit_actor::Open;
use nit_store::{DiskStore, Store};
use nit_top::nitpicker;
use std::alloc::{AllocError, Global};
use std::env;
use std::env::VarError;
use std::io::ErrorKind;
use std::process::ExitCode;
use std::rt::Env;

/// The status where there is no memory to begin with.
const NO_MEMORY: u8 = 7;

/// The variable that names the folder into which files are put.
const FOLDER: &str = "NITPICKER_OUT";

/// The words of the command line behind the program's name. Arguments that are no text are no
/// command, and so are no words.
fn words<R: Env + AllocGlobal>(rt: &R) -> Result<Vec<String>, AllocError> {
    match env::args(rt) {
        Ok(args) => args.skip(1).collect(rt.alloc()),
        Err(error) if error.kind() == ErrorKind::OutOfMemory => Err(AllocError),
        Err(_) => Ok(Vec::new(rt.alloc())),
    }
}

/// What the program is started with: its words, and the folder into which files are put, or else the
/// current one.
#[derive(Drop)]
struct Beginning {
    words: Vec<String>,
    folder: Option<String>,
}

/// The words and the folder. An empty name of a folder is none. With one that is no text there are
/// no words, as with arguments that are none.
fn begin<R: Env + AllocGlobal>(rt: &R) -> Result<Beginning, AllocError> {
    let words = words(rt)?;
    match env::var(rt, FOLDER) {
        Ok(folder) => {
            let folder = if folder.is_empty() {
                None
            } else {
                Some(folder)
            };
            Ok(Beginning { words, folder })
        }
        Err(VarError::NotPresent) => Ok(Beginning {
            words,
            folder: None,
        }),
        Err(VarError::NotUnicode) => Ok(Beginning {
            words: Vec::new(rt.alloc()),
            folder: None,
        }),
        Err(VarError::OutOfMemory) => Err(AllocError),
    }
}

/// There is no memory to begin with. Where this cannot be said either, the status alone tells it.
fn no_memory<S: Store>(store: &mut S) -> ExitCode {
    let _ = store.say(b"nitpicker: no memory\n");
    ExitCode::from(NO_MEMORY)
}

fn main(rt: HostRuntime) -> ExitCode {
    let alloc: Global = rt.alloc();
    let Ok(beginning) = begin(&rt) else {
        return no_memory(&mut DiskStore::new(&rt, alloc, None));
    };
    let mut store = DiskStore::new(&rt, alloc, beginning.folder.as_deref());
    let done = nitpicker(&rt, alloc, &beginning.words, &mut store, &Open);
    ExitCode::from(done.status)
}
