//! Cases of the top call, and the language in which they are written: this page is all of it. Where
//! a table breaks a rule of the page, the test fails, and says which one.
//!
//! **A table** is a constant text of a test, which gives it to `assert_cases`. It has blocks, with
//! one empty line between them. A block is a head, which no other block has, and lines:
//!
//! - `case TITLE`: a case. What fails is told by its title.
//! - `base NAME`: lines with which cases begin.
//! - `text NAME`: a text. Those of `shared` are for all tables.
//!
//! A table has a case, and names each of its bases and texts somewhere.
//!
//! **A text** has lines and pieces. Behind `|` and a blank stands a line: `| view`. Behind `=`
//! stands a piece, once or as often as a number before it says: `=nope`, `6 =take\n`. In both `\n`
//! ends a line, and `{3+20}` is 3 the first time, then 23, 43 and so on; neither can stand for
//! itself. TEXT below is the name of a text, or one piece. A piece among several TEXT, or for ROWS,
//! has no blank.
//!
//! **A case** has `words`, `ends`, `asked` and `there`, in lines of its own or of its base. Its own
//! line stands in the place of the base's; in one block such a line stands once, and so does `file`
//! for each name. What may stand more often adds up: `more`, and what is said of the journal and of
//! single files. The words are done once at an open gate, and where they start no thread once more
//! on one; both times all comes out so.
//!
//! What goes in:
//!
//! - `with NAME`: the case has this base; a base has none. `with still`
//! - `words WORD, ..`: the command; `words` alone has no word. `words still, 8, 4, a.nit`
//! - `file NAME TEXT`: a file that is there before. `file a.nit A`, `file b.nit =view\n`
//! - `more NAME TEXT`: adds to a file that a line above names. `more a.nit 6 =take\n`
//! - `fails N ..`: the calls of the store that fail; its reads, puts and sayings are counted
//!   together from 1. `fails 1 2`
//!
//! What comes of it:
//!
//! - `ends STATUS TEXT`: the status, and all that is said. `ends 2 USAGE`
//! - `asked TEXT`: the names of all reads and puts, in order. `asked =a.nit final.ppm`
//! - `there TEXT`: the names of the files that are there at the end: those from before, and then
//!   the others in the order of their first put. `there =a.nit`
//!
//! What comes of the journal:
//!
//! - `entries N`: so many are in it. `entries 9`
//! - `whole TEXT ..`: just these are, spelled as in a journal's text. `whole PLACED DRAG_ENTRIES`
//! - `replies SID TEXT`: what this session is answered, one reply a line, `?` where it is an event;
//!   the journal ends with the last picture. `replies 1 REPLIES`
//! - `sessions N`: each reply is the one that its session, of so many, gives by itself where it
//!   refuses nothing. `sessions 3`
//!
//! What single files hold:
//!
//! - `holds NAME TEXT`: the whole file. `holds events-a.txt EVENTS`
//! - `bytes NAME TEXT`: the same, each byte as two hexadecimal digits. `bytes a.ncap =4E 43 41 50`
//! - `picture NAME W H ROWS`: the same, as H rows of W letters. `picture final.ppm 8 1 =RRRR....`
//!   A letter is a colour: `.` the bare screen; `R`, `G`, `B` red, green, blue; `K` black; `W`
//!   white; `M` the grey of an outline; `r`, `g`, `b`, `n` red, green, blue and the bare screen at
//!   half their light; `t` blue that is tinted.
//! - `is NAME WANT`: less of it. WANT is `long N`, a number of bytes; `begins TEXT`, its front;
//!   `one-of TEXT ..`, one of these as a whole; `among LETTERS`, each pixel behind a front of 13
//!   bytes has one of these colours; `all BYTE FRONT`, each byte behind so many is this one; or
//!   `marked N MARK`, so many bytes and their `mark` (`want`). `is g0.nit marked 33078 669A12F7`

pub mod journals;
pub mod rules;
mod sessions;
mod shared;
pub mod table;
mod want;

use crate::cases::journals::assert_journal;
use crate::cases::rules::titles;
use crate::cases::table::{Case, lines_of, number, worded};
use crate::cases::want::assert_file;
use crate::checks::{fail_by, must, same_by};
use nit_actor::{Gate, Open};
use nit_store::{MemoryStore, Store, have_different_names};
use nit_top::{Done, nitpicker, nitpicker_alone, starts_threads};
use std::alloc::Global;
use std::process::Abort;
use std::sync::Wait;
use std::thread::Threads;

/// Files by name, in order.
pub type Files = Vec<(String, Vec<u8>)>;

// ---- what goes in

/// The words of the command.
pub fn words(rt: &impl Abort, alloc: Global, case: &Case) -> Vec<String> {
    texts(rt, alloc, case.want(rt, "words"))
}

/// Words of their own.
pub fn texts(rt: &impl Abort, alloc: Global, words: &str) -> Vec<String> {
    let mut texts = Vec::new(alloc);
    if words.is_empty() {
        return texts;
    }
    for word in words.split(", ") {
        texts.push(owned(rt, alloc, word)).expect(rt, "memory");
    }
    texts
}

/// A text of its own.
pub fn owned(rt: &impl Abort, alloc: Global, text: &str) -> String {
    String::from_str(alloc, text).expect(rt, "memory")
}

/// The numbers of the store's calls that fail.
fn failing(rt: &impl Abort, alloc: Global, case: &Case) -> Vec<u64> {
    let mut numbers = Vec::new(alloc);
    let line = case.last("fails").unwrap_or("");
    for digits in line.split_whitespace() {
        numbers.push(number(rt, digits)).expect(rt, "memory");
    }
    numbers
}

/// The files that are there before.
pub fn files(rt: &impl Abort, alloc: Global, case: &Case) -> Files {
    let mut files = Vec::new(alloc);
    for line in case.lines.lines() {
        put_line(rt, alloc, case, &mut files, line);
    }
    files
}

fn put_line(rt: &impl Abort, alloc: Global, case: &Case, files: &mut Files, line: &str) {
    let (word, rest) = worded(line);
    match word {
        "file" => set_file(rt, alloc, case, files, rest),
        "more" => add_to_file(rt, alloc, case, files, rest),
        _ => (),
    }
}

fn set_file(rt: &impl Abort, alloc: Global, case: &Case, files: &mut Files, rest: &str) {
    let (name, meant) = worded(rest);
    let bytes = case.text(rt, alloc, meant).into_bytes();
    if let Some(place) = place_of(files, name) {
        *place = bytes;
        return;
    }
    let file = (owned(rt, alloc, name), bytes);
    files.push(file).expect(rt, "memory");
}

fn add_to_file(rt: &impl Abort, alloc: Global, case: &Case, files: &mut Files, rest: &str) {
    let (name, meant) = worded(rest);
    let text = case.text(rt, alloc, meant);
    let Some(bytes) = place_of(files, name) else {
        return fail_by(rt, case.title, name);
    };
    bytes
        .extend_from_slice(text.as_bytes())
        .expect(rt, "memory");
}

/// The bytes of the file of this name.
fn place_of<'a>(files: &'a mut Files, name: &str) -> Option<&'a mut Vec<u8>> {
    for file in files.iter_mut() {
        if file.0.as_str() == name {
            return Some(&mut file.1);
        }
    }
    None
}

// ---- what comes of it

/// The cases of a table come out so.
pub fn assert_cases<R: Abort + Threads + Wait + Sync>(rt: &R, alloc: Global, table: &str) {
    for title in titles(rt, alloc, table).iter() {
        assert_both(rt, alloc, table, title);
    }
}

/// The case of this title comes out so, and on one thread too where it starts none.
fn assert_both<R: Abort + Threads + Wait + Sync>(rt: &R, alloc: Global, table: &str, title: &str) {
    let lines = lines_of(rt, alloc, table, title);
    let case = Case {
        table,
        title,
        lines: &lines,
    };
    assert_case(rt, alloc, &case, &Open);
    assert_alone(rt, alloc, &case, files(rt, alloc, &case));
}

/// Does what the words ask for, with each line of a client on a thread at this gate.
fn command<R: Threads + Wait + Sync, G: Gate>(
    rt: &R,
    alloc: Global,
    words: &[String],
    store: &mut MemoryStore,
    gate: &G,
) -> Done {
    nitpicker(rt, alloc, words, store, gate)
}

/// Does what these words ask for over these files, with the calls of the store failing that the
/// case says.
pub fn over<R: Abort + Threads + Wait + Sync>(
    rt: &R,
    alloc: Global,
    case: &Case,
    words: &str,
    files: Files,
) -> (Done, MemoryStore) {
    let words = texts(rt, alloc, words);
    let mut store = store(rt, alloc, case, files);
    let done = command(rt, alloc, &words, &mut store, &Open);
    (done, store)
}

/// The case comes out so at this gate.
pub fn assert_case<R: Abort + Threads + Wait + Sync, G: Gate>(
    rt: &R,
    alloc: Global,
    case: &Case,
    gate: &G,
) {
    let words = words(rt, alloc, case);
    let mut store = store(rt, alloc, case, files(rt, alloc, case));
    let done = command(rt, alloc, &words, &mut store, gate);
    assert_store(rt, alloc, case, &done, &store);
}

/// Does what the words ask for on one thread, or nothing where they start some.
pub fn alone<S: Store>(alloc: Global, words: &[String], store: &mut S) -> Option<Done> {
    if starts_threads(words) {
        return None;
    }
    Some(nitpicker_alone(alloc, words, store))
}

/// A case that starts no thread comes out so on one thread, with these files.
pub fn assert_alone(rt: &impl Abort, alloc: Global, case: &Case, files: Files) {
    let words = words(rt, alloc, case);
    let mut store = store(rt, alloc, case, files);
    if let Some(done) = alone(alloc, &words, &mut store) {
        assert_store(rt, alloc, case, &done, &store);
    }
}

/// A store with these files, of which the calls fail that the case says.
fn store(rt: &impl Abort, alloc: Global, case: &Case, files: Files) -> MemoryStore {
    let failing = failing(rt, alloc, case);
    must(rt, case.title, have_different_names(&files));
    MemoryStore::new(alloc, files, failing)
}

/// What came of a command.
#[derive(Clone, Copy)]
pub struct Came<'a> {
    pub done: &'a Done,
    /// All that was said.
    pub said: &'a [u8],
    /// The files that are there afterwards.
    pub files: &'a [(String, Vec<u8>)],
}

/// The command of a case came out so over this store.
pub fn assert_store(rt: &impl Abort, alloc: Global, case: &Case, done: &Done, store: &MemoryStore) {
    let asked = store.asked().join(alloc, " ").expect(rt, "memory");
    assert_text(rt, alloc, case, case.want(rt, "asked"), &asked);
    let came = Came {
        done,
        said: store.said(),
        files: store.files(),
    };
    assert_came(rt, alloc, case, &came);
}

/// What is found is the text that is meant.
pub fn assert_text(rt: &impl Abort, alloc: Global, case: &Case, meant: &str, found: &str) {
    let want = case.text(rt, alloc, meant);
    same_by(rt, case.title, meant, &found, &want.as_str());
}

/// The command of a case came out so, but for what was asked for.
pub fn assert_came(rt: &impl Abort, alloc: Global, case: &Case, came: &Came) {
    assert_end(rt, alloc, case, came);
    let there = names_of(rt, alloc, came.files);
    assert_text(rt, alloc, case, case.want(rt, "there"), &there);
    for line in case.lines.lines() {
        assert_line(rt, alloc, case, came, line);
    }
}

/// The command ends so, and says this. The journal has so many entries.
pub fn assert_end(rt: &impl Abort, alloc: Global, case: &Case, came: &Came) {
    let (status, said) = worded(case.want(rt, "ends"));
    let found = came.done.status as u64;
    same_by(rt, case.title, "ends", &found, &number(rt, status));
    let found = std::str::from_utf8(came.said).expect(rt, "a text");
    assert_text(rt, alloc, case, said, found);
    if let Some(entries) = case.last("entries") {
        let count = came.done.journal.len() as u64;
        same_by(rt, case.title, "entries", &count, &number(rt, entries));
    }
}

/// The names of files.
fn names_of(rt: &impl Abort, alloc: Global, files: &[(String, Vec<u8>)]) -> String {
    let mut names = Vec::new(alloc);
    for file in files {
        names.push(file.0.as_str()).expect(rt, "memory");
    }
    names.join(alloc, " ").expect(rt, "memory")
}

/// What came of a case is as this line says.
fn assert_line(rt: &impl Abort, alloc: Global, case: &Case, came: &Came, line: &str) {
    match worded(line).0 {
        "case" | "with" | "words" | "file" | "more" => (),
        "cut" | "edits" | "fails" | "ends" | "asked" | "there" | "entries" => (),
        "whole" | "replies" | "sessions" => {
            assert_journal(rt, alloc, case, &came.done.journal, line)
        }
        _ => assert_file(rt, alloc, case, came.files, line),
    }
}

/// The bytes under a name.
pub fn bytes_of<'a>(files: &'a [(String, Vec<u8>)], name: &str) -> Option<&'a [u8]> {
    for file in files {
        if file.0.as_str() == name {
            return Some(file.1.as_slice());
        }
    }
    None
}
