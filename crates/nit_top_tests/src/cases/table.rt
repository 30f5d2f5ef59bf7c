//! Tables, as text: their blocks and texts. `cases` has the language, and `rules` its rules.
//!
//! Where a table cannot be read so, the test fails, and says what it is that it cannot read.

use crate::cases::shared::TEXTS;
use crate::checks::{found, found_in};
use std::alloc::Global;
use std::fmt::Write;
use std::process::Abort;

/// A case: the table that its texts stand in, its title, and all its lines.
#[derive(Clone, Copy)]
pub struct Case<'a> {
    pub table: &'a str,
    pub title: &'a str,
    pub lines: &'a str,
}

impl<'a> Case<'a> {
    /// What stands behind this word in the last line that begins with it.
    pub fn last(&self, word: &str) -> Option<&'a str> {
        last(self.lines, word)
    }

    /// What stands behind this word in the last line that begins with it, which each case has.
    pub fn want(&self, rt: &impl Abort, word: &str) -> &'a str {
        found_in(rt, self.title, word, self.last(word))
    }

    /// The text that is meant: a number of times what stands behind `=`, or the one of this name.
    pub fn text(&self, rt: &impl Abort, alloc: Global, meant: &str) -> String {
        let mut text = String::new(alloc);
        match meant.split_once('=') {
            Some((times, piece)) => push_times(rt, &mut text, times, piece),
            None => push_block(rt, &mut text, self.named(rt, alloc, meant)),
        }
        text
    }

    /// The lines of the text of this name, in the table or among those that tables share.
    fn named(&self, rt: &impl Abort, alloc: Global, name: &str) -> &'a str {
        let head = head(rt, alloc, "text", name);
        let lines = block(self.table, &head).or(block(TEXTS, &head));
        found_in(rt, self.title, &head, lines)
    }
}

/// The first word of a line, and what stands behind it.
pub fn worded(line: &str) -> (&str, &str) {
    line.split_once(' ').unwrap_or((line, ""))
}

/// What stands behind this word in the last of these lines that begins with it.
pub fn last<'a>(lines: &'a str, word: &str) -> Option<&'a str> {
    let mut found = None;
    for line in lines.lines() {
        let (first, rest) = worded(line);
        if first == word {
            found = Some(rest);
        }
    }
    found
}

/// The head of a block of this kind and name, with the empty line in front of it.
pub fn head(rt: &impl Abort, alloc: Global, kind: &str, name: &str) -> String {
    format!(in alloc; "\n\n{kind} {name}\n").expect(rt, "memory")
}

/// The lines of the table's block of this head.
fn block<'a>(table: &'a str, head: &str) -> Option<&'a str> {
    match table.split_once(head) {
        Some((_before, lines)) => lines.split("\n\n").next(),
        None => None,
    }
}

/// The lines of the table's block of this kind and name.
fn block_of<'a>(rt: &impl Abort, alloc: Global, table: &'a str, kind: &str, name: &str) -> &'a str {
    let head = head(rt, alloc, kind, name);
    found(rt, &head, block(table, &head))
}

/// All lines of the case of this title: those of its base, and then its own.
pub fn lines_of(rt: &impl Abort, alloc: Global, table: &str, title: &str) -> String {
    let case = block_of(rt, alloc, table, "case", title);
    let lines = match last(case, "with") {
        Some(name) => {
            let base = block_of(rt, alloc, table, "base", name);
            format!(in alloc; "{base}\n{case}")
        }
        None => format!(in alloc; "{case}"),
    };
    lines.expect(rt, "memory")
}

/// The lines of a text.
fn push_block(rt: &impl Abort, text: &mut String, lines: &str) {
    for line in lines.lines() {
        push_line(rt, text, line);
    }
}

/// Behind `|` stands a line, and behind `=` a piece.
fn push_line(rt: &impl Abort, text: &mut String, line: &str) {
    if let Some(line) = line.strip_prefix('|') {
        push_piece(rt, text, line.strip_prefix(' ').unwrap_or(line), 0);
        push_plain(rt, text, "\\n");
        return;
    }
    let (times, piece) = found(rt, line, line.split_once('='));
    push_times(rt, text, times, piece);
}

/// A piece as often as the number says, or once where there is none.
fn push_times(rt: &impl Abort, text: &mut String, times: &str, piece: &str) {
    let times = if times.is_empty() {
        1
    } else {
        number(rt, times.trim_end())
    };
    for time in 0..times {
        push_piece(rt, text, piece, time);
    }
}

/// A number.
pub fn number(rt: &impl Abort, digits: &str) -> u64 {
    found(rt, digits, parsed(digits))
}

/// The number of these digits, where they are one.
pub fn parsed(digits: &str) -> Option<u64> {
    digits.parse().ok()
}

/// A piece, in which `{3+20}` is 3 at the first time, and then rises by 20.
fn push_piece(rt: &impl Abort, text: &mut String, piece: &str, time: u64) {
    let mut parts = piece.split('{');
    push_plain(rt, text, parts.next().unwrap_or(""));
    for part in parts {
        push_counted(rt, text, part, time);
    }
}

fn push_counted(rt: &impl Abort, text: &mut String, part: &str, time: u64) {
    let (count, rest) = found(rt, part, part.split_once('}'));
    let (first, step) = found(rt, part, count.split_once('+'));
    let number = number(rt, first).saturating_add(number(rt, step).saturating_mul(time));
    write!(text, "{number}").expect(rt, "memory");
    push_plain(rt, text, rest);
}

/// Plain text, in which `\n` ends a line.
fn push_plain(rt: &impl Abort, text: &mut String, plain: &str) {
    let mut lines = plain.split("\\n");
    push(rt, text, lines.next().unwrap_or(""));
    for line in lines {
        push(rt, text, "\n");
        push(rt, text, line);
    }
}

fn push(rt: &impl Abort, text: &mut String, plain: &str) {
    text.push_str(plain).expect(rt, "memory");
}
