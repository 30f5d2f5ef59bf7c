//! The rules of tables that `cases` tells. Where a table breaks one, no case of it is taken: the
//! test fails, and says the rule, and the block or the line that breaks it.

use crate::cases::shared::TEXTS;
use crate::cases::table::{head, last, parsed, worded};
use crate::checks::{fail_by, found, rule};
use std::alloc::Global;
use std::process::Abort;

/// The titles of a table's cases, in order. The table keeps all rules.
pub fn titles<'a>(rt: &impl Abort, alloc: Global, table: &'a str) -> Vec<&'a str> {
    assert_table(rt, alloc, table);
    let mut titles = Vec::new(alloc);
    for block in table.split("\n\n") {
        push_title(rt, &mut titles, block);
    }
    rule(rt, "a table has a case", table, !titles.is_empty());
    titles
}

/// The title of a block that is a case.
fn push_title<'a>(rt: &impl Abort, titles: &mut Vec<&'a str>, block: &'a str) {
    let (kind, title) = worded(parted(block).0);
    if kind == "case" {
        titles.push(title).expect(rt, "memory");
    }
}

/// The table keeps all rules, and has none of the names of texts that tables share.
fn assert_table(rt: &impl Abort, alloc: Global, table: &str) {
    let mut heads = Vec::new(alloc);
    assert_blocks(rt, alloc, TEXTS, &mut heads);
    assert_blocks(rt, alloc, table, &mut heads);
    assert_uses(rt, alloc, table);
}

/// The head of a block, and its lines.
fn parted(block: &str) -> (&str, &str) {
    block.split_once('\n').unwrap_or((block, ""))
}

// ---- blocks

/// Each block keeps the rules, and has a head that none before it has.
fn assert_blocks<'a>(rt: &impl Abort, alloc: Global, table: &'a str, heads: &mut Vec<&'a str>) {
    for block in table.split("\n\n") {
        if !block.is_empty() {
            let (head, lines) = parted(block);
            assert_new(rt, "no two blocks have the same head", heads, head);
            assert_block(rt, alloc, head, lines);
        }
    }
}

/// The start is none of those before it, which it joins.
fn assert_new<'a>(rt: &impl Abort, broken: &str, starts: &mut Vec<&'a str>, start: &'a str) {
    rule(rt, broken, start, !has_start(starts, start));
    starts.push(start).expect(rt, "memory");
}

fn has_start(starts: &[&str], start: &str) -> bool {
    for other in starts {
        if *other == start {
            return true;
        }
    }
    false
}

fn assert_block(rt: &impl Abort, alloc: Global, head: &str, lines: &str) {
    let (kind, name) = worded(head);
    rule(rt, "a block has a title or a name", head, !name.is_empty());
    match kind {
        "case" => assert_lines(rt, alloc, lines),
        "base" => assert_base(rt, alloc, head, lines),
        "text" => assert_text_lines(rt, lines),
        _ => fail_by(rt, "a block is a case, a base or a text", head),
    }
}

fn assert_base(rt: &impl Abort, alloc: Global, head: &str, lines: &str) {
    let has_base = last(lines, "with").is_some();
    rule(rt, "a base has no base", head, !has_base);
    assert_lines(rt, alloc, lines);
}

// ---- lines

/// Each line begins with a word of the language, and no two say the same.
fn assert_lines(rt: &impl Abort, alloc: Global, lines: &str) {
    let mut starts = Vec::new(alloc);
    for line in lines.lines() {
        assert_line(rt, &mut starts, line);
    }
}

fn assert_line<'a>(rt: &impl Abort, starts: &mut Vec<&'a str>, line: &'a str) {
    let (word, rest) = worded(line);
    let once = "it stands once in a block";
    match word {
        "with"
        | "words"
        | "fails"
        | "ends"
        | "asked"
        | "there"
        | "entries"
        | "sessions"
        | "whole" => assert_new(rt, once, starts, word),
        "file" => assert_new(rt, once, starts, worded(rest).0),
        "more" | "replies" | "holds" | "bytes" | "picture" | "is" => (),
        _ => fail_by(rt, "a line begins with a word of the language", line),
    }
}

fn assert_text_lines(rt: &impl Abort, lines: &str) {
    for line in lines.lines() {
        rule(rt, "a text has lines and pieces", line, is_of_text(line));
    }
}

/// Whether it is a line or a piece.
fn is_of_text(line: &str) -> bool {
    match line.strip_prefix('|') {
        Some(rest) => rest.is_empty() || rest.strip_prefix(' ').is_some(),
        None => is_piece(line),
    }
}

/// Whether it has nothing or a number in front of `=`.
fn is_piece(line: &str) -> bool {
    match line.split_once('=') {
        Some((times, _piece)) => times.is_empty() || parsed(times.trim_end()).is_some(),
        None => false,
    }
}

// ---- uses

/// Each base and each text of a table is used.
fn assert_uses(rt: &impl Abort, alloc: Global, table: &str) {
    for block in table.split("\n\n") {
        assert_use(rt, alloc, table, block);
    }
}

fn assert_use(rt: &impl Abort, alloc: Global, table: &str, block: &str) {
    let (kind, name) = worded(parted(block).0);
    match kind {
        "base" => assert_base_used(rt, alloc, table, name),
        "text" => assert_text_used(rt, alloc, table, name),
        _ => (),
    }
}

/// A case begins with the lines of the base of this name.
fn assert_base_used(rt: &impl Abort, alloc: Global, table: &str, name: &str) {
    let line = format!(in alloc; "\nwith {name}\n").expect(rt, "memory");
    rule(rt, "a base is used", name, has(table, &line));
}

/// Another line than its head names the text of this name, among others or as the last word.
fn assert_text_used(rt: &impl Abort, alloc: Global, table: &str, name: &str) {
    let head = head(rt, alloc, "text", name);
    let (before, behind) = found(rt, &head, table.split_once(head.as_str()));
    let inner = format!(in alloc; " {name} ").expect(rt, "memory");
    let last = format!(in alloc; " {name}\n").expect(rt, "memory");
    let is_used = has(before, &inner) || has(behind, &inner);
    let is_last = has(before, &last) || has(behind, &last);
    rule(rt, "a text is used", name, is_used || is_last);
}

fn has(text: &str, part: &str) -> bool {
    text.split_once(part).is_some()
}
