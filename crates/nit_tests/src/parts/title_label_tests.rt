//! Titles and labels.

use crate::checks::same;
use nit_glyph::{Label, Title, label_text};
use std::process::Abort;

#[test]
fn titles_and_labels(rt: HostRuntime) {
    assert_titles(&rt, TITLES, true);
    assert_titles(&rt, NO_TITLES, false);
    assert_labels(&rt, LABELS, true);
    assert_labels(&rt, NO_LABELS, false);
}

#[test]
fn texts_of_views(rt: HostRuntime) {
    assert_text(&rt, "terminal", "tab 1", "terminal:tab 1");
    assert_text(&rt, "b", "", "b");
    let longest = "abcdefghijklmnopqrst:abcdefghijkl";
    assert_text(&rt, "abcdefghijklmnopqrst", "abcdefghijkl", longest);
}

/// Titles, with `|` between them.
const TITLES: &str = "|log 2|abcdefghijkl|0-9._ z| ";

const NO_TITLES: &str = "Log|abcdefghijklm|a:b|a\n|\u{e9}|a=b";

const LABELS: &str = "a|terminal|abcdefghijklmnopqrst|0-9._z";

const NO_LABELS: &str = "|A|a b|a:b|abcdefghijklmnopqrstu";

fn assert_titles(rt: &impl Abort, texts: &str, want: bool) {
    for text in texts.split('|') {
        same(rt, text, &Title::new(text.as_bytes()).is_some(), &want);
    }
}

fn assert_labels(rt: &impl Abort, texts: &str, want: bool) {
    for text in texts.split('|') {
        same(rt, text, &Label::new(text.as_bytes()).is_some(), &want);
    }
}

/// The text of a view that has this label and title.
fn assert_text(rt: &impl Abort, label: &str, title: &str, want: &str) {
    let label = Label::new(label.as_bytes()).expect(rt, "a label");
    let title = Title::new(title.as_bytes()).expect(rt, "a title");
    let text = label_text(&label, &title);
    same(rt, want, &text.as_bytes(), &want.as_bytes());
}
