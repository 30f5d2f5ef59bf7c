//! The command `audit`: three journals of runs, and edits of them, each of which makes it one of no
//! run.
//!
//! Of two lines out of one script, or a line before the last picture, that are swapped, the first
//! is the bad one; of lines in two phases it is the second, as it is of a line that stands there
//! twice. Where a line is taken out, it is the next line of the same script, or the last picture
//! where there is none, and where that is taken out, the place behind all.

use crate::cases::table::{Case, lines_of, number, worded};
use crate::cases::{assert_alone, assert_cases, bytes_of, files};
use crate::checks::{fail, found, must, same};
use std::alloc::Global;
use std::process::Abort;

#[test]
fn three_journals(rt: HostRuntime) {
    assert_cases(&rt, rt.alloc(), CASES);
}

#[test]
fn edited_journals(rt: HostRuntime) {
    assert_edits(&rt, rt.alloc(), "two clients", OF_TWO_CLIENTS, 40);
    assert_edits(&rt, rt.alloc(), "a client is locked out", OF_A_KILL, 18);
    assert_edits(&rt, rt.alloc(), "three views", OF_VIEWS, 8);
}

const CASES: &str = r#"

base audit
words audit, two.toml, journal.txt
file two.toml CONFIG
file a.nit A
file b.nit B
file two.in INPUT
file journal.txt JOURNAL
asked =two.toml a.nit b.nit two.in journal.txt
there =two.toml a.nit b.nit two.in journal.txt
entries 0

case two clients
with audit
ends 0 =nitpicker: audit yes entries 9\n

case a client is locked out
with audit
file a.nit LEFT
more a.nit =take\nview\nclose\n
file b.nit RIGHT
more b.nit =take\n
file two.in KILLING
file journal.txt PLACED
more journal.txt KILLED_ENTRIES
ends 0 =nitpicker: audit yes entries 17\n

case three views
with audit
file a.nit VIEWS_A
file b.nit VIEWS_B
file two.in VIEWS_INPUT
file journal.txt VIEWS_JOURNAL
ends 0 =nitpicker: audit yes entries 19\n

text VIEWS_A
| view
| view
| view
| place 1 0 0 4 4
| place 2 0 0 4 4
| place 3 0 0 2 2
| back 3
| above 1 2
| front 3
| destroy 3
| offset 1 1 1
| title 1 =log
| phase
| phase
| take

text VIEWS_B
| view
| place 1 0 0 1 1
| phase
| close
| phase

text VIEWS_INPUT
| motion 0 0
| phase
| phase
| motion 0 0

text VIEWS_JOURNAL
| call 0 handle 1 < view
| call 0 handle 2 < view
| call 0 handle 3 < view
| call 0 done < place 1 0 0 4 4
| call 0 done < place 2 0 0 4 4
| call 0 done < place 3 0 0 2 2
| call 0 done < back 3
| call 0 done < above 1 2
| call 0 done < front 3
| call 0 done < destroy 3
| call 0 done < offset 1 1 1
| call 0 done < title 1 =log
| call 1 handle 1 < view
| call 1 done < place 1 0 0 1 1
| input motion 0 0 > 1 motion 0 0
| call 1 done < close
| input motion 0 0 > 0 motion 0 0
| call 0 event motion 0 0 < take
| final

"#;

/// Edits of the journal of two clients. In front of each stands the entry that the audit names
/// then: `4 out 4` takes line 4 out, `2 twice 1` doubles one, `4 swapped 3` swaps it with the next,
/// and by `9 says 9 shot 2` line 9 says so.
const OF_TWO_CLIENTS: &str = "\
1 out 1
2 out 2
8 out 3
4 out 4
5 out 5
7 out 6
8 out 7
8 out 8
9 out 9
2 twice 1
3 twice 2
4 twice 3
5 twice 4
6 twice 5
7 twice 6
8 twice 7
9 twice 8
10 twice 9
1 swapped 1
2 swapped 2
4 swapped 3
4 swapped 4
5 swapped 5
7 swapped 6
8 swapped 7
8 swapped 8
1 says 1 call 0 killed < buffer 4 2
1 says 1 call 0 done < buffer 2 4
2 says 1 call 1 done < buffer 4 2
1 says 1 call 2 done < buffer 4 2
2 says 2 call 0 handle 2 < view
3 says 3 call 0 bad-rect < place 1 0 0 4 2
3 says 3 call 0 done < place 2 0 0 4 2
3 says 3 final
5 says 5 call 1 handle 2 < view
5 says 5 call 1 done < view
7 says 7 shot 2
7 says 7 input motion 0 0
8 says 8 call 1 no-such-view 1 < place 1 4 2 4 2
9 says 9 shot 2
";

/// Edits of the journal of a client that is locked out.
const OF_A_KILL: &str = "\
7 says 7 input motion 1 1
7 says 7 input motion 1 1 > 1 motion 1 1
7 says 7 input motion 1 1 > 0 motion 1 2
7 says 7 input motion 1 1 > 0 motion 1 1 > 1 leave
7 says 7 input motion 1 2 > 0 motion 1 2
8 says 8 input press 272 > 0 press 272 > 0 focus-enter
8 says 8 input press 272 > 0 press 272
8 says 8 input press 272 > 0 focus-leave > 0 press 272
10 says 10 input press 99
11 says 11 input press 272 > 0 press 272
11 says 11 input press 272 > 1 kill
12 says 12 input release 272 > 0 release 272
12 says 12 input release 273
13 says 13 call 0 event motion 1 1 < take
13 says 13 call 0 closed < take
14 says 14 call 1 event focus-leave < take
15 says 15 call 0 handle 2 < view
16 says 16 call 0 done < close
";

/// Edits of the journal of three views.
const OF_VIEWS: &str = "\
3 says 3 call 0 handle 2 < view
9 says 9 call 0 no-such-view 3 < front 3
10 says 10 call 0 done < destroy 2
12 says 12 call 0 done < title 1 =dog
15 says 15 input motion 0 0 > 0 motion 0 0
17 says 17 input motion 0 0 > 1 motion 0 0
18 says 18 call 0 no-event < take
18 says 18 call 0 event motion 0 1 < take
";

/// Each of these edits of the journal of the case of this title, of which there are so many, makes
/// it one of no run.
fn assert_edits(rt: &impl Abort, alloc: Global, title: &str, edits: &str, many: u64) {
    let lines = lines_of(rt, alloc, CASES, title);
    let case = Case {
        table: CASES,
        title,
        lines: &lines,
    };
    let files = files(rt, alloc, &case);
    let journal = found(rt, title, bytes_of(&files, "journal.txt"));
    let journal = std::str::from_utf8(journal).expect(rt, "a text");
    let mut count: u64 = 0;
    for edit in edits.lines() {
        assert_edit(rt, alloc, &case, journal, edit);
        count = count.saturating_add(1);
    }
    same(rt, title, &count, &many);
}

/// This edit makes it one of no run. It is told behind the title.
fn assert_edit(rt: &impl Abort, alloc: Global, case: &Case, journal: &str, edit: &str) {
    let title = format!(in alloc; "{}: {edit}", case.title).expect(rt, "memory");
    let lines = edited(rt, alloc, case, journal, edit);
    let case = Case {
        table: CASES,
        title: &title,
        lines: &lines,
    };
    assert_alone(rt, alloc, &case, files(rt, alloc, &case));
}

/// The lines of a case with this edit of its journal: of several lines for one file, or for the
/// end, the last one counts.
fn edited(rt: &impl Abort, alloc: Global, case: &Case, journal: &str, edit: &str) -> String {
    let (entry, edit) = worded(edit);
    let journal = edited_text(rt, alloc, journal, edit);
    let lines = format!(in alloc;
        "{}\nfile journal.txt ={journal}\n\
         ends 9 =nitpicker: journal.txt: entry {entry}: not a run\\n",
        case.lines
    );
    lines.expect(rt, "memory")
}

/// The lines of this text after an edit, in one line.
fn edited_text(rt: &impl Abort, alloc: Global, text: &str, edit: &str) -> String {
    let mut lines = Vec::new(alloc);
    for line in text.lines() {
        lines.push(line).expect(rt, "memory");
    }
    change(rt, &mut lines, edit);
    lines.push("").expect(rt, "memory");
    lines.join(alloc, "\\n").expect(rt, "memory")
}

/// Changes one of these lines, or two.
fn change<'a>(rt: &impl Abort, lines: &mut Vec<&'a str>, edit: &'a str) {
    let (verb, edit) = worded(edit);
    let (line, said) = worded(edit);
    let at = (number(rt, line) as usize).wrapping_sub(1);
    must(rt, edit, at < lines.len());
    let line = lines[at];
    match verb {
        "out" => drop(lines.remove(at)),
        "twice" => lines.insert(at, line).expect(rt, "memory"),
        "says" => lines[at] = said,
        "swapped" if at + 1 < lines.len() => lines.swap(at, at + 1),
        _ => fail(rt, verb),
    }
}
