//! The command `audit`: journals, judged by the configuration and the scripts of two clients.

use crate::cases::table::{Case, lines_of};
use crate::cases::{alone, assert_cases, files, over, texts};
use crate::checks::same;
use std::alloc::Global;
use std::process::Abort;
use std::sync::Wait;
use std::thread::Threads;

#[test]
fn audits(rt: HostRuntime) {
    assert_cases(&rt, rt.alloc(), CASES);
}

#[test]
fn journals_that_runs_put(rt: HostRuntime) {
    assert_audited(&rt, rt.alloc(), "turns, two.toml");
    assert_audited(&rt, rt.alloc(), "run, two.toml");
}

const CASES: &str = r#"

base audit
words audit, two.toml, journal.txt
file two.toml CONFIG
file a.nit A
file b.nit B
file two.in INPUT
file journal.txt JOURNAL
ends 9 =nitpicker: journal.txt: entry 1: not a run\n
asked =two.toml a.nit b.nit two.in journal.txt
there =two.toml a.nit b.nit two.in journal.txt
entries 0

case the second client's view has another handle
with audit
file journal.txt OTHER_HANDLE
ends 9 =nitpicker: journal.txt: entry 5: not a run\n

case up to the last call, and no last picture
with audit
file journal.txt UNENDED
ends 9 =nitpicker: journal.txt: entry 9: not a run\n

case an empty journal
with audit
file journal.txt =

case the last picture alone
with audit
file journal.txt =final\n

case a call with a number too many
with audit
file journal.txt =call 0 done < view 1\n
ends 8 =nitpicker: journal.txt: line 1: bad journal\n

case a session that no run has
with audit
file journal.txt =final\ncall 16 done < view\n
ends 8 =nitpicker: journal.txt: line 2: bad journal\n

case a shot of number 0
with audit
file journal.txt =shot 0\n
ends 8 =nitpicker: journal.txt: line 1: bad journal\n

case no last line feed
with audit
file journal.txt =shot 1\nfinal
ends 8 =nitpicker: journal.txt: line 2: bad journal\n

case an input with four deliveries
with audit
file journal.txt =input press 30 > 0 press 30 > 0 press 30 > 0 press 30 > 0 press 30\n
ends 8 =nitpicker: journal.txt: line 1: bad journal\n

case an entry that is of no run stands before a line that is refused
with audit
file journal.txt =final\nfinal
ends 8 =nitpicker: journal.txt: line 2: bad journal\n

case a script that is refused is told, and the journal is not read
with audit
file two.in =
file journal.txt =call
ends 6 =nitpicker: two.in: phases differ\n
asked =two.toml a.nit b.nit two.in

case the last script cannot be read
with audit
fails 4
ends 3 =nitpicker: two.in: read fault\n
asked =two.toml a.nit b.nit two.in

case the journal cannot be read
with audit
fails 5
ends 3 =nitpicker: journal.txt: read fault\n

case the line of a run cannot be said
with audit
fails 6
ends 4 =

case the line of a journal of no run cannot be said
with audit
file journal.txt UNENDED
fails 6
ends 9 =

case the line of a journal that is refused cannot be said
with audit
file journal.txt =call
fails 6
ends 8 =

case no journal
words audit, two.toml, journal.txt
file two.toml CONFIG
file a.nit A
file b.nit B
file two.in INPUT
ends 3 =nitpicker: journal.txt: read fault\n
asked =two.toml a.nit b.nit two.in journal.txt
there =two.toml a.nit b.nit two.in
entries 0

text OTHER_HANDLE
| call 0 done < buffer 4 2
| call 0 handle 1 < view
| call 0 done < place 1 0 0 4 2
| call 1 done < buffer 4 2
| call 1 handle 2 < view
| call 1 done < place 1 0 0 4 2
| shot 1
| call 1 done < place 1 4 2 4 2
| final

text UNENDED
| call 0 done < buffer 4 2
| call 0 handle 1 < view
| call 0 done < place 1 0 0 4 2
| call 1 done < buffer 4 2
| call 1 handle 1 < view
| call 1 done < place 1 0 0 4 2
| shot 1
| call 1 done < place 1 4 2 4 2

"#;

/// What this run puts is audited.
fn assert_audited<R: Abort + Threads + Wait + Sync>(rt: &R, alloc: Global, words: &str) {
    let title = "no journal";
    let lines = lines_of(rt, alloc, CASES, title);
    let case = Case {
        table: CASES,
        title,
        lines: &lines,
    };
    let files = files(rt, alloc, &case);
    let (ran, mut store) = over(rt, alloc, &case, words, files);
    same(rt, words, &ran.status, &0);
    let audit = alone(
        alloc,
        &texts(rt, alloc, "audit, two.toml, journal.txt"),
        &mut store,
    );
    same(rt, words, &audit.expect(rt, "an audit").status, &0);
}
