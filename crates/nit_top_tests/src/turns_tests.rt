//! The command `turns`: the run of two clients on a screen of 8 by 4, of which one shows a red view
//! of 4 by 2, and the other a blue one that first stands in front of it and then moves away; and
//! scripts of theirs that are refused.

use crate::cases::rules::titles;
use crate::cases::table::{Case, lines_of, number, worded};
use crate::cases::{assert_alone, assert_cases, files};
use crate::checks::same;
use std::alloc::Global;
use std::process::Abort;

#[test]
fn two_clients(rt: HostRuntime) {
    assert_cases(&rt, rt.alloc(), CASES);
}

/// Each length from 0 to all 70 bytes is that of one case.
#[test]
fn cut_scripts(rt: HostRuntime) {
    let mut next: u64 = 0;
    for title in titles(&rt, rt.alloc(), CUTS).iter() {
        next = assert_cuts(&rt, rt.alloc(), title, next);
    }
    same(&rt, "lengths", &next, &71);
}

const CASES: &str = r#"

base turns
words turns, two.toml
file two.toml CONFIG
file a.nit A
file b.nit B
file two.in INPUT
ends 4 =nitpicker: final.ppm: write fault\n
asked =two.toml a.nit b.nit two.in shot-1.ppm final.ppm events-a.txt events-b.txt journal.txt
there =two.toml a.nit b.nit two.in

case the whole run
with turns
ends 0 =nitpicker: clients 2 entries 9 frames 2\n
there =two.toml a.nit b.nit two.in shot-1.ppm final.ppm events-a.txt events-b.txt journal.txt
holds two.toml CONFIG
holds a.nit A
holds b.nit B
holds two.in INPUT
picture shot-1.ppm 8 4 SHOT
picture final.ppm 8 4 FINAL
holds events-a.txt EVENTS
holds events-b.txt EVENTS
holds journal.txt JOURNAL
whole JOURNAL

case where the last picture is not put, the shot stays, and the run goes to its end
with turns
fails 6
asked =two.toml a.nit b.nit two.in shot-1.ppm final.ppm
there =two.toml a.nit b.nit two.in shot-1.ppm
picture shot-1.ppm 8 4 SHOT
whole JOURNAL

case the configuration cannot be read
with turns
fails 1
ends 3 =nitpicker: two.toml: read fault\n
asked =two.toml
entries 0

case the first script cannot be read
with turns
fails 2
ends 3 =nitpicker: a.nit: read fault\n
asked =two.toml a.nit
entries 0

case the second script cannot be read
with turns
fails 3
ends 3 =nitpicker: b.nit: read fault\n
asked =two.toml a.nit b.nit
entries 0

case the input script cannot be read
with turns
fails 4
ends 3 =nitpicker: two.in: read fault\n
asked =two.toml a.nit b.nit two.in
entries 0

case the shot cannot be put
with turns
fails 5
ends 4 =nitpicker: shot-1.ppm: write fault\n
asked =two.toml a.nit b.nit two.in shot-1.ppm
entries 9

case where the last picture cannot be put, all entries are there
with turns
fails 6
asked =two.toml a.nit b.nit two.in shot-1.ppm final.ppm
there =two.toml a.nit b.nit two.in shot-1.ppm
entries 9

case the first client's events cannot be put
with turns
fails 7
ends 4 =nitpicker: events-a.txt: write fault\n
asked =two.toml a.nit b.nit two.in shot-1.ppm final.ppm events-a.txt
there =two.toml a.nit b.nit two.in shot-1.ppm final.ppm
entries 9

case the second client's events cannot be put
with turns
fails 8
ends 4 =nitpicker: events-b.txt: write fault\n
asked =two.toml a.nit b.nit two.in shot-1.ppm final.ppm events-a.txt events-b.txt
there =two.toml a.nit b.nit two.in shot-1.ppm final.ppm events-a.txt
entries 9

case the journal cannot be put
with turns
fails 9
ends 4 =nitpicker: journal.txt: write fault\n
there =two.toml a.nit b.nit two.in shot-1.ppm final.ppm events-a.txt events-b.txt
entries 9

case the line cannot be said
with turns
fails 10
ends 4 =
there =two.toml a.nit b.nit two.in shot-1.ppm final.ppm events-a.txt events-b.txt journal.txt
entries 9

base refused
words turns, two.toml
file two.toml CONFIG
file a.nit A
file b.nit B
file two.in INPUT
ends 6 =nitpicker: two.in: phases differ\n
asked =two.toml a.nit b.nit two.in
there =two.toml a.nit b.nit two.in
entries 0

case an input script without phases
with refused
file two.in =

case an input script of one phase
with refused
file two.in =shot\nphase\n

case a second script of one phase
with refused
file b.nit =phase\n
ends 6 =nitpicker: b.nit: phases differ\n
asked =two.toml a.nit b.nit

case the number of phases is that of the first client's script
with refused
file a.nit =
ends 6 =nitpicker: b.nit: phases differ\n
asked =two.toml a.nit b.nit

case a line of the first script without a reading
with refused
file a.nit =buffer 4\n
ends 6 =nitpicker: a.nit: line 1: bad script\n
asked =two.toml a.nit

case a line of the second script without a reading
with refused
file b.nit =phase\nView\n
ends 6 =nitpicker: b.nit: line 2: bad script\n
asked =two.toml a.nit b.nit

case a client's line in the input script
with refused
file two.in =phase\nview\n
ends 6 =nitpicker: two.in: line 2: bad script\n

"#;

/// The title of a case begins with the lengths, from the first to the last, to which the first
/// client's script is cut.
const CUTS: &str = r#"

base cut
words turns, two.toml
file two.toml CONFIG
file a.nit A
file b.nit B
file two.in INPUT
ends 6 =nitpicker: b.nit: phases differ\n
asked =two.toml a.nit b.nit
there =two.toml a.nit b.nit two.in
entries 0

case 0 0 nothing is left
with cut

case 1 10 the first line is torn
with cut
ends 6 =nitpicker: a.nit: line 1: bad script\n
asked =two.toml a.nit

case 11 11 one whole line
with cut

case 12 30 the second line is torn
with cut
ends 6 =nitpicker: a.nit: line 2: bad script\n
asked =two.toml a.nit

case 31 31 two whole lines
with cut

case 32 35 the third line is torn
with cut
ends 6 =nitpicker: a.nit: line 3: bad script\n
asked =two.toml a.nit

case 36 36 three whole lines
with cut

case 37 51 the fourth line is torn
with cut
ends 6 =nitpicker: a.nit: line 4: bad script\n
asked =two.toml a.nit

case 52 52 four whole lines
with cut

case 53 57 the fifth line is torn
with cut
ends 6 =nitpicker: a.nit: line 5: bad script\n
asked =two.toml a.nit

case 58 58 five whole lines
with cut

case 59 63 the sixth line is torn
with cut
ends 6 =nitpicker: a.nit: line 6: bad script\n
asked =two.toml a.nit

case 64 64 six whole lines
with cut

case 65 69 the seventh line is torn
with cut
ends 6 =nitpicker: a.nit: line 7: bad script\n
asked =two.toml a.nit

case 70 70 all seven lines
words turns, two.toml
file two.toml CONFIG
file a.nit A
file b.nit B
file two.in INPUT
ends 0 =nitpicker: clients 2 entries 9 frames 2\n
asked =two.toml a.nit b.nit two.in shot-1.ppm final.ppm events-a.txt events-b.txt journal.txt
there =two.toml a.nit b.nit two.in shot-1.ppm final.ppm events-a.txt events-b.txt journal.txt
holds two.toml CONFIG
holds a.nit A
holds b.nit B
holds two.in INPUT
picture shot-1.ppm 8 4 SHOT
picture final.ppm 8 4 FINAL
holds events-a.txt EVENTS
holds events-b.txt EVENTS
holds journal.txt JOURNAL
whole JOURNAL

"#;

/// The run comes out so with the first client's script, which is the second file, cut to each
/// length of this title, which begins with the next one. The answer is the length behind them.
fn assert_cuts(rt: &impl Abort, alloc: Global, title: &str, next: u64) -> u64 {
    let lines = lines_of(rt, alloc, CUTS, title);
    let case = Case {
        table: CUTS,
        title,
        lines: &lines,
    };
    let (first, rest) = worded(title);
    same(rt, title, &number(rt, first), &next);
    let last = number(rt, worded(rest).0);
    for length in next..=last {
        assert_cut(rt, alloc, &case, length);
    }
    last.saturating_add(1)
}

fn assert_cut(rt: &impl Abort, alloc: Global, case: &Case, length: u64) {
    let mut files = files(rt, alloc, case);
    let script = files.get_mut(1).expect(rt, "a script");
    script.1.truncate(length as usize);
    assert_alone(rt, alloc, case, files);
}
