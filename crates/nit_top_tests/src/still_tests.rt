//! The command `still`: pictures of scripts that are taken.

use crate::cases::rules::titles;
use crate::cases::table::{Case, lines_of};
use crate::cases::{Came, alone, assert_came, assert_cases, assert_end, files, words};
use crate::checks::must;
use nit_store::{NeverFails, have_different_names};
use nit_top::Done;
use std::alloc::Global;
use std::process::Abort;

#[test]
fn pictures(rt: HostRuntime) {
    assert_cases(&rt, rt.alloc(), CASES);
}

#[test]
fn stores_that_never_fail(rt: HostRuntime) {
    assert_unfailing(&rt, rt.alloc(), CASES, RED_RECTANGLE);
    for title in titles(&rt, rt.alloc(), UNFAILING).iter() {
        assert_unfailing(&rt, rt.alloc(), UNFAILING, title);
    }
}

/// A top call that always answers 7 is refused by the case of the red rectangle.
#[test]
#[should_panic(expected = "left: 7")]
fn giving_up_is_no_red_rectangle(rt: HostRuntime) {
    give_up(&rt, rt.alloc());
}

/// The title of the case that three tests take.
const RED_RECTANGLE: &str = "the red rectangle";

const CASES: &str = r#"

base still
words still, 8, 4, a.nit
ends 0 =nitpicker: clients 1 entries 4 frames 1\n
asked =a.nit final.ppm
there =a.nit final.ppm

case the red rectangle
with still
words still, 8, 4, first.nit
file first.nit FIRST
asked =first.nit final.ppm
there =first.nit final.ppm
holds first.nit FIRST
is final.ppm long 107
picture final.ppm 8 4 RED
whole RED_ENTRIES

case views that lie off the screen show nothing
with still
file a.nit FAR_VIEWS
ends 0 =nitpicker: clients 1 entries 129 frames 1\n
picture final.ppm 8 4 BARE

case an empty script
with still
words still, 8, 4, empty.nit
file empty.nit =
ends 0 =nitpicker: clients 1 entries 1 frames 1\n
asked =empty.nit final.ppm
there =empty.nit final.ppm
picture final.ppm 8 4 BARE
whole =final\n

case a check pattern whose view begins left of the screen and above it shows (2, 1) and (3, 1)
with still
file a.nit =buffer 4 2\ncheck 0 0 4 2 FF0000 00FF00\nview\nplace 1 -2 -1 4 2\n
picture final.ppm 8 4 =GR......\n........\n........\n........

case a buffer is moved by one column: the first column of the view is black
with still
file a.nit =buffer 4 2\nfill 0 0 4 2 FF0000\nview\nplace 1 1 1 4 2\noffset 1 1 0\n
ends 0 =nitpicker: clients 1 entries 5 frames 1\n
picture final.ppm 8 4 =........\n.KRRR...\n.KRRR...\n........

case a view far to the left shows the end of an offset buffer
with still
file a.nit =buffer 1 1\nfill 0 0 1 1 FF0000\nview\n
more a.nit =place 1 -32766 -32766 32767 32767\noffset 1 32766 32766\n
ends 0 =nitpicker: clients 1 entries 5 frames 1\n
picture final.ppm 8 4 =R.......\n........\n........\n........

case a buffer that is not painted is black, and so is what reaches past it
with still
file a.nit =buffer 2 1\nview\nplace 1 0 0 3 2\nfill 1 0 9 9 FF0000\n
picture final.ppm 8 4 =KRK.....\nKKK.....\n........\n........

case the last place holds, and strokes behind it are seen
with still
file a.nit =view\nplace 1 0 0 8 4\nbuffer 8 4\nplace 1 7 3 2 2\nfill 0 0 1 1 00FF00\n
ends 0 =nitpicker: clients 1 entries 5 frames 1\n
picture final.ppm 8 4 =........\n........\n........\n.......G

case a stroke before the buffer does nothing, and a view without a buffer is black
with still
file a.nit =fill 0 0 8 4 FF0000\nview\nplace 1 0 0 1 1\n
ends 0 =nitpicker: clients 1 entries 3 frames 1\n
picture final.ppm 8 4 =K.......\n........\n........\n........

case a view that is not placed covers nothing
with still
file a.nit =buffer 1 1\nfill 0 0 1 1 FF0000\nview\n
ends 0 =nitpicker: clients 1 entries 3 frames 1\n
picture final.ppm 8 4 BARE

case a check counts from its own corner
with still
file a.nit =buffer 4 4\ncheck 1 1 3 3 FF0000 00FF00\nview\nplace 1 0 0 4 4\n
picture final.ppm 8 4 =KKKK....\nKRGR....\nKGRG....\nKRGR....

text RED
| ........
| .RRRR...
| .RRRR...
| ........

text FAR_VIEWS
64 =view\n
32 =place {1+1} 32767 32767 32767 32767\n
32 =place {33+1} -32768 -32768 32767 32767\n

"#;

const UNFAILING: &str = r#"

case a name that is not there
words still, 8, 4, gone.nit
ends 0 =nitpicker: clients 1 entries 1 frames 1\n
asked =gone.nit final.ppm
there =final.ppm
picture final.ppm 8 4 BARE
whole =final\n

"#;

/// Over a store that never fails the case of this title comes out so.
fn assert_unfailing(rt: &impl Abort, alloc: Global, table: &str, title: &str) {
    let lines = lines_of(rt, alloc, table, title);
    let case = Case {
        table,
        title,
        lines: &lines,
    };
    let files = files(rt, alloc, &case);
    must(rt, "names", have_different_names(&files));
    assert_over(rt, alloc, &case, NeverFails::new(alloc, files));
}

/// Over this store the case comes out so.
fn assert_over(rt: &impl Abort, alloc: Global, case: &Case, store: NeverFails) {
    let mut store = store;
    let done = alone(alloc, &words(rt, alloc, case), &mut store);
    let came = Came {
        done: &done.expect(rt, "a run without threads"),
        said: store.said(),
        files: store.files(),
    };
    assert_came(rt, alloc, case, &came);
}

/// A top call that always answers 7.
fn give_up(rt: &impl Abort, alloc: Global) {
    let lines = lines_of(rt, alloc, CASES, RED_RECTANGLE);
    let case = Case {
        table: CASES,
        title: RED_RECTANGLE,
        lines: &lines,
    };
    let done = Done {
        status: 7,
        journal: Vec::new(alloc),
    };
    let came = Came {
        done: &done,
        said: b"",
        files: &[],
    };
    assert_end(rt, alloc, &case, &came);
}
