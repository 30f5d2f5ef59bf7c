//! Pieces over three views that overlap. The pictures were drawn by hand.

ghost use Rattle.std.specs.Prelude.{◌≡◌, length};
ghost use Rattle.nit_damage.specs.Cutter.{FitsStack};

use crate::checks::{must, same};
use crate::parts::pictures::picture;
use crate::parts::screens::{Numbers, rect, three_views};
use nit_damage::Cutter;
use nit_stack::Stack;
use std::alloc::Global;
use std::process::Abort;

#[test]
fn pieces(rt: HostRuntime) {
    for case in CASES {
        assert_pieces(&rt, rt.alloc(), case);
    }
}

/// A name, the rows of the bar, what the cutter begins with, and the picture.
type Case = (&'static str, u32, Pixels, &'static str);

const CASES: &[Case] = &[
    ("all", 7, All, ALL),
    ("all without a bar", 0, All, ALL_WITHOUT_A_BAR),
    ("owned", 7, Owned(2, (2, 9, 3, 3)), OWNED),
    ("moved", 7, Moved(1, (2, 8, 4, 3)), MOVED),
    ("gone", 7, Gone((4, 6, 6, 6), 1), GONE),
    ("bare", 7, Bare((4, 6, 6, 6)), BARE),
];

/// The pixels that a cutter begins with.
#[derive(Clone, Copy)]
enum Pixels {
    All,
    /// What the view at this place owns of a rectangle.
    Owned(u32, Numbers),
    /// The view at this place, which was in a rectangle before.
    Moved(u32, Numbers),
    /// What of a rectangle no view in front of this place covers.
    Gone(Numbers, u32),
    /// What of a rectangle no view covers.
    Bare(Numbers),
}

use Pixels::{All, Bare, Gone, Moved, Owned};

/// View 0 lies behind, view 1 before it and under the bar, view 2 in front and beyond the screen's
/// edges. The screen is 12 by 12.
const VIEWS: [Numbers; 3] = [(0, 8, 8, 3), (4, 6, 4, 4), (6, 9, 10, 9)];

/// The bar has no owner.
const ALL: &str = "............\
        ............\
        ............\
        ............\
        ............\
        ............\
        ............\
        ....1111....\
        00001111....\
        000011222222\
        000000222222\
        ......222222";

/// View 1 has one more row.
const ALL_WITHOUT_A_BAR: &str = "............\
        ............\
        ............\
        ............\
        ............\
        ............\
        ....1111....\
        ....1111....\
        00001111....\
        000011222222\
        000000222222\
        ......222222";

/// Of columns 2 to 4 and rows 9 to 11, what view 0 owns.
const OWNED: &str = "____________\
        ____________\
        ____________\
        ____________\
        ____________\
        ____________\
        ____________\
        ____________\
        ____________\
        __00________\
        __000_______\
        ____________";

/// View 1, and where it was: columns 2 to 5, rows 8 to 10.
const MOVED: &str = "____________\
        ____________\
        ____________\
        ____________\
        ____________\
        ____________\
        ____________\
        ____1111____\
        __001111____\
        __0011______\
        __0000______\
        ____________";

/// Of columns 4 to 9 and rows 6 to 11, what view 2 does not cover.
const GONE: &str = "____________\
        ____________\
        ____________\
        ____________\
        ____________\
        ____________\
        ____________\
        ____1111..__\
        ____1111..__\
        ____11______\
        ____00______\
        ____..______";

/// Of the same, what no view covers.
const BARE: &str = "____________\
        ____________\
        ____________\
        ____________\
        ____________\
        ____________\
        ____________\
        ________..__\
        ________..__\
        ____________\
        ____________\
        ____..______";

/// What was to come before a begin is dropped, and nothing comes behind the picture.
fn assert_pieces(rt: &impl Abort, alloc: Global, case: &Case) {
    let (name, bar, how, want) = case;
    let stack = three_views(rt, alloc, [12, 12, *bar], VIEWS);
    let mut cutter = Cutter::with_room(alloc, 3).expect(rt, "memory");
    must(rt, name, stack.len() == 3);
    cutter.begin_all(&stack);
    must(rt, name, cutter.next(&stack).is_some());
    begin(rt, &mut cutter, &stack, *how);
    let found = picture(rt, &mut cutter, &stack);
    same(rt, name, &found.as_slice(), &want.as_bytes());
    must(rt, name, cutter.next(&stack).is_none());
}

/// Begins with these pixels of a stack of three views.
fn begin(rt: &impl Abort, cutter: &mut Cutter, stack: &Stack, begin: Pixels)
    requires three { length stack.now.views ≡ 3 }
    requires room { cutter.old.room ≡ 3 }
    ensures { FitsStack cutter.new stack.now }
{
    match begin {
        All => cutter.begin_all(stack),
        Owned(place, part) => {
            must(rt, "a place", place < 3);
            cutter.begin_owned(stack, stack.at(place), rect(rt, part));
        }
        Moved(place, old) => {
            must(rt, "a place", place < 3);
            cutter.begin_moved(stack, stack.at(place), rect(rt, old));
        }
        Gone(part, place) => {
            must(rt, "a place", place < 3);
            cutter.begin_gone(stack, rect(rt, part), Some(stack.at(place)));
        }
        Bare(part) => cutter.begin_gone(stack, rect(rt, part), None),
    }
}
