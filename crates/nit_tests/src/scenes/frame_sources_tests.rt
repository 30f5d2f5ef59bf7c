//! The frame that a scene keeps along a worked run, against the one that is made anew: where the
//! word of each pixel comes from gives its raw word, and the frame is made from all of these.

ghost use Rattle.std.specs.Prelude.{◌≡◌, ◌<◌, IsTrue, All};
ghost use Rattle.nit_word.specs.Inks.{IsWord};
ghost use Rattle.nit_stack.specs.Stack.{IsOnScreen};
ghost use Rattle.nit_tests.specs.Painted.{two_views};

use crate::checks::{must, same};
use crate::scenes::stage::{Counting, Stage, set_up};
use nit_events::Mode;
use nit_glyph::Label;
use nit_overlay::{Look, frame_into};
use nit_place::place_label;
use nit_rect::{Point, Rect};
use nit_stack::{Source, Stack, ViewRef};
use std::alloc::Global;
use std::cell::Cell;
use std::process::Abort;

#[test]
fn worked_run_in_xray_mode(rt: HostRuntime) {
    let alloc = rt.alloc();
    let loads = [Cell::new(0), Cell::new(0)];
    let mut stage = set_up(&rt, alloc, LABELS, &loads);
    for step in STEPS.lines() {
        stage.serve(&rt, step.as_bytes().get(4..).unwrap_or(b""));
        assert_anew(&rt, alloc, &stage, step);
    }
    same(
        &rt,
        "row 1",
        &stage.frame().get(12..24),
        &Some(LAST_ROW.as_slice()),
    );
}

/// The steps of the run. In front of each stand a letter for each view that has a rectangle after
/// it, and one for the mode.
const STEPS: &str = "\
--F 0 buffer 12 7
--F 0 view
a-F 0 place 1 0 0 12 7
a-F 1 buffer 4 7
a-F 1 view
abF 1 place 1 0 0 3 7
abX press 70
";

/// Two clients on a screen of 12 by 7.
const LABELS: &str = "[screen]\nwidth = 12\nheight = 7\n\n[input]\nscript = \"i\"\n\n\
                      [[client]]\nlabel = \"ab\"\ndonation = 65536\nscript = \"a\"\n\n\
                      [[client]]\nlabel = \"b\"\ndonation = 65536\nscript = \"b\"\n";

/// Row 1 of the last frame: the ring and the dimmed words of the front view, and the label of the
/// other one, which fills the rest.
const LAST_ROW: [u32; 12] = [
    0x808080, 0x00007F, 0x808080, 0, 0, 0xFFFFFF, 0, 0, 0xFFFFFF, 0xFFFFFF, 0, 0,
];

/// The stage keeps the frame that is made anew, where the views of these letters have a rectangle.
fn assert_anew(rt: &impl Abort, alloc: Global, stage: &Stage<Counting>, step: &str) {
    let [back, front, mode, b' ', ..] = step.as_bytes() else {
        panic!(rt; "no letters");
    };
    let back = rect(rt, *back == b'a', 12);
    let front = rect(rt, *front == b'b', 3);
    let mode = if *mode == b'X' {
        Mode::Xray
    } else {
        Mode::Flat
    };
    let anew = made_anew(rt, alloc, back, front, mode);
    same(rt, step, &stage.frame(), &anew.as_slice());
}

const PIXELS: usize = 84;

const BACK: ViewRef = ViewRef(0);

const FRONT: ViewRef = ViewRef(1);

/// The frame of the screen on which the views have these rectangles. Of their labels the first is
/// `ab`, whose picture has 9 columns, and the second `b`, whose picture has 5.
fn made_anew(rt: &impl Abort, alloc: Global, back: Rect, front: Rect, mode: Mode) -> [u32; PIXELS] {
    let stack = screen(rt, alloc, back, front);
    let raw = raw_words(&stack);
    must(rt, "words", are_words(&raw));
    let labels = [
        Label::new(b"ab").expect(rt, "a label"),
        Label::new(b"b").expect(rt, "a label"),
    ];
    let places = [
        place_label(&stack, BACK, 9, 7),
        place_label(&stack, FRONT, 5, 7),
    ];
    let look = Look {
        stack: &stack,
        labels: &labels,
        mode,
        focus: None,
        places: &places,
    };
    let mut frame = [0; PIXELS];
    frame_into(&look, &raw, &mut frame);
    frame
}

/// A screen with both views, each of which has a buffer and this rectangle.
fn screen(rt: &impl Abort, alloc: Global, back: Rect, front: Rect) -> Stack
    ensures { result ≡ two_views back front }
{
    let mut stack = Stack::new(alloc, 12, 7, 2, 2).expect(rt, "memory");
    stack.set_buffer(0, 12, 7);
    stack.set_buffer(1, 4, 7);
    stack.push_front(BACK, 0, 1);
    stack.push_front(FRONT, 1, 1);
    stack.place(BACK, back);
    stack.place(FRONT, front);
    stack
}

/// The rectangle of a view of so many columns, or of none.
fn rect(rt: &impl Abort, is_placed: bool, columns: u32) -> Rect {
    let rect = if is_placed {
        Rect::new(0, 0, columns, 7)
    } else {
        Rect::new(0, 0, 0, 0)
    };
    rect.expect(rt, "in range")
}

/// The word of a buffer that is all red, or all blue.
fn word(source: Source) -> u32 {
    match source {
        Source::Bare => 0x000020,
        Source::Black(_) => 0x000000,
        Source::Word(BACK, _) => 0xFF0000,
        Source::Word(_, _) => 0x0000FF,
    }
}

/// The pixel of this number, row by row from the top.
fn pixel(k: usize) -> Point
    requires { k < PIXELS }
    ensures { IsOnScreen 12 7 result }
{
    Point {
        x: (k % 12) as i32,
        y: (k / 12) as i32,
    }
}

/// The raw word of each pixel.
fn raw_words(stack: &Stack) -> [u32; PIXELS]
    requires width { stack.now.width ≡ 12 }
    requires height { stack.now.height ≡ 7 }
{
    let mut raw = [0; PIXELS];
    for k in 0..PIXELS {
        raw[k] = word(stack.source(pixel(k)));
    }
    raw
}

fn are_words(words: &[u32]) -> bool
    ensures { IsTrue result → All IsWord words.now }
{
    words.iter().all(|word| *word < 0x100_0000)
}
