//! What a screen of 8 by 4 holds after its pieces were painted.

ghost use Rattle.std.specs.Prelude.{◌≡◌, ◌≤◌, length, pos};
ghost use Rattle.nit_rect.specs.Rectangle.{IsPlace, rectangle};
ghost use Rattle.nit_stack.specs.Stack.{IsOnScreen, empty_stack};
ghost use Rattle.nit_tests.specs.Painted.{one_view};

use crate::checks::same;
use nit_paint::paint_piece;
use nit_rect::{Point, Rect};
use nit_stack::{Piece, Source, Stack, ViewRef};
use nit_word::{Glasses, Inked, Lent, Plain};
use std::alloc::Global;
use std::process::Abort;

/// The view moves its buffer by one column: its first column is black, and it shows three columns.
#[test]
fn moved_by_one_column(rt: HostRuntime) {
    #[rattlefmt::skip]
    let want = &[
        7, 7, 7, 7, 7, 32, 32, 32, 7, 0, 11, 12, 13, 32, 32, 32, 7, 0, 21, 22, 23, 32, 32, 32, 7,
        7, 7, 7, 7, 32, 32, 32,
    ];
    same(
        &rt,
        "moved by one column",
        &plain(&rt, rt.alloc(), 1, 0),
        want,
    );
}

/// The buffer moved up and to the left: its last row and its last three columns are shown.
#[test]
fn moved_to_the_left_and_up(rt: HostRuntime) {
    let alloc = rt.alloc();
    let ink = vec![in alloc; 255, 256].expect(&rt, "memory");
    let words = vec![in alloc; 255, 255, 255, 255, 256, 0, 255, 256].expect(&rt, "memory");
    let glasses = &mut [Inked::new(0, words, ink)];
    #[rattlefmt::skip]
    let want = &[
        7, 7, 7, 7, 7, 32, 32, 32, 7, 0, 255, 256, 0, 32, 32, 32, 7, 0, 0, 0, 0, 32, 32, 32, 7, 7,
        7, 7, 7, 32, 32, 32,
    ];
    same(
        &rt,
        "moved to the left and up",
        &painted(&rt, alloc, -1, -1, &mut Lent { glasses }),
        want,
    );
}

/// The buffer lies where the view does.
#[test]
fn not_moved(rt: HostRuntime) {
    #[rattlefmt::skip]
    let want = &[
        7, 7, 7, 7, 7, 32, 32, 32, 7, 11, 12, 13, 14, 32, 32, 32, 7, 21, 22, 23, 24, 32, 32, 32, 7,
        7, 7, 7, 7, 32, 32, 32,
    ];
    same(&rt, "not moved", &plain(&rt, rt.alloc(), 0, 0), want);
}

/// A pixel beside the view, its first column, and the two words of its buffer at either end.
#[test]
fn sources_of_words(rt: HostRuntime) {
    let Some(viewed) = Rect::new(1, 1, 4, 2) else {
        unreachable!()
    };
    let mut stack = Stack::new(rt.alloc(), 8, 4, 1, 1).expect(&rt, "memory");
    put_view(&mut stack, viewed, 1, 0);
    let found = [
        source(&stack, 0, 0),
        source(&stack, 1, 1),
        source(&stack, 2, 1),
        source(&stack, 4, 2),
        source(&stack, 5, 2),
    ];
    let v = ViewRef(0);
    let want = [
        Source::Bare,
        Source::Black(v),
        Source::Word(v, 0),
        Source::Word(v, 6),
        Source::Bare,
    ];
    same(&rt, "sources", &found, &want);
}

/// The picture of a buffer that is moved by so much and has another word in each of its pixels.
fn plain(rt: &impl Abort, alloc: Global, ox: i32, oy: i32) -> [u32; 32]
    requires { IsPlace ox × IsPlace oy }
{
    let words = vec![in alloc; 11, 12, 13, 14, 21, 22, 23, 24].expect(rt, "memory");
    let glasses = &mut [Plain::new(0, words)];
    painted(rt, alloc, ox, oy, &mut Lent { glasses })
}

/// The screen of 8 by 4 on which one view of 4 by 2 stands at (1, 1), after the view's rectangle
/// was painted, and what is to the right of it. The view's session has a buffer of 4 by 2.
fn painted<L: Glasses>(
    rt: &impl Abort,
    alloc: Global,
    ox: i32,
    oy: i32,
    glasses: &mut L,
) -> [u32; 32]
    requires offset { IsPlace ox × IsPlace oy }
    requires words { 8 ≤ (L.sights glasses.old 0).size }
{
    let Some(viewed) = Rect::new(1, 1, 4, 2) else {
        unreachable!()
    };
    let Some(beside) = Rect::new(5, 0, 3, 4) else {
        unreachable!()
    };
    let mut stack = Stack::new(alloc, 8, 4, 1, 1).expect(rt, "memory");
    put_view(&mut stack, viewed, ox, oy);
    let mut raw = [7; 32];
    paint_pieces(&stack, viewed, beside, ox, oy, &mut raw, glasses);
    raw
}

/// Puts the view on the screen.
fn put_view(stack: &mut Stack, viewed: Rect, ox: i32, oy: i32)
    requires empty { stack.old ≡ empty_stack 8 4 1 1 }
    requires offset { IsPlace ox × IsPlace oy }
    ensures { stack.new ≡ one_view viewed ox oy }
{
    stack.set_buffer(0, 4, 2);
    stack.push_front(ViewRef(0), 0, 1);
    stack.place(ViewRef(0), viewed);
    stack.offset(ViewRef(0), ox, oy);
}

/// Paints both pieces.
#[tactic(auto, using(crate::proofs::PaintLemmas::all_held))]
fn paint_pieces<L: Glasses>(
    stack: &Stack,
    viewed: Rect,
    beside: Rect,
    ox: i32,
    oy: i32,
    raw: &mut [u32],
    glasses: &mut L,
)
    requires stack { stack.now ≡ one_view viewed ox oy }
    requires viewed { viewed ≡ rectangle (pos 1) (pos 1) 4 2 }
    requires beside { beside ≡ rectangle (pos 5) (pos 0) 3 4 }
    requires raw { length raw.old ≡ 32 }
    requires words { 8 ≤ (L.sights glasses.old 0).size }
{
    let of_view = Piece {
        rect: viewed,
        owner: Some(ViewRef(0)),
    };
    paint_piece(stack, raw, &of_view, glasses);
    let bare = Piece {
        rect: beside,
        owner: None,
    };
    paint_piece(stack, raw, &bare, glasses);
}

/// Where the word of this pixel comes from, where the view moves its buffer by one column.
fn source(stack: &Stack, x: i32, y: i32) -> Source
    requires stack { stack.now ≡ one_view (rectangle (pos 1) (pos 1) 4 2) (pos 1) (pos 0) }
    requires pixel { IsOnScreen 8 4 (record { x = x; y = y }) }
{
    stack.source(Point { x, y })
}
