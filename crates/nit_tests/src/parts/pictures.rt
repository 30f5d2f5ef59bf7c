//! Pictures of the pieces that a cutter hands out.

ghost use Rattle.std.specs.Prelude.{◌≡◌, length};
ghost use Rattle.nit_damage.specs.Cutter.{FitsStack};

use nit_damage::{Cutter, Piece};
use nit_rect::Point;
use nit_stack::{Stack, ViewRef};
use std::process::Abort;

/// The screen's columns.
pub const WIDTH: usize = 12;
/// The pixels of the screen.
pub const PIXELS: usize = 144;

/// A letter for each pixel, row by row: `_` where it does not come, `.` where it comes without an
/// owner, and otherwise the number of its owner's slot. No pixel comes twice.
pub fn picture(rt: &impl Abort, cutter: &mut Cutter, stack: &Stack) -> [u8; PIXELS]
    requires { FitsStack cutter.old stack.now }
    ensures { FitsStack cutter.new stack.now }
{
    let mut letters = [b'_'; PIXELS];
    'pieces: while let Some(piece) = cutter.next(stack) {
        draw(rt, &mut letters, piece);
    }
    letters
}

fn draw(rt: &impl Abort, letters: &mut [u8], piece: Piece)
    requires { length letters.old ≡ PIXELS }
{
    for k in 0..PIXELS {
        let at = Point {
            x: (k % WIDTH) as i32,
            y: (k / WIDTH) as i32,
        };
        if piece.rect.covers(at) {
            assert_eq!(rt; letters[k], b'_');
            letters[k] = letter(piece.owner);
        }
    }
}

fn letter(owner: Option<ViewRef>) -> u8 {
    match owner {
        None => b'.',
        Some(ViewRef(0)) => b'0',
        Some(ViewRef(1)) => b'1',
        Some(ViewRef(2)) => b'2',
        Some(_) => b'?',
    }
}
