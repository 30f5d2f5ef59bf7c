//! A part of a picture.

ghost use Rattle.std.specs.Prelude.{◌≡◌, length};

use crate::checks::same;
use crate::parts::screens::rect;
use crate::words::repeated;
use nit_events::Mode;
use nit_glyph::Label;
use nit_overlay::{Look, overlay_rect};
use nit_rect::Rect;
use nit_stack::{Stack, ViewRef};
use std::alloc::Global;
use std::process::Abort;

/// The pixels outside of a rectangle stay as they were.
#[test]
fn part_of_a_picture(rt: HostRuntime) {
    let out = part_on_blue(&rt, rt.alloc(), rect(&rt, (2, 9, 3, 2)));
    #[rattlefmt::skip]
    let want = &[
        B, B, B, B, B, B, B, B, B, B, B, B,
        B, B, R, R, R, B, B, B, B, B, B, B,
        B, B, R, R, R, B, B, B, B, B, B, B,
        B, B, B, B, B, B, B, B, B, B, B, B,
    ];
    same(
        &rt,
        "rows 8 to 11",
        &out.get(96..144),
        &Some(want.as_slice()),
    );
}

const R: u32 = 0xFF0000;

const B: u32 = 0x0000FF;

/// A red screen, of which a part is put on a blue one, in mode Flat.
fn part_on_blue(rt: &impl Abort, alloc: Global, part: Rect) -> Vec<u32> {
    let labels = [Label::new(b"a").expect(rt, "a label")];
    let stack = barred_view(rt, alloc, rect(rt, (0, 0, 12, 12)));
    let look = Look {
        stack: &stack,
        labels: &labels,
        mode: Mode::Flat,
        focus: None,
        places: &[None],
    };
    let raw = repeated(rt, alloc, R, 144);
    let mut out = repeated(rt, alloc, B, 144);
    overlay_rect(&look, &raw, part, &mut out);
    out
}

/// One view that has all of a screen of 12 by 12 with a bar.
fn barred_view(rt: &impl Abort, alloc: Global, all: Rect) -> Stack
    ensures sessions { length result.sizes ≡ 1 }
    ensures screen { (result.width ≡ 12) × (result.height ≡ 12) }
{
    let mut stack = Stack::new(alloc, 12, 12, 1, 1).expect(rt, "memory");
    stack.set_bar(7);
    stack.push_front(ViewRef(0), 0, 1);
    stack.place(ViewRef(0), all);
    stack
}
