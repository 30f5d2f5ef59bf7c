//! Loading again what one view owned before a change of it, or owns after it.

ghost use Rattle.std.specs.Prelude.{◌≡◌, ◌≤◌, length};
ghost use Rattle.nit_repaint.specs.Terms.{CanRepaint, FitsStack, IsOnScreen, IsViewChange};
ghost use Rattle.nit_repaint.specs.Terms.{KeepsPainter, Point, Repainted, StackModel, once, pixel};
ghost use Rattle.nit_repaint.specs.Terms.{slot_owns_either, source_of_number, to_come};

use crate::painter::Painter;
use nit_damage::Cutter;
use nit_rect::Rect;
use nit_stack::{Stack, ViewRef};
use nit_word::Glasses;

/// A view as it stood in the stack before a change.
#[derive(Clone, Copy, Debug, PartialEq, Eq)]
pub struct ViewBefore {
    pub view: ViewRef,
    /// Its place, counted from the front.
    pub place: u32,
    pub rect: Rect,
}

/// Begins with what a view owned before a change or owns after it. It may be gone now.
fn begin_changed(cutter: &mut Cutter, stack: &Stack, was: &ViewBefore)
    requires room { length stack.now.views ≤ cutter.old.room }
    ensures room { cutter.new.room ≡ cutter.old.room }
    ensures fits { FitsStack cutter.new stack.now }
    ensures to_come { (before : StackModel)
        → IsViewChange was.now.view.0 was.now.place was.now.rect before stack.now
        → (p : Point) → IsOnScreen stack.now.width stack.now.height p
        → to_come cutter.new stack.now p
        ≡ once (slot_owns_either was.now.view.0 before stack.now p) }
{
    let now = stack.place_of(was.view);
    if stack.len() <= now {
        cutter.begin_behind(stack, was.rect, was.place);
        return;
    }
    if was.place < now {
        cutter.begin_behind(stack, was.rect, was.place);
        return;
    }
    cutter.begin_moved(stack, was.view, was.rect);
}

impl Painter {
    /// Loads again exactly what a view owned before a change, where it stood as `was` says, or owns
    /// after it. It may be gone now. All other views stand as they stood, and it has kept its place
    /// or its rectangle.
    pub fn paint_changed<L: Glasses>(&mut self, stack: &Stack, was: &ViewBefore, glasses: &mut L)
        requires { CanRepaint stack.now self.old (L.sights glasses.old) }
        ensures painted { (before : StackModel)
            → IsViewChange was.now.view.0 was.now.place was.now.rect before stack.now
            → Repainted (source_of_number stack.now)
            (λ k. slot_owns_either was.now.view.0 before stack.now (pixel stack.now.width k))
            (length self.old.raw.items) (L.sights glasses.old) (L.sights glasses.new)
            self.old.raw.items self.new.raw.items }
        ensures kept { KeepsPainter self.old self.new }
        ensures rest { L.rest glasses.new ≡ L.rest glasses.old }
    {
        begin_changed(&mut self.cutter, stack, was);
        self.paint_to_come(stack, glasses);
    }
}
