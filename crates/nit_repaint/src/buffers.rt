//! Loading again what views of one session show.

ghost use Rattle.std.specs.Prelude.{false, ◌≡◌, ◌<◌, ◌≤◌, ◌&&◌, Some, length, slice_get, true};
ghost use Rattle.nit_repaint.specs.Terms.{CanRepaint, FitsStack, IsOnScreen, IsPlace, IsRepaint};
ghost use Rattle.nit_repaint.specs.Terms.{Point, SlotView, covers, is_slot, is_wanted, once};
ghost use Rattle.nit_repaint.specs.Terms.{owner_passes, pixel, size_of, source_of_number, to_come};
ghost use Rattle.nit_repaint.specs.Terms.{wanted, wants};

use crate::painter::Painter;
use crate::part::shown_part;
use nit_damage::Cutter;
use nit_rect::Rect;
use nit_stack::{Stack, View};
use nit_word::Glasses;

/// The rectangle at which a view shows a part of its session's buffer, or its own where no part is
/// given.
fn shown_rect(stack: &Stack, view: &View, part: &Option<Rect>) -> Rect
    requires session { view.now.sid < length stack.now.sizes }
    requires offset { IsPlace view.now.ox × IsPlace view.now.oy }
    ensures same { (p : Point) → IsOnScreen stack.now.width stack.now.height p
        → covers view.now.rect p ≡ true
        → covers result p ≡ wants part.now (size_of stack.now.sizes view.now.sid) view.now p }
{
    match part {
        Some(part) => {
            let size = stack.buffer(view.sid);
            let (width, height) = stack.size();
            shown_part(view, part, size, width, height)
        }
        None => view.rect,
    }
}

/// Begins with what is wanted of the view at a place, where it is one of the session. Gives whether
/// it is: of another session's view nothing is wanted.
pub(crate) fn begin_seat(
    cutter: &mut Cutter,
    stack: &Stack,
    i: u32,
    of: u32,
    part: &Option<Rect>,
) -> bool
    requires place { i < length stack.now.views }
    requires room { length stack.now.views ≤ cutter.old.room }
    ensures room { cutter.new.room ≡ cutter.old.room }
    ensures fits { result ≡ true → FitsStack cutter.new stack.now }
    ensures to_come { result ≡ true → (s : SlotView) → slice_get stack.now.views i ≡ Some s
        → (p : Point) → IsOnScreen stack.now.width stack.now.height p
        → to_come cutter.new stack.now p
        ≡ once (owner_passes (is_slot s.slot) stack.now p && is_wanted of part.now stack.now p s) }
    ensures none { result ≡ false → (s : SlotView) → slice_get stack.now.views i ≡ Some s
        → (p : Point)
        → (owner_passes (is_slot s.slot) stack.now p && is_wanted of part.now stack.now p s)
        ≡ false }
{
    let v = stack.at(i);
    if stack.session(v) != of {
        return false;
    }
    let view = stack.view(v);
    let rect = shown_rect(stack, &view, part);
    cutter.begin_owned(stack, v, rect);
    true
}

impl Painter {
    /// Loads again exactly the pixels that views of the session `of` own and that show `part` of
    /// its buffer, or all that they own where no part is given.
    pub fn paint_session<L: Glasses>(
        &mut self,
        stack: &Stack,
        of: u32,
        part: &Option<Rect>,
        glasses: &mut L,
    )
        requires { CanRepaint stack.now self.old (L.sights glasses.old) }
        ensures painted { IsRepaint (source_of_number stack.now)
            (λ k. wanted of part.now stack.now (pixel stack.now.width k))
            (L.sights glasses.old) (L.sights glasses.new) self.old self.new }
        ensures rest { L.rest glasses.new ≡ L.rest glasses.old }
    {
        let views = stack.len();
        'views: for i in 0..views {
            let is_of_session = begin_seat(&mut self.cutter, stack, i, of, part);
            if !is_of_session {
                continue;
            }
            self.paint_to_come(stack, glasses);
        }
    }
}
