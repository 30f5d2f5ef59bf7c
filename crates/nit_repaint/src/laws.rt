//! What each change of a stack changes of its views, and what is wanted of a session's views.

ghost use Rattle.std.specs.Prelude.{◌≡◌, ℕ, ℤ, None, Some};
ghost use Rattle.nit_repaint.specs.Terms.{IsStack, IsViewChange, Point, Rectangle, SlotView};
ghost use Rattle.nit_repaint.specs.Terms.{StackModel, changed, is_of_session, is_slot, is_word_in};
ghost use Rattle.nit_repaint.specs.Terms.{moved, moved_above, on_view, owner_passes, place_of};
ghost use Rattle.nit_repaint.specs.Terms.{put_own_back, put_own_front, size_of, slot_view_in};
ghost use Rattle.nit_repaint.specs.Terms.{slot_view_layer, source_in, wanted, with_offset};
ghost use Rattle.nit_repaint.specs.Terms.{with_rect, without};

/// Each of these changes one view alone, which keeps its place or its rectangle.
pub fn one_view_changes()
    ensures placed { (s : StackModel) (k : ℕ) (seat : SlotView) (r : Rectangle) → IsStack s
        → slot_view_in k s.views ≡ Some seat
        → IsViewChange k (place_of k s.views) seat.view.rect s
        (record s { views = changed (is_slot k) (on_view (with_rect r)) s.views }) }
    ensures offset { (s : StackModel) (k : ℕ) (seat : SlotView) (ox oy : ℤ) → IsStack s
        → slot_view_in k s.views ≡ Some seat
        → IsViewChange k (place_of k s.views) seat.view.rect s
        (record s { views = changed (is_slot k) (on_view (with_offset ox oy)) s.views }) }
    ensures front { (s : StackModel) (k : ℕ) (seat : SlotView) → IsStack s
        → slot_view_in k s.views ≡ Some seat
        → IsViewChange k (place_of k s.views) seat.view.rect s
        (record s {
          views = moved (is_slot k) (put_own_front (slot_view_layer s.layers)) s.views;
        }) }
    ensures back { (s : StackModel) (k : ℕ) (seat : SlotView) → IsStack s
        → slot_view_in k s.views ≡ Some seat
        → IsViewChange k (place_of k s.views) seat.view.rect s
        (record s { views = moved (is_slot k) (put_own_back (slot_view_layer s.layers)) s.views }) }
    ensures above { (s : StackModel) (k n : ℕ) (seat : SlotView) → IsStack s
        → slot_view_in k s.views ≡ Some seat
        → IsViewChange k (place_of k s.views) seat.view.rect s
        (record s { views = moved_above k n s.views }) }
    ensures gone { (s : StackModel) (k : ℕ) (seat : SlotView) → IsStack s
        → slot_view_in k s.views ≡ Some seat
        → IsViewChange k (place_of k s.views) seat.view.rect s
        (record s { views = without (is_slot k) s.views }) }
{}

/// What is wanted of a session's views is what they own, or what of it shows a part of its buffer.
pub fn wanted_pixels()
    ensures all { (sid : ℕ) (s : StackModel) (p : Point)
        → wanted sid None s p ≡ owner_passes (is_of_session sid) s p }
    ensures part { (sid : ℕ) (part : Rectangle) (s : StackModel) (p : Point)
        → wanted sid (Some part) s p
        ≡ is_word_in sid (size_of s.sizes sid).w part (source_in s p) }
{}
