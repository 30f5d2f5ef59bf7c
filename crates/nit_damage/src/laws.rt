//! What the sets of pixels have to do with each other.

ghost use Rattle.std.specs.Prelude.{◌≡◌, ℕ, Some, false};
ghost use Rattle.nit_damage.specs.Terms.{NoPair, Point, SlotView, StackModel, has_slot, is_behind};
ghost use Rattle.nit_damage.specs.Terms.{is_slot, option_map_or, owner_in, place_of, same_slot};
ghost use Rattle.nit_damage.specs.Terms.{slot_view_in};

/// A view owns a pixel exactly where it covers it, the pixel is below the bar, and no view in
/// front of it covers it. A view that does not stand owns none.
pub fn owned_pixels()
    ensures owned { (s : StackModel) (k : ℕ) (x : SlotView) (p : Point)
        → NoPair same_slot s.views → slot_view_in k s.views ≡ Some x
        → option_map_or (is_slot k) (owner_in (λ a. a.view) s.bar s.views p) false
        ≡ is_behind (place_of k s.views) s x.view.rect p }
    ensures none { (s : StackModel) (k : ℕ) (p : Point) → has_slot k s.views ≡ false
        → option_map_or (is_slot k) (owner_in (λ a. a.view) s.bar s.views p) false ≡ false }
{}
