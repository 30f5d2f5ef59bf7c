//! What ties changes of views by their slots to changes of the same views by session and handle.

ghost use Rattle.std.specs.Prelude.{◌≡◌, ℕ, ◌+◌, ◌==◌, ◌&&◌, ◌||◌, List, ◌∷◌, None, Some, drop};
ghost use Rattle.std.specs.Prelude.{false, if◌then◌else◌, map, not, option_map, slice_get, true};
ghost use Rattle.nit_stack.specs.Terms.{IsNamedBy, MeanSame, NoPair, Point, SlotView, View};
ghost use Rattle.nit_stack.specs.Terms.{ViewRef, changed, has_slot, is_named, is_of_session};
ghost use Rattle.nit_stack.specs.Terms.{is_session, is_slot, is_some, is_view, layer_of_slot_view};
ghost use Rattle.nit_stack.specs.Terms.{list_any, moved, moved_above, name_in, name_of, on_view};
ghost use Rattle.nit_stack.specs.Terms.{option_map_or, owner, place_of, put_back, put_front};
ghost use Rattle.nit_stack.specs.Terms.{put_own_back, put_own_front, same_slot, seat_owner};
ghost use Rattle.nit_stack.specs.Terms.{slot_view_in, view_above, view_layer, view_ref, views_of};
ghost use Rattle.nit_stack.specs.Terms.{without};

/// A change of the view in a slot is the same change of the view with that session and handle,
/// among the views without their slots.
pub fn slots_and_names()
    ensures removed { (k sid handle : ℕ) (seats : List SlotView) → IsNamedBy k sid handle seats
        → views_of (without (is_slot k) seats) ≡ without (is_view sid handle) (views_of seats) }
    ensures changed { (k sid handle : ℕ) (change : View → View) (seats : List SlotView)
        → IsNamedBy k sid handle seats
        → views_of (changed (is_slot k) (on_view change) seats)
        ≡ changed (is_view sid handle) change (views_of seats) }
    ensures moved { (k sid handle : ℕ) (put : SlotView → List SlotView → List SlotView)
        (put_view : View → List View → List View) (seats : List SlotView)
        → IsNamedBy k sid handle seats
        → ((s : SlotView) (xs : List SlotView)
        → views_of (put s xs) ≡ put_view s.view (views_of xs))
        → views_of (moved (is_slot k) put seats)
        ≡ moved (is_view sid handle) put_view (views_of seats) }
    ensures front { (k sid handle : ℕ) (layer : ℕ → ℕ) (seats : List SlotView)
        → IsNamedBy k sid handle seats
        → views_of (moved (is_slot k) (put_own_front (layer_of_slot_view layer)) seats)
        ≡ moved (is_view sid handle) (put_front (view_layer layer) (layer sid)) (views_of seats) }
    ensures back { (k sid handle : ℕ) (layer : ℕ → ℕ) (seats : List SlotView)
        → IsNamedBy k sid handle seats
        → views_of (moved (is_slot k) (put_own_back (layer_of_slot_view layer)) seats)
        ≡ moved (is_view sid handle) (put_back (view_layer layer) (layer sid)) (views_of seats) }
    ensures above { (k n sid handle next : ℕ) (seats : List SlotView) → IsNamedBy k sid handle seats
        → IsNamedBy n sid next seats
        → views_of (moved_above k n seats) ≡ view_above sid handle next (views_of seats) }
{}

/// Views with slots and the same views without them: a new view, the views of a session or of a
/// name, the owner of a pixel.
pub fn seats_and_views()
    ensures put_front { (layer : ℕ → ℕ) (l : ℕ) (s : SlotView) (seats : List SlotView)
        → views_of (put_front (layer_of_slot_view layer) l s seats)
        ≡ put_front (view_layer layer) l s.view (views_of seats) }
    ensures put_back { (layer : ℕ → ℕ) (l : ℕ) (s : SlotView) (seats : List SlotView)
        → views_of (put_back (layer_of_slot_view layer) l s seats)
        ≡ put_back (view_layer layer) l s.view (views_of seats) }
    ensures closed { (sid : ℕ) (seats : List SlotView)
        → views_of (without (is_of_session sid) seats) ≡ without (is_session sid) (views_of seats) }
    ensures session { (sid : ℕ) (seats : List SlotView)
        → list_any (is_session sid) (views_of seats) ≡ list_any (is_of_session sid) seats }
    ensures named { (sid handle : ℕ) (seats : List SlotView)
        → list_any (is_view sid handle) (views_of seats) ≡ list_any (is_named sid handle) seats }
    ensures owner { (rows : ℕ) (seats : List SlotView) (p : Point)
        → owner rows (views_of seats) p ≡ option_map (λ s. s.view) (seat_owner rows seats p) }
{}

/// Which slots have a view after each change, and that all views of a session are gone when each
/// was taken out.
pub fn slots_after()
    ensures push_front { (layer : SlotView → ℕ) (l : ℕ) (s : SlotView) (j : ℕ)
        → (seats : List SlotView)
        → has_slot j (put_front layer l s seats) ≡ (is_slot j s || has_slot j seats) }
    ensures remove { (j k : ℕ) (seats : List SlotView)
        → has_slot j (without (is_slot k) seats) ≡ (not (j == k) && has_slot j seats) }
    ensures changed { (j k : ℕ) (change : View → View) (seats : List SlotView)
        → has_slot j (changed (is_slot k) (on_view change) seats) ≡ has_slot j seats }
    ensures front { (j k : ℕ) (layer : SlotView → ℕ) (seats : List SlotView)
        → has_slot k seats ≡ true
        → has_slot j (moved (is_slot k) (put_own_front layer) seats) ≡ has_slot j seats }
    ensures back { (j k : ℕ) (layer : SlotView → ℕ) (seats : List SlotView)
        → has_slot k seats ≡ true
        → has_slot j (moved (is_slot k) (put_own_back layer) seats) ≡ has_slot j seats }
    ensures above { (j k n : ℕ) (seats : List SlotView) → has_slot k seats ≡ true
        → has_slot j (moved_above k n seats) ≡ has_slot j seats }

    ensures one_less { (k sid handle : ℕ) (seats : List SlotView) → IsNamedBy k sid handle seats
        → without (is_of_session sid) (without (is_slot k) seats)
        ≡ without (is_of_session sid) seats }
    ensures none_left { (sid : ℕ) (seats : List SlotView)
        → list_any (is_of_session sid) seats ≡ false → without (is_of_session sid) seats ≡ seats }
{}

/// The owner of a pixel is the view in its slot, and is told by its slot as by its session and
/// handle.
pub fn owners_by_slot()
    ensures seated { (rows : ℕ) (seats : List SlotView) (p : Point) (v : ViewRef) (view : View)
        → NoPair same_slot seats
        → Some v ≡ option_map view_ref (seat_owner rows seats p)
        → slot_view_in v.0 seats ≡ Some (record { slot = v.0; view = view })
        → seat_owner rows seats p ≡ Some (record { slot = v.0; view = view }) }
    ensures mean_same { (k sid handle : ℕ) (seats : List SlotView) → IsNamedBy k sid handle seats
        → MeanSame k sid handle seats }
    ensures named { (k sid handle rows : ℕ) (seats : List SlotView) (p : Point)
        → MeanSame k sid handle seats
        → option_map_or (is_slot k) (seat_owner rows seats p) false
        ≡ option_map_or (is_view sid handle) (owner rows (views_of seats) p) false }
    ensures session { (sid rows : ℕ) (seats : List SlotView) (p : Point)
        → option_map_or (is_of_session sid) (seat_owner rows seats p) false
        ≡ option_map_or (is_session sid) (owner rows (views_of seats) p) false }
{}

/// The session and handle of the view in each slot after each change, and that a view of a session
/// and handle is in a slot of that name.
pub fn names_after()
    ensures push_front { (layer : SlotView → ℕ) (l : ℕ) (s : SlotView) (j : ℕ)
        → (seats : List SlotView)
        → has_slot s.slot seats ≡ false
        → name_in j (put_front layer l s seats)
        ≡ (if s.slot == j then Some (name_of s) else name_in j seats) }
    ensures remove { (j k : ℕ) (seats : List SlotView)
        → name_in j (without (is_slot k) seats) ≡ (if j == k then None else name_in j seats) }
    ensures changed { (j k : ℕ) (change : View → View) (seats : List SlotView)
        → ((v : View) → ((change v).sid ≡ v.sid) × ((change v).handle ≡ v.handle))
        → name_in j (changed (is_slot k) (on_view change) seats) ≡ name_in j seats }
    ensures front { (j k : ℕ) (layer : SlotView → ℕ) (seats : List SlotView)
        → has_slot k seats ≡ true
        → name_in j (moved (is_slot k) (put_own_front layer) seats) ≡ name_in j seats }
    ensures back { (j k : ℕ) (layer : SlotView → ℕ) (seats : List SlotView)
        → has_slot k seats ≡ true
        → name_in j (moved (is_slot k) (put_own_back layer) seats) ≡ name_in j seats }
    ensures above { (j k n : ℕ) (seats : List SlotView) → has_slot k seats ≡ true
        → name_in j (moved_above k n seats) ≡ name_in j seats }

    ensures has { (j : ℕ) (seats : List SlotView) → has_slot j seats ≡ is_some (name_in j seats) }
    ensures named { (j sid h : ℕ) (seats : List SlotView) → name_in j seats ≡ Some (sid, h)
        → list_any (is_named sid h) seats ≡ true }
    ensures slot { (sid h : ℕ) (seats : List SlotView) → NoPair same_slot seats
        → list_any (is_named sid h) seats ≡ true
        → (j : ℕ) × (name_in j seats ≡ Some (sid, h)) }
{}

/// Views by their places: the view of a slot that is handed out for a place, its own place again,
/// and the views from a place on.
pub fn views_at_places()
    ensures slot { (views : List SlotView) (i : ℕ) (v : ViewRef)
        → slice_get (map view_ref views) i ≡ Some v
        → (s : SlotView) × (slice_get views i ≡ Some s) × (s.slot ≡ v.0) }
    ensures place { (views : List SlotView) (i : ℕ) (s : SlotView)
        → NoPair same_slot views → slice_get views i ≡ Some s
        → place_of s.slot views ≡ i }
    ensures rest { (views : List SlotView) (i : ℕ) (s : SlotView) → slice_get views i ≡ Some s
        → drop i views ≡ s ∷ drop (i + 1) views }
{}
