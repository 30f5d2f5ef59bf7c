//! Laws of the pixels that an entry does not make dirty, of the names of views, and of their
//! labels.

ghost use Rattle.std.specs.Prelude.{◌≡◌, ◌≢◌, ℕ, List, None, Some, false};
ghost use Rattle.nit_screen.specs.Terms.{Agrees, AreBelowNext, AreInked, AreLive, AreRaw, Call};
ghost use Rattle.nit_screen.specs.Terms.{Configuration, Entry, HaveOwnNames, IsLegal, IsLettering};
ghost use Rattle.nit_screen.specs.Terms.{IsNamedBy, IsNewlyNamed, IsOn, IsServed, IsServer};
ghost use Rattle.nit_screen.specs.Terms.{IsViewChange};
ghost use Rattle.nit_screen.specs.Terms.{Painted, Point, Reply, Scenery, ServerModel, ShowsLabels};
ghost use Rattle.nit_screen.specs.Terms.{Sight, SlotView, State, after, dirty, frame, opened};
ghost use Rattle.nit_screen.specs.Terms.{place_of, refusal, replay, scenery_of, session};
ghost use Rattle.nit_screen.specs.Terms.{slot_view_in, source_of, state_of};
ghost use Rattle.nit_events.specs.declared.event.Status.TheVariants as status;

use nit_journal::laws::deliveries_fit;

/// A pixel that an entry does not make dirty has the source that it had before. The entry agrees
/// with the state before it.
pub fn clean_pixels_keep_their_source()
    ensures { (s : State) (taken : ℕ) (e : Entry) (p : Point) → Agrees s taken e → dirty s e
        (after s e) p ≡ false → source_of (after s e) p ≡ source_of s p }
{
    deliveries_fit();
}

/// Where each raw word is the bare one, 0 or a word, as its pixel's source wants it, that holds
/// again when the dirty pixels of an entry were loaded.
pub fn raw_stays_raw()
    ensures { (s : State) (taken : ℕ) (e : Entry) (glasses glasses_after : ℕ → Sight)
        (raw raw_after : List ℕ) → Agrees s taken e
        → Painted s e (after s e) glasses glasses_after raw raw_after → AreRaw s raw → AreRaw
        (after s e) raw_after }
{
    deliveries_fit();
}

/// Where each raw word that comes from a session is 0 or what its glass's ink has at its place,
/// that holds again when the dirty pixels of an entry were loaded. The loads leave the inks as they
/// are.
pub fn ink_stays()
    ensures { (s : State) (taken : ℕ) (e : Entry) (glasses glasses_after : ℕ → Sight)
        (raw raw_after : List ℕ) → Agrees s taken e
        → Painted s e (after s e) glasses glasses_after raw raw_after → AreInked s glasses raw
        → AreInked (after s e) glasses_after raw_after }
{
    deliveries_fit();
}

/// No two views have the same session and handle: an entry keeps that where the view that it makes
/// has a new name. It has one where each view's handle is below the next one of its session, and an
/// entry that agrees keeps that too. So all of it holds in each state that a legal journal leads
/// to.
pub fn names_stay_own()
    ensures own { (s : State) (e : Entry) → HaveOwnNames s.stack → IsNewlyNamed e s.stack
        → HaveOwnNames (after s e).stack }
    ensures new { (s : State) (taken : ℕ) (e : Entry) → AreBelowNext s → Agrees s taken e
        → IsNewlyNamed e s.stack }
    ensures below { (s : State) (taken : ℕ) (e : Entry) → AreBelowNext s → Agrees s taken e
        → AreBelowNext (after s e) }
    ensures legal { (config : Configuration) (journal : List Entry) → IsLegal config journal
        → HaveOwnNames (replay config journal).stack × AreBelowNext (replay config journal) }
{}

/// Every frame of a state that a legal journal leads to shows the labels, if its mode draws them:
/// each view for whose label there is a place has its whole label there, and no two labels share a
/// pixel. Which raw words the frame is made of does not matter.
pub fn labels_stand()
    ensures { (config : Configuration) (journal : List Entry) (raw : List ℕ)
        → IsLettering config.lettering → IsLegal config journal
        → ShowsLabels (scenery_of (replay config journal))
        (frame (scenery_of (replay config journal)) raw) }
{}

/// Where no two views have the same session and handle, the frame shows the labels, if its mode
/// draws them: each view for whose label there is a place has its whole label there, and no two
/// labels share a pixel. Which raw words the frame is made of does not matter.
pub fn own_names_show_labels()
    ensures { (s : Scenery) (raw : List ℕ) → IsLettering s.lettering → HaveOwnNames s.stack
        → ShowsLabels s (frame s raw) }
{}

/// Where whoever has a view is live, a session that is over and opens again leaves each pixel the
/// source that it had, so that raw words of their sources stay so, and each view's handle stays
/// below the next one of its session. The views are the same.
pub fn openings_keep_all()
    ensures sources { (s : State) (sid : ℕ) (label : List ℕ) (p : Point) → AreLive s
        → (session s sid).status ≢ status.Live → source_of (opened sid label s) p ≡ source_of s p }
    ensures raw { (s : State) (sid : ℕ) (label raw : List ℕ) → AreLive s
        → (session s sid).status ≢ status.Live → AreRaw s raw → AreRaw (opened sid label s) raw }
    ensures below { (s : State) (sid : ℕ) (label : List ℕ) → AreLive s
        → (session s sid).status ≢ status.Live → AreBelowNext s
        → AreBelowNext (opened sid label s) }
{}

/// An accepted call on a view is a change of the view in its slot.
pub(crate) fn calls_change_one_view()
    ensures { (before after' : ServerModel) (sid handle k : ℕ) (call : Call) (r : Reply)
        (seat : SlotView)
        → IsServer before → IsServer after' → refusal (session (state_of before) sid) call ≡ None
        → IsServed sid call r before after' → IsOn handle call
        → IsNamedBy k sid handle before.stack.views → slot_view_in k before.stack.views ≡ Some seat
        → IsViewChange k (place_of k before.stack.views) seat.view.rect before.stack after'.stack }
{}
