//! Laws of frames.

ghost use Rattle.std.specs.Prelude.{◌≡◌, ◌⊎◌, ℕ, ◌*◌, ◌<◌, All, Bool, IsTrue, List, Some, false};
ghost use Rattle.std.specs.Prelude.{true, length, slice_index};
ghost use Rattle.nit_overlay.specs.Terms.{Flat, IsBright, IsMark, IsOfNamed, IsReddish, IsRenewed};
ghost use Rattle.nit_overlay.specs.Terms.{IsWord, Kill, Point, Scenery, View, Xray, draws_labels};
ghost use Rattle.nit_overlay.specs.Terms.{frame, in_bar, in_label, ink_of, is_label_dot, is_some};
ghost use Rattle.nit_overlay.specs.Terms.{owner, pixel, shown, white_word};

/// A frame has one word for each pixel of the screen, row by row from the top: the word that is
/// shown there. Where all raw words are below 2^24, so are its words. Equal raw words make equal
/// frames.
pub fn frame_pixels()
    ensures count { (s : Scenery) (raw : List ℕ) → length (frame s raw) ≡ s.width * s.height }
    ensures each { (s : Scenery) (raw : List ℕ) (k : ℕ) → k < s.width * s.height
        → slice_index (frame s raw) k ≡ shown s (pixel s.width k) (slice_index raw k) }
    ensures words { (s : Scenery) (raw : List ℕ) → length raw ≡ s.width * s.height
        → All IsWord raw → All IsWord (frame s raw) }
    ensures same { (s : Scenery) (raw raw' : List ℕ)
        → ((k : ℕ) → k < s.width * s.height → slice_index raw k ≡ slice_index raw' k)
        → frame s raw ≡ frame s raw' }
{}

/// A frame that is kept. Where the chosen pixels were set to what is shown now, and what is shown
/// at all others is the same, it is the frame of now. In mode Flat and below the bar, what is
/// shown depends on the raw word, and on whether the pixel has an owner, alone.
pub fn kept_frames()
    ensures renewed { (before now : Scenery) (chosen : ℕ → Bool) (raw raw' old new : List ℕ)
        → IsRenewed before now chosen raw raw' old new
        → old ≡ frame before raw → new ≡ frame now raw' }
    ensures flat { (before now : Scenery) (p : Point) (w : ℕ)
        → before.mode ≡ Flat → now.mode ≡ Flat → before.bar ≡ now.bar → in_bar now.bar p ≡ false
        → is_some (owner now.bar now.stack p) ≡ is_some (owner before.bar before.stack p)
        → shown now p w ≡ shown before p w }
{}

/// The server's marks on views are its own. In the modes that draw labels, a pixel in the label of
/// the view that owns it is white or black, whatever the client painted there.
///
/// In mode Xray a word with a channel of 128 or more stands nowhere but in the status bar, in
/// pixels of the focused session, which the text of the bar names, and in two marks: the white dots
/// of a view's label, and the grey ring of a view. So a session without the focus shows neither
/// white nor the grey of rings, whatever it paints. Where its views and so its rings stand is its
/// own choice.
///
/// In mode Kill each pixel that a view owns, outside its label, shows red of 128 or more, and green
/// and blue below. So white and black below the status bar are those of labels. The red of rings is
/// no such mark: a client may paint it.
pub fn marks_are_the_servers()
    ensures labels { (s : Scenery) (p : Point) (w : ℕ) (v : View) → IsTrue (draws_labels s.mode)
        → owner s.bar s.stack p ≡ Some v → in_label s v p ≡ true
        → shown s p w ≡ ink_of (is_label_dot s v p) }
    ensures xray { (s : Scenery) (p : Point) (w : ℕ) → s.mode ≡ Xray → IsWord w
        → IsBright (shown s p w)
        → (in_bar s.bar p ≡ true) ⊎ IsOfNamed s p ⊎ IsMark s p (shown s p w) }
    ensures kill { (s : Scenery) (p : Point) (w : ℕ) (v : View) → s.mode ≡ Kill → IsWord w
        → owner s.bar s.stack p ≡ Some v → in_label s v p ≡ false → IsReddish (shown s p w) }
    ensures plain { (s : Scenery) (p : Point) (w : ℕ) → s.mode ≡ Kill → IsWord w
        → in_bar s.bar p ≡ false → (shown s p w ≡ white_word) ⊎ (shown s p w ≡ 0)
        → (v : View) × (owner s.bar s.stack p ≡ Some v) × (in_label s v p ≡ true) }
{}
