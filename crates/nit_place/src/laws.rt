//! What follows from the definition of a label's place alone.

ghost use Rattle.std.specs.Prelude.{◌≡◌, ℕ, ◌+◌, ◌≤◌, List, Option, false, true, pos};
ghost use Rattle.nit_place.specs.Terms.{IsApart, IsLeast, IsLeastPlace, IsNumberOf, Point, View};
ghost use Rattle.nit_place.specs.Terms.{fits, is_view, label_place, option_map, point, rectangle};
ghost use Rattle.nit_labels.specs.Places.{OwnsArea};

/// Two labels that stand where they fit views of different names share no pixel. Each has a size of
/// its own.
pub fn labels_apart()
    ensures { (width height rows : ℕ) (stack : List View) (v u : View) (w h x y w' h' x' y' : ℕ)
        → is_view v.sid v.handle u ≡ false
        → fits width height rows stack v w h x y ≡ true
        → fits width height rows stack u w' h' x' y' ≡ true
        → IsApart (rectangle (pos x) (pos y) w h) (rectangle (pos x') (pos y') w' h') }
{}

/// The place of a label, which has pixels, is the least one at which it fits, by row and then by
/// column. There is none exactly where it fits nowhere. Where a label fits it lies on the screen.
pub fn least_place()
    ensures least { (width height rows : ℕ) (stack : List View) (v : View) (w h : ℕ) → 1 ≤ w → 1 ≤ h
        → IsLeast (fits width height rows stack v w h) (label_place width height rows stack v w h) }
    ensures only { (width height rows : ℕ) (stack : List View) (v : View) (w h : ℕ)
        (o : Option (ℕ × ℕ))
        → 1 ≤ w → 1 ≤ h
        → IsLeast (fits width height rows stack v w h) o
        → o ≡ label_place width height rows stack v w h }
    ensures within { (width height rows : ℕ) (stack : List View) (v : View) (w h x y : ℕ) → 1 ≤ w
        → 1 ≤ h
        → fits width height rows stack v w h x y ≡ true → (x + w ≤ width) × (y + h ≤ height) }
{}

/// A map that has a number of its own for a view tells the place of its label: that is the least
/// place at which the label's rectangle has this number alone.
pub fn mapped_place()
    ensures { (width height rows : ℕ) (stack : List View) (v : View) (o w h : ℕ) (at : ℕ → ℕ → ℕ)
        → 1 ≤ w → 1 ≤ h
        → IsNumberOf at width height rows stack v o
        → (q : Option Point)
        → IsLeastPlace (OwnsArea at width height o w h) q
        → q ≡ option_map (λ p. point p.0 p.1) (label_place width height rows stack v w h) }
{}
