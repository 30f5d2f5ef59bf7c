//! Laws of repainting, over plain lists.

ghost use Rattle.std.specs.Prelude.{◌≡◌, ℕ, ◌+◌, ◌<◌, Bool, List, All, false, true, IsTrue};
ghost use Rattle.std.specs.Prelude.{option_map, length, slice_set, ◌&&◌, ◌||◌};
ghost use Rattle.nit_paint.specs.Terms.{HasPixels, IsOnScreen, IsPiece, IsScreenSize, IsWord};
ghost use Rattle.nit_paint.specs.Terms.{IsWordOfSource, Piece, PixelSource, Point, Repainted};
ghost use Rattle.nit_paint.specs.Terms.{Sight, StackModel, covers, loads_of, owner_in, seen};
ghost use Rattle.nit_paint.specs.Terms.{view_ref};

/// Where no pixel is marked, nothing is loaded and nothing changes.
pub fn nothing_repainted()
    ensures { (source : ℕ → PixelSource) (is_marked : ℕ → Bool) (n : ℕ) (glasses : ℕ → Sight)
        (raw : List ℕ)
        → ((k : ℕ) → k < n → is_marked k ≡ false)
        → Repainted source is_marked n glasses glasses raw raw }
{}

/// One more pixel: it is not marked and nothing is done, or it is marked, its word is loaded by its
/// source, and it holds that word.
pub fn one_more_pixel()
    ensures skipped { (source : ℕ → PixelSource) (is_marked : ℕ → Bool) (n : ℕ)
        (before after : ℕ → Sight) (raw raw' : List ℕ)
        → is_marked n ≡ false → Repainted source is_marked n before after raw raw'
        → Repainted source is_marked (n + 1) before after raw raw' }
    ensures loaded { (source : ℕ → PixelSource) (is_marked : ℕ → Bool) (n w : ℕ)
        (read : PixelSource) (before mid after : ℕ → Sight) (raw raw' : List ℕ)
        → is_marked n ≡ true → n < length raw' → read ≡ source n
        → IsWordOfSource mid read w → ((t : ℕ) → after t ≡ seen (mid t) (loads_of read w t))
        → Repainted source is_marked n before mid raw raw'
        → Repainted source is_marked (n + 1) before after raw (slice_set raw' n w) }
{}

/// Two parts of a screen that have no pixel in common make one, where one is painted after the
/// other, also under another name of what they are together. The same marks, sources and glasses
/// may be told in other words, and so may the number of pixels. Where each pixel held a word each
/// holds a word then.
pub fn repainted_parts()
    ensures both { (source : ℕ → PixelSource) (is_first is_last : ℕ → Bool) (n : ℕ)
        (before between after : ℕ → Sight) (raw first last : List ℕ)
        → ((k : ℕ) → k < n → (is_first k && is_last k) ≡ false)
        → Repainted source is_first n before between raw first
        → Repainted source is_last n between after first last
        → Repainted source (λ k. is_first k || is_last k) n before after raw last }
    ensures union { (source : ℕ → PixelSource) (is_first is_last is_marked : ℕ → Bool) (n : ℕ)
        (before between after : ℕ → Sight) (raw first last : List ℕ)
        → ((k : ℕ) → (is_first k && is_last k) ≡ false)
        → ((k : ℕ) → (is_first k || is_last k) ≡ is_marked k)
        → Repainted source is_first n before between raw first
        → Repainted source is_last n between after first last
        → Repainted source is_marked n before after raw last }
    ensures count { (source : ℕ → PixelSource) (is_marked : ℕ → Bool) (m n : ℕ)
        (before after : ℕ → Sight) (raw raw' : List ℕ)
        → m ≡ n → Repainted source is_marked m before after raw raw'
        → Repainted source is_marked n before after raw raw' }
    ensures same { (source source' : ℕ → PixelSource) (is_marked is_marked' : ℕ → Bool) (n : ℕ)
        (before before' after after' : ℕ → Sight) (raw raw' : List ℕ)
        → ((k : ℕ) → k < n → is_marked k ≡ is_marked' k)
        → ((k : ℕ) → k < n → is_marked k ≡ true → source k ≡ source' k)
        → ((t : ℕ) → before t ≡ before' t) → ((t : ℕ) → after t ≡ after' t)
        → Repainted source is_marked n before after raw raw'
        → Repainted source' is_marked' n before' after' raw raw' }
    ensures words { (source : ℕ → PixelSource) (is_marked : ℕ → Bool) (n : ℕ)
        (before after : ℕ → Sight) (raw raw' : List ℕ)
        → length raw' ≡ length raw → Repainted source is_marked n before after raw raw'
        → All IsWord raw → All IsWord raw' }
{}

/// A piece that has pixels, each of them on the screen and with the piece's owner, is one that can
/// be painted.
pub fn pieces_of_owners()
    ensures { (s : StackModel) (piece : Piece) → IsScreenSize s.width s.height
        → HasPixels piece.rect
        → ((p : Point) → IsTrue (covers piece.rect p) → IsOnScreen s.width s.height p)
        → ((p : Point) → IsTrue (covers piece.rect p)
        → piece.owner ≡ option_map view_ref (owner_in (λ seat. seat.view) s.bar s.views p))
        → IsPiece s piece }
{}
