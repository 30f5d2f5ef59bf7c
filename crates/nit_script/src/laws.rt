//! What the relations between texts and scripts say of each other, for any kind of line.

ghost use Rattle.std.specs.Prelude.{◌≡◌, ◌≤◌, ℕ, ◌+◌, List, [], ◌∷◌, ◌++◌, length, if◌then◌else◌};
ghost use Rattle.nit_script.specs.Terms.{IsFirstBad, IsTooLong, Reads, most_lines, phases_by};

use crate::script_line::ScriptLine;

/// A text has one reading as a script at most, and a list of lines has one text.
pub fn reading_is_one<L: ScriptLine>()
    ensures lines { (bytes : List ℕ) (a b : List L) → Reads L.Fits L.spelling bytes a
        → Reads L.Fits L.spelling bytes b → a ≡ b }
    ensures bytes { (lines : List L) (a b : List ℕ) → Reads L.Fits L.spelling a lines
        → Reads L.Fits L.spelling b lines → a ≡ b }
{
    L::one_in_front();
}

/// A text with a reading has no first bad line, and is not too long where the reading has at most
/// 65,536 lines.
pub fn reading_is_whole<L: ScriptLine>()
    ensures not_bad { (bytes : List ℕ) (lines : List L) (line : ℕ)
        → Reads L.Fits L.spelling bytes lines → IsFirstBad L.Fits L.spelling bytes line → ⊥ }
    ensures not_long { (bytes : List ℕ) (lines : List L)
        → Reads L.Fits L.spelling bytes lines → length lines ≤ most_lines
        → IsTooLong L.Fits L.spelling bytes → ⊥ }
{
    L::one_in_front();
}

/// A text has one first bad line at most, and none where it is too long.
pub fn first_bad_is_one<L: ScriptLine>()
    ensures one { (bytes : List ℕ) (a b : ℕ) → IsFirstBad L.Fits L.spelling bytes a
        → IsFirstBad L.Fits L.spelling bytes b → a ≡ b }
    ensures not_long { (bytes : List ℕ) (line : ℕ) → IsFirstBad L.Fits L.spelling bytes line
        → IsTooLong L.Fits L.spelling bytes → ⊥ }
{
    L::one_in_front();
}

/// A script of no lines has one phase, and each line after it that ends a phase makes one more.
pub fn phases_count<L: ScriptLine>()
    ensures first { phases_by L.ends_phase [] ≡ 1 }
    ensures more { (lines : List L) (line : L) → phases_by L.ends_phase (lines ++ line ∷ [])
        ≡ (if L.ends_phase line then phases_by L.ends_phase lines + 1
        else phases_by L.ends_phase lines) }
{}
