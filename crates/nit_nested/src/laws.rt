//! What the definitions of frames and scripts say of each other.

ghost use Rattle.std.specs.Prelude.{false, ◌≡◌, ◌≤◌, ◌+◌, ◌*◌, ◌++◌, ◌∷◌, [], ℕ, List, None};
ghost use Rattle.std.specs.Prelude.{length, take};
ghost use Rattle.nit_nested.specs.Terms.{Buffer, CanPay, Line, NestModel, ShowsFrames, count_lines};
ghost use Rattle.nit_nested.specs.Terms.{first_forbidden, first_session, frame_lines, is_accepted};
ghost use Rattle.nit_nested.specs.Terms.{lines_before_end, lines_of_frames, nest_script, phases};
ghost use Rattle.nit_nested.specs.Terms.{serve, static, words_left, words_of_lines};

/// The lines of a frame tell its words.
pub fn lines_tell_their_frame()
    ensures { (w h : ℕ) (words : List ℕ)
        → length words ≡ w * h → words_of_lines (frame_lines w h words) ≡ words }
{}

/// The script that shows frames has as many phases as the script that it was made of.
pub fn phases_stay()
    ensures { (n : NestModel) (own : List Line) → phases (nest_script n own) ≡ phases own }
{}

/// Its lines are the `buffer` line, those of all frames, and those of the script it was made of.
pub fn lines_are_counted()
    ensures { (n : NestModel) (own : List Line) → phases own ≡ length n.frames
        → length (nest_script n own) ≡ 1 + count_lines (lines_of_frames n) + length own }
{}

/// The last phase of a script ends with its last line.
pub fn last_phase_is_whole()
    ensures { (script : List Line) (k : ℕ)
        → phases script ≡ k + 1 → lines_before_end k script ≡ length script }
{}

/// A script of as many phases as frames that shows each of them leaves the last one.
pub fn last_frame_is_left()
    ensures { (w h : ℕ) (front : List (List ℕ)) (last : List ℕ)
        → (script : List Line) (donation : ℕ)
        → ShowsFrames w h (front ++ last ∷ []) script donation
        → phases script ≡ length front + 1
        → take (w * h) (words_left script donation) ≡ last }
{}

/// From its first line on the script that shows frames has a buffer of the screen's size, where its
/// session can pay for it, and elsewhere none.
pub fn buffer_stays()
    ensures wide { (n : NestModel) (own : List Line) (donation k : ℕ)
        → first_forbidden 1 own ≡ None → CanPay donation n.w n.h → 1 ≤ k
        → (static (nest_script n own) donation k).bw ≡ n.w }
    ensures tall { (n : NestModel) (own : List Line) (donation k : ℕ)
        → first_forbidden 1 own ≡ None → CanPay donation n.w n.h → 1 ≤ k
        → (static (nest_script n own) donation k).bh ≡ n.h }
    ensures bare { (n : NestModel) (own : List Line) (donation k : ℕ)
        → first_forbidden 1 own ≡ None
        → is_accepted (serve (first_session donation) (Buffer n.w n.h)).reply ≡ false
        → (static (nest_script n own) donation k).bw ≡ 0 }
{}
