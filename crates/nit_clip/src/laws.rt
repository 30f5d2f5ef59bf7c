//! What the definitions of clip scripts and clip lists say of each other, over plain lists: a clip
//! list stays legal and in its phases while the journal grows, and no other list has its text. What
//! holds of a clip script's text and of its phases are the laws of [`nit_script`] for this kind of
//! line.

ghost use Rattle.std.specs.Prelude.{◌≡◌, ◌≤◌, ◌<◌, ◌+◌, ◌^◌, ◌++◌, ◌∷◌, [], ◌⊎◌, ℕ, List, Option};
ghost use Rattle.std.specs.Prelude.{Some, length, map, take, drop, count_by};
ghost use Rattle.nit_clip.specs.Terms.{AllByRecursion, AreInPhases, Call, ClipCall, ClipEntry};
ghost use Rattle.nit_clip.specs.Terms.{ClipLine, ClipReply, Configuration, Entry, FitsClipEntry};
ghost use Rattle.nit_clip.specs.Terms.{FitsClipLine, IsClipAnswer, IsInPhase, IsLegalClips, IsOpen};
ghost use Rattle.nit_clip.specs.Terms.{IsWholeClips, UserAction, before_final, clip_answer};
ghost use Rattle.nit_clip.specs.Terms.{clip_calls_in, clip_calls_of, clip_text, clipboard_of};
ghost use Rattle.nit_clip.specs.Terms.{clips_to_do, clips_to_make, done, is_clip_phase, last_at};
ghost use Rattle.nit_clip.specs.Terms.{left_after, next_phase, replay, slice_get, without_focus};
ghost use Rattle.nit_clip.specs.declared.call.ClipCall.TheVariants as call;
ghost use Rattle.nit_clip.specs.declared.call.ClipReply.TheVariants as reply;
ghost use Rattle.nit_clip.specs.declared.line.ClipLine.TheVariants as line;

/// The clip calls of a script: they are those that it has its client make. One more line adds its
/// call, if it is one. The next call is done in the phase that the lines before it lead to.
pub fn calls_of_a_clip_script()
    ensures all { (lines : List ClipLine) → clip_calls_in lines ≡ done (clips_to_make lines) }
    ensures call { (lines : List ClipLine) (k : ℕ) (c : ClipCall)
        → slice_get lines k ≡ Some (line.Call c)
        → clip_calls_in (take (k + 1) lines) ≡ clip_calls_in (take k lines) ++ c ∷ [] }
    ensures end { (lines : List ClipLine) (k : ℕ)
        → slice_get lines k ≡ Some line.Phase
        → clip_calls_in (take (k + 1) lines) ≡ clip_calls_in (take k lines) }
    ensures phase { (lines : List ClipLine) (k : ℕ) (c : ClipCall)
        → slice_get lines k ≡ Some (line.Call c)
        → let made = length (clip_calls_in (take k lines)) in
        next_phase (drop made (clips_to_make lines)) ≡ count_by is_clip_phase (take k lines) }
{}

/// Two clip lists with one text differ at most in the focus that their entries keep: each entry's
/// place, session, call and reply are the same. Lists that differ in the focus alone have one text.
/// Of the lists that are legal for a journal, one at most has a text.
pub fn clip_text_is_one()
    ensures entries { (a b : List ClipEntry)
        → AllByRecursion FitsClipEntry a → AllByRecursion FitsClipEntry b
        → clip_text a ≡ clip_text b → map without_focus a ≡ map without_focus b }
    ensures text { (a b : List ClipEntry)
        → map without_focus a ≡ map without_focus b → clip_text a ≡ clip_text b }
    ensures legal { (config : Configuration) (journal : List Entry) (a b : List ClipEntry)
        → AllByRecursion FitsClipEntry a → AllByRecursion FitsClipEntry b
        → IsLegalClips config journal a → IsLegalClips config journal b
        → clip_text a ≡ clip_text b → a ≡ b }
{}

/// The entries of a legal and whole clip list fit where the lines of the clip scripts do, there is
/// one script for each client, and the journal has fewer than 2^32 entries.
pub fn whole_clips_fit()
    ensures { (config : Configuration) (clients : List (List (ℕ × Call)))
        → (user : List (ℕ × UserAction)) (journal : List Entry)
        → (scripts : List (List ClipLine)) (clips : List ClipEntry)
        → AllByRecursion (AllByRecursion FitsClipLine) scripts
        → length config.clients ≡ length scripts
        → length scripts ≤ 2 ^ 32 → length journal < 2 ^ 32
        → IsLegalClips config journal clips
        → IsWholeClips clients user journal (map clips_to_make scripts) clips
        → AllByRecursion FitsClipEntry clips }
{}

/// The list without entries is legal for any journal.
pub fn no_clips()
    ensures { (config : Configuration) (journal : List Entry) → IsLegalClips config journal [] }
{}

/// A clip list that is legal for a journal is legal for a journal with one more entry.
pub fn one_more_entry()
    ensures { (config : Configuration) (journal : List Entry) (e : Entry) (clips : List ClipEntry)
        → IsLegalClips config journal clips → IsLegalClips config (journal ++ e ∷ []) clips }
{}

/// One more clip call, after all entries of a journal whose last picture was not taken yet: its
/// place is not below that of the last one, and the list stays legal where the call is one of a
/// session, has the focus of the journal's state, and the answer by that.
pub fn one_more_clip()
    ensures place { (config : Configuration) (journal : List Entry) (clips : List ClipEntry)
        → IsLegalClips config journal clips → last_at 0 clips ≤ length journal }
    ensures legal { (config : Configuration) (journal : List Entry)
        → (clips : List ClipEntry) (c : ClipEntry)
        → IsLegalClips config journal clips → IsOpen journal
        → c.at ≡ length journal → c.sid < length config.clients
        → c.focus ≡ (replay config journal).input.focus
        → c.reply ≡ clip_answer (clipboard_of clips) c.focus c.sid c.call
        → IsLegalClips config journal (clips ++ c ∷ []) }
{}

/// A session that never has the focus before the last picture gets `NotFocused` at each of its clip
/// calls.
pub fn sessions_without_focus()
    ensures { (config : Configuration) (journal : List Entry) (clips : List ClipEntry) (sid : ℕ)
        → IsLegalClips config journal clips
        → ((k : ℕ) → k ≤ before_final journal
        → (replay config (take k journal)).input.focus ≡ Some sid → ⊥)
        → AllByRecursion (λ c. c.sid ≡ sid → c.reply ≡ reply.NotFocused) clips }
{}

/// Clip calls that stand in their phases stand there when the journal has one more entry.
pub fn placed_clips_stay()
    ensures { (clients : List (List (ℕ × Call))) (user : List (ℕ × UserAction))
        → (journal : List Entry) (e : Entry)
        → (scripts : List (List (ℕ × ClipCall))) (clips : List ClipEntry)
        → AllByRecursion (λ c. c.at ≤ before_final journal) clips
        → AreInPhases clients user journal scripts clips
        → AreInPhases clients user (journal ++ e ∷ []) scripts clips }
{}

/// So does one more clip call, where it stands in the phase of what its client does next with the
/// clipboard.
pub fn one_more_placed()
    ensures { (clients : List (List (ℕ × Call))) (user : List (ℕ × UserAction))
        (journal : List Entry)
        → (scripts : List (List (ℕ × ClipCall))) (clips : List ClipEntry) (c : ClipEntry)
        → AreInPhases clients user journal scripts clips
        → let next = clips_to_do (left_after scripts clips) c.sid in
        IsInPhase clients user journal (next_phase next) c
        → AreInPhases clients user journal scripts (clips ++ c ∷ []) }
{}

/// What a client is still to do with the clipboard stands after as many clip calls as it has made.
pub fn left_to_do()
    ensures { (scripts : List (List (ℕ × ClipCall))) (clips : List ClipEntry) (sid : ℕ)
        → clips_to_do (left_after scripts clips) sid
        ≡ drop (length (clip_calls_of sid clips)) (clips_to_do scripts sid) }
{}

/// What a session is answered by any clipboard: it is told that it has not the focus exactly where
/// another session has it, or none. Otherwise a `Copy` is done, and a `Paste` gives a text or says
/// that there is none.
pub fn answers_by_any_clipboard()
    ensures told { (focus : Option ℕ) (sid : ℕ) (c : ClipCall) (r : ClipReply)
        → IsClipAnswer focus sid c r → r ≡ reply.NotFocused → focus ≡ Some sid → ⊥ }
    ensures is_told { (focus : Option ℕ) (sid : ℕ) (c : ClipCall) (r : ClipReply)
        → IsClipAnswer focus sid c r → (focus ≡ Some sid → ⊥) → r ≡ reply.NotFocused }
    ensures copied { (focus : Option ℕ) (sid : ℕ) (t : List ℕ) (r : ClipReply)
        → IsClipAnswer focus sid (call.Copy t) r → focus ≡ Some sid → r ≡ reply.Copied }
    ensures pasted { (focus : Option ℕ) (sid : ℕ) (r : ClipReply)
        → IsClipAnswer focus sid call.Paste r → focus ≡ Some sid
        → (r ≡ reply.Empty) ⊎ ((t : List ℕ) × (r ≡ reply.Pasted t)) }
{}
