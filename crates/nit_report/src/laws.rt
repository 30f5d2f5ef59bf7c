//! What the relations between texts and journals say of each other, and how many lines the scripts
//! of a generated run have.

ghost use Rattle.std.specs.Prelude.{◌≡◌, ℕ, List, length, count_by};
ghost use Rattle.nit_report.specs.Terms.{Entry, IsFirstBadEntry, ReadsJournal, client_script};
ghost use Rattle.nit_report.specs.Terms.{input_phases, is_call, is_device, is_shot_line, phases};
ghost use Rattle.nit_report.specs.Terms.{user_script};

/// A text has one reading as a journal at most, and a list of entries has one text.
pub fn journal_reading_is_one()
    ensures entries { (bytes : List ℕ) (a b : List Entry)
        → ReadsJournal bytes a → ReadsJournal bytes b → a ≡ b }
    ensures bytes { (entries : List Entry) (a b : List ℕ)
        → ReadsJournal a entries → ReadsJournal b entries → a ≡ b }
{}

/// A text has one first bad line at most, and none where it has a reading.
pub fn journal_first_bad_is_one()
    ensures one { (bytes : List ℕ) (a b : ℕ)
        → IsFirstBadEntry bytes a → IsFirstBadEntry bytes b → a ≡ b }
    ensures not_bad { (bytes : List ℕ) (entries : List Entry) (line : ℕ) →
        ReadsJournal bytes entries → IsFirstBadEntry bytes line → ⊥ }
{}

/// The script of each client of a generated run has 1,996 lines in three phases, and 1,507 of them
/// are calls.
pub fn generated_client_counts()
    ensures lines { (n c : ℕ) → length (client_script n c) ≡ 1996 }
    ensures calls { (n c : ℕ) → count_by is_call (client_script n c) ≡ 1507 }
    ensures phases { (n c : ℕ) → phases (client_script n c) ≡ 3 }
{}

/// The user's script of a generated run has 205 lines in three phases: 202 device events, one shot
/// and the two ends of phases.
pub fn generated_user_counts()
    ensures lines { (n : ℕ) → length (user_script n) ≡ 205 }
    ensures devices { (n : ℕ) → count_by is_device (user_script n) ≡ 202 }
    ensures shots { (n : ℕ) → count_by is_shot_line (user_script n) ≡ 1 }
    ensures phases { (n : ℕ) → input_phases (user_script n) ≡ 3 }
{}
