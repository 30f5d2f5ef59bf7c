//! What rounds are, over plain lists: what a run that does them in order relies on.

ghost use Rattle.std.specs.Prelude.{◌≡◌, ◌<◌, ◌≤◌, ◌+◌, ℕ, List, [], ◌∷◌, ◌++◌, Some, length, map};
ghost use Rattle.nit_rounds.specs.Terms.{AreRoundsOf, AreShotsOf, ByClient, ByUser, Configuration};
ghost use Rattle.nit_rounds.specs.Terms.{Entry, InputLine, IsDrawnPicture, IsLegal, IsWhole, Line};
ghost use Rattle.nit_rounds.specs.Terms.{LineTurn, action_of, actions_of_turns, calls_to_make};
ghost use Rattle.nit_rounds.specs.Terms.{drawn, drawn_by_shot, input_lines_of, lines_of};
ghost use Rattle.nit_rounds.specs.Terms.{picture_of, replay, rounds, shot_name, shots, shots_of};
ghost use Rattle.nit_rounds.specs.Terms.{slice_get, slice_index_or, sum, take, turn_of};
ghost use Rattle.nit_rounds.specs.Terms.{user_actions_to_do};
ghost use Rattle.nit_events.specs.declared.entry.Entry.TheVariants as entry;
ghost use Rattle.nit_rounds.specs.declared.turn.Turn.TheVariants as turn;

/// Each line of every script is done once in the rounds, in the order of its script, and no other
/// line is. So there are as many moves as lines, and each puts at most one entry into the journal.
pub fn each_line_once()
    ensures clients { (scripts : List (List Line)) (input : List InputLine) (s : ℕ)
        → lines_of s (rounds scripts input) ≡ slice_index_or scripts s [] }
    ensures user { (scripts : List (List Line)) (input : List InputLine)
        → input_lines_of (rounds scripts input) ≡ input }
    ensures count { (scripts : List (List Line)) (input : List InputLine)
        → length (rounds scripts input) ≡ sum (map length scripts) + length input }
    ensures acts { (moves : List LineTurn) → length (actions_of_turns moves) ≤ length moves }
{}

/// A turn tells who does the move that it is of, and the number of the line.
pub fn turns_tell()
    ensures client { (m : LineTurn) (s n : ℕ) → turn_of m ≡ turn.Client s n
        → (m.number ≡ n) × ((l : Line) × (m.doing ≡ ByClient s l)) }
    ensures user { (m : LineTurn) (n : ℕ) → turn_of m ≡ turn.User n
        → (m.number ≡ n) × ((l : InputLine) × (m.doing ≡ ByUser l)) }
{}

/// Where an actor does a line, it is the line of its script with the move's number, and the actor
/// has done exactly those before it.
pub fn lines_done()
    ensures client { (scripts : List (List Line)) (input : List InputLine)
        (front back : List LineTurn) (m : LineTurn) (s : ℕ) (l : Line)
        → rounds scripts input ≡ front ++ m ∷ back → m.doing ≡ ByClient s l
        → (s < length scripts) × (slice_get (slice_index_or scripts s []) m.number ≡ Some l)
        × (lines_of s front ≡ take m.number (slice_index_or scripts s [])) }
    ensures user { (scripts : List (List Line)) (input : List InputLine)
        (front back : List LineTurn)
        (m : LineTurn) (l : InputLine)
        → rounds scripts input ≡ front ++ m ∷ back → m.doing ≡ ByUser l
        → (slice_get input m.number ≡ Some l) × (input_lines_of front ≡ take m.number input) }
{}

/// A journal whose entries are those of the rounds, followed by the last picture, is whole for what
/// the scripts have their actors do.
pub fn rounds_are_whole()
    ensures { (scripts : List (List Line)) (input : List InputLine) (journal : List Entry)
        → AreRoundsOf journal scripts input
        → IsWhole (map calls_to_make scripts) (user_actions_to_do input) (journal ++ entry.Final
        ∷ []) }
{}

/// What is drawn after some moves is in the state that a legal journal of these moves leads to. So
/// a shot is the frame of that state.
pub fn drawn_as_replayed()
    ensures { (config : Configuration) (scripts : List (List Line)) (moves : List LineTurn)
        (journal : List Entry)
        → IsLegal config journal → map action_of journal ≡ actions_of_turns moves
        → (drawn config scripts moves).state ≡ replay config journal }
{}

/// The pictures of a run by rounds. There are as many as shots in its journal, and the file of a
/// shot is the picture of the state that the entries before it lead to, where each pixel holds what
/// the rounds have drawn there by then. The last clause says the same along the journal, with the
/// last picture after it.
pub fn shots_as_replayed()
    ensures count { (config : Configuration) (scripts : List (List Line)) (input : List InputLine)
        (journal : List Entry) → IsLegal config journal → AreRoundsOf journal scripts input
        → length (shots_of config scripts input) ≡ shots journal }
    ensures each { (config : Configuration) (scripts : List (List Line)) (input : List InputLine)
        (front rest : List Entry) (number : ℕ)
        → IsLegal config (front ++ entry.Shot number ∷ rest)
        → AreRoundsOf (front ++ entry.Shot number ∷ rest) scripts input
        → let word = (drawn_by_shot config scripts input (shots front)).word in
        slice_get (shots_of config scripts input) (shots front)
        ≡ Some (shot_name number, picture_of config (replay config front) word) }
    ensures along { (config : Configuration) (scripts : List (List Line)) (input : List InputLine)
        (journal : List Entry) → IsLegal config journal → AreRoundsOf journal scripts input
        → AreShotsOf (IsDrawnPicture config scripts input) (journal ++ entry.Final ∷ [])
        (shots_of config scripts input) }
{}

/// Where there is one client, and the input script has no device event and no shot, a legal and
/// whole journal is by rounds: its entries are the calls of the client's script, in order, and then
/// the last picture.
pub fn one_client_goes_by_rounds()
    ensures { (config : Configuration) (script : List Line) (input : List InputLine)
        (journal : List Entry)
        → length config.clients ≡ 1 → user_actions_to_do input ≡ [] → IsLegal config journal
        → IsWhole (map calls_to_make (script ∷ [])) (user_actions_to_do input) journal
        → (entries : List Entry) × AreRoundsOf entries (script ∷ []) input
        × (journal ≡ entries ++ entry.Final ∷ []) }
{}
