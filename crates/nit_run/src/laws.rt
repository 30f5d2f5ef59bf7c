//! What the definitions of a run's journal and files say.

ghost use Rattle.std.specs.Prelude.{◌≡◌, ℕ, ◌∷◌, [], List, false, length};
ghost use Rattle.nit_run.specs.Terms.{AllByRecursion, AreOutputs, Entry, File, FitsEntry, Headline};
ghost use Rattle.nit_run.specs.Terms.{IsJournal, IsRunnable, Line, Setup, final_name};
ghost use Rattle.nit_run.specs.Terms.{final_picture, generated_setup, picture, shots, still_setup};

use nit_actor::laws::{each_shot_has_its_file, near_frames_by_pixels};
use nit_journal::laws::{
    configuration_stays, deliveries_fit, deliveries_go_to_live_sessions, focus_is_the_users,
    fronts_are_legal, input_goes_where_it_is_meant, isolation, machines_stand_alone,
    one_more_entry, refusals_are_its_own, releases_follow_presses, same_acts_same_journal,
};
use nit_overlay::laws::frame_pixels;
use nit_report::{generated_client_counts, generated_user_counts};
use nit_rounds::laws::{each_line_once, shots_as_replayed};

/// A picture of one client's script puts `final.ppm` alone, and its journal has no shot.
pub fn still_puts_one_file()
    ensures files { (width height : ℕ) (lines : List Line) (journal : List Entry)
        (files : List File)
        → IsJournal (still_setup width height lines) journal
        → AreOutputs (still_setup width height lines) journal files
        → files ≡ (final_name, final_picture (still_setup width height lines) journal) ∷ [] }
    ensures shots { (width height : ℕ) (lines : List Line) (journal : List Entry)
        → IsJournal (still_setup width height lines) journal → shots journal ≡ 0 }
{
    each_line_once();
}

/// By rounds the configuration and the scripts alone determine the journal of a run, and each of
/// its files: two runs of one setup have the same journal, and put the same.
pub fn one_setup_one_run()
    ensures journal { (s : Setup) (js ks : List Entry)
        → s.beside ≡ false → IsJournal s js → IsJournal s ks → js ≡ ks }
    ensures files { (s : Setup) (js ks : List Entry) (fs gs : List File)
        → s.beside ≡ false → IsJournal s js → IsJournal s ks → AreOutputs s js fs
        → AreOutputs s ks gs → fs ≡ gs }
{
    same_acts_same_journal();
}

/// Each entry of the journal of a setup that can be run is within the format of texts. So the text
/// of the journal is read back as the journal, and as no other (`journal_text` of nit_report).
pub fn journals_fit()
    ensures { (s : Setup) (journal : List Entry)
        → IsRunnable s → IsJournal s journal → AllByRecursion FitsEntry journal }
{
    configuration_stays();
    deliveries_fit();
    deliveries_go_to_live_sessions();
    fronts_are_legal();
    machines_stand_alone();
}

/// A generated run has 12,260 entries, one of them a shot, whatever its number and whatever its
/// threads do. So it says the same line each time.
pub fn generated_runs_count()
    ensures { (n : ℕ) (journal : List Entry) → IsJournal (generated_setup n) journal
        → (length journal ≡ 12260) × (shots journal ≡ 1) }
{
    generated_client_counts();
    generated_user_counts();
}

/// A journal of a setup that can be run, with the files that it puts, is what the headline says.
pub fn headline()
    ensures { (s : Setup) (journal : List Entry) (outputs : List File)
        → IsRunnable s → IsJournal s journal → AreOutputs s journal outputs
        → Headline s journal outputs }
{
    configuration_stays();
    deliveries_fit();
    deliveries_go_to_live_sessions();
    each_shot_has_its_file();
    focus_is_the_users();
    frame_pixels();
    fronts_are_legal();
    input_goes_where_it_is_meant();
    isolation();
    journals_fit();
    machines_stand_alone();
    near_frames_by_pixels();
    one_more_entry();
    one_setup_one_run();
    refusals_are_its_own();
    releases_follow_presses();
    shots_as_replayed();
}
