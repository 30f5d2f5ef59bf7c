//! Sessions that open again.

ghost use Rattle.std.specs.Prelude.{◌≡◌, ◌≢◌, ◌<◌, length, ℕ};
ghost use Rattle.nit_desktop.specs.Terms.{AreGlasses, IsFreeLabel, opened, session};
ghost use Rattle.nit_events.specs.declared.event.Status.TheVariants as status;

use crate::desktop::Desktop;
use nit_glyph::Label;
use nit_journal::laws::live_sessions_stay;
use nit_screen::laws::openings_keep_all;
use nit_word::Glasses;

impl Desktop {
    /// Opens a session that is over for another client: it is the first one of its donation again,
    /// under this label, which no other session has. Nothing of the earlier client is left: no
    /// event, no view and no handle. Nothing else changes, and nothing is loaded.
    pub fn reopen<L: Glasses>(&mut self, sid: u32, label: Label, glasses: &mut L)
        requires session { sid < length self.old.state.sessions }
        requires over { (session self.old.state sid).status ≢ status.Live }
        requires free { IsFreeLabel self.old.state.config sid label }
        requires glasses { AreGlasses self.old.state.config (L.sights glasses.old) }
        ensures state { self.new.state ≡ opened sid label self.old.state }
        ensures left { self.new.left ≡ self.old.left }
        ensures raw { self.new.raw ≡ self.old.raw }
        ensures sights { (t : ℕ) → L.sights glasses.new t ≡ L.sights glasses.old t }
        ensures rest { L.rest glasses.new ≡ L.rest glasses.old }
    {
        live_sessions_stay();
        openings_keep_all();
        self.screen.facts();
        self.screen.reopen(sid, label, glasses);
        self.screen.facts();
    }
}
