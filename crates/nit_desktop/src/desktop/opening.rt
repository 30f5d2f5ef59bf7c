//! A desktop before its first step.

ghost use Rattle.std.specs.Prelude.{◌≡◌, ◌-◌, ◌<◌, ◌≤◌, ◌*◌, IfOk, [], length, replicate};
ghost use Rattle.std.specs.Prelude.{slice_set, ℕ};
ghost use Rattle.nit_desktop.specs.Terms.{AreGlasses, IsConfiguration, bare_word, donation_of};
ghost use Rattle.nit_desktop.specs.Terms.{ended, first_input, first_session, first_state, lettered};
ghost use Rattle.nit_desktop.specs.Terms.{session, vacant_state};
ghost use Rattle.nit_events.specs.declared.event.Status.TheVariants as status;

use crate::desktop::Desktop;
use nit_config::Config;
use nit_events::Call;
use nit_glyph::Lettering;
use nit_journal::laws::live_sessions_stay;
use nit_rect::NoMemory;
use nit_screen::Screen;
use nit_word::Glasses;
use std::alloc::Global;

/// How many entries a desktop serves: more than ever come.
const MOST_ENTRIES: u64 = 1 << 62;

impl Desktop {
    /// A screen of this configuration without any view, with its texts drawn so. Each session is
    /// open, under its client's label. All memory that the desktop will ever use is taken here.
    pub fn new(alloc: Global, config: &Config, lettering: Lettering) -> Result<Desktop, NoMemory>
        requires config { IsConfiguration (lettered lettering config.now) }
        ensures { IfOk result (λ d. d ≡ record {
          state = first_state (lettered lettering config.now);
          left = 4611686018427387904;
          raw = replicate (config.now.width * config.now.height) bare_word;
        }) }
    {
        live_sessions_stay();
        let screen = Screen::new(alloc, config, lettering)?;
        Ok(Desktop {
            screen,
            left: MOST_ENTRIES,
        })
    }

    /// A screen of this configuration with its texts drawn so and no session open: each is over as
    /// if its client had closed it, and opens when a client comes. All memory is taken here, and
    /// nothing is loaded.
    pub fn vacant<L: Glasses>(
        alloc: Global,
        config: &Config,
        lettering: Lettering,
        glasses: &mut L,
    ) -> Result<Desktop, NoMemory>
        requires config { IsConfiguration (lettered lettering config.now) }
        requires glasses { AreGlasses config.now (L.sights glasses.old) }
        ensures desktop { IfOk result (λ d. d ≡ record {
          state = vacant_state (lettered lettering config.now);
          left = 4611686018427387904;
          raw = replicate (config.now.width * config.now.height) bare_word;
        }) }
        ensures sights { (t : ℕ) → L.sights glasses.new t ≡ L.sights glasses.old t }
        ensures rest { L.rest glasses.new ≡ L.rest glasses.old }
    {
        let mut desktop = Desktop::new(alloc, config, lettering)?;
        close_all(&mut desktop, glasses);
        desktop.left = MOST_ENTRIES;
        Ok(desktop)
    }
}

/// Closes each session of a desktop on which nothing was done yet.
fn close_all<L: Glasses>(desktop: &mut Desktop, glasses: &mut L)
    requires first { desktop.old.state ≡ first_state desktop.old.state.config }
    requires left { desktop.old.left ≡ 4611686018427387904 }
    requires glasses { AreGlasses desktop.old.state.config (L.sights glasses.old) }
    ensures state { desktop.new.state ≡ vacant_state desktop.old.state.config }
    ensures raw { desktop.new.raw ≡ desktop.old.raw }
    ensures sights { (t : ℕ) → L.sights glasses.new t ≡ L.sights glasses.old t }
    ensures rest { L.rest glasses.new ≡ L.rest glasses.old }
{
    'sessions: for sid in 0..desktop.sessions() {
        close(desktop, sid, glasses);
    }
}

/// Closes a session that opened with its donation, on a screen without views.
fn close<L: Glasses>(desktop: &mut Desktop, sid: u32, glasses: &mut L)
    requires session { sid < length desktop.old.state.sessions }
    requires first { session desktop.old.state sid
        ≡ first_session (donation_of desktop.old.state.config sid) }
    requires bare { desktop.old.state.stack ≡ [] }
    requires idle { desktop.old.state.input ≡ first_input }
    requires left { 1 ≤ desktop.old.left }
    requires glasses { AreGlasses desktop.old.state.config (L.sights glasses.old) }
    ensures state { desktop.new.state ≡ record desktop.old.state {
      sessions = slice_set desktop.old.state.sessions sid
          (ended status.Closed (first_session (donation_of desktop.old.state.config sid)));
    } }
    ensures left { desktop.new.left ≡ desktop.old.left - 1 }
    ensures raw { desktop.new.raw ≡ desktop.old.raw }
    ensures sights { (t : ℕ) → L.sights glasses.new t ≡ L.sights glasses.old t }
    ensures rest { L.rest glasses.new ≡ L.rest glasses.old }
{
    desktop.facts();
    desktop.call(sid, &Call::Close, glasses);
    desktop.facts();
}
