//! The server with the words of its clients.

ghost use Rattle.std.specs.Prelude.{◌≡◌, ◌*◌, ◌<◌, length, ℕ};
ghost use Rattle.nit_host.specs.Terms.{AreTurns, IsConfiguration, IsFrameShown, picture_now};
ghost use Rattle.nit_host.specs.Terms.{scenery_of, sheet_in, size_at};

mod area;
mod calls;
mod damage;
mod handing;
mod looking;
mod opening;
mod reading;
mod restacking;
mod seats;
mod shown;
mod touch;
mod user;

use crate::client::Turns;
use crate::sheet::Sheet;
use nit_desktop::Desktop;
use nit_events::Entry;
use nit_look::Parts;
use nit_rect::MOST_SESSIONS;
use nit_stack::View;
use std::marker::Model;
use std::snapshot::Snapshot;

/// A display server that a host program drives: its seats with the words that their clients handed
/// in, the last entry, what the last look showed, and what changed since.
#[derive(Drop)]
pub struct Host {
    pub(crate) desktop: Desktop,
    /// The words of each seat's client, through which the desktop loads its pixels.
    pub(crate) sheets: Vec<Sheet>,
    /// Which client each seat has.
    pub(crate) turns: Turns,
    pub(crate) last: Option<Entry>,
    /// Outside of them no pixel of the frame has changed since the last look.
    pub(crate) changed: Parts,
    /// The views that the last look showed, front first, with room for all that there may be.
    pub(crate) shown: Vec<View>,
    /// Whether it is known that the views still stand so.
    pub(crate) stand: bool,
    /// For each seat, whether a client has come to it since the last look.
    pub(crate) came: [bool; MOST_SESSIONS],
    pub(crate) seen: Option<Seen>,
}

/// What the last look saw, for contracts alone.
#[derive(Drop)]
pub(crate) struct Seen {
    pub(crate) desktop: Snapshot<Desktop>,
    pub(crate) sheets: Snapshot<Vec<Sheet>>,
}

impl Model for Host {
    ghost use Rattle.std.specs.Prelude.{All, option_map, ◌≡◌, ◌≤◌, true, vec_capacity};
    ghost use Rattle.nit_host.specs.Below.{IsAreaOf, has_any};
    ghost use Rattle.nit_host.specs.Fresh.{IsHost, sheets_of};
    ghost use Rattle.nit_host.specs.Host.{AreTurns, HostModel};
    ghost use Rattle.nit_host.specs.Looked.{IsSeenBut, frame_at};
    ghost use Rattle.nit_host.specs.Terms.{most_slots};

    ghost Value = { HostModel };

    ghost view = { λ h. record {
      state = h.desktop.state;
      sheets = sheets_of h.sheets.items;
      turns = h.turns;
      left = h.desktop.left;
      last = h.last;
      seen = record {
        frame = option_map (λ s. frame_at s.desktop.value s.sheets.value.items) h.seen;
        views = h.shown.items;
        came = h.came;
      };
    } };

    ghost invariant = { λ h. IsHost h.desktop h.sheets.items
        × IsSeenBut h.desktop.state (sheets_of h.sheets.items) (has_any h.changed)
        (option_map (λ s. frame_at s.desktop.value s.sheets.value.items) h.seen)
        × All (IsAreaOf h.desktop.state.config.width h.desktop.state.config.height) h.changed
        × (most_slots ≤ vec_capacity h.shown) × AreTurns h.turns
        × (h.stand ≡ true → h.shown.items ≡ h.desktop.state.stack) };
}

impl Host {
    ghost use Rattle.std.specs.Borrow.{sem};
    ghost use Rattle.nit_host.specs.Lending.{HostStays};

    /// The frame that the screen shows now: a word for each pixel, row by row from the top, each
    /// below 2^24. Each pixel shows, as the mode has it, the word that its session handed in last
    /// for the place. What is seen of the host stays as it is.
    pub fn frame(&mut self) -> &[u32]
        ensures shown { IsFrameShown (scenery_of self.old.state) (picture_now self.old) result.now }
        ensures pixels { length result.now
            ≡ self.old.state.config.width * self.old.state.config.height }
        ensures* same { sem 𝓛 (HostStays self.entry) }
    {
        self.desktop.frame()
    }

    /// What holds of every host: its configuration is within its ranges, each seat has a session,
    /// and as many words as its table has places, and no turn is over how many clients have come.
    pub fn facts(&self)
        ensures config { IsConfiguration self.now.state.config }
        ensures sessions { length self.now.state.sessions ≡ length self.now.state.config.clients }
        ensures sheets { length self.now.sheets ≡ length self.now.state.config.clients }
        ensures words { (seat : ℕ) → seat < length self.now.state.config.clients
            → length (sheet_in self.now.sheets seat) ≡ size_at self.now.state.config seat }
        ensures turns { AreTurns self.now.turns }
    {
        self.desktop.facts();
    }
}
