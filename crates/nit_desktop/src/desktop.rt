//! All sessions on one screen, and no journal.

ghost use Rattle.std.specs.Prelude.{◌≡◌, ◌-◌, ◌^◌, ◌<◌, ◌≤◌, ◌*◌, All, false, length, true};
ghost use Rattle.nit_desktop.specs.Terms.{AreGlasses, AreInked, IsDevice, IsFrameShown, IsLive};
ghost use Rattle.nit_desktop.specs.Terms.{IsServedEntry, Painted, asks_view, deliveries_of};
ghost use Rattle.nit_desktop.specs.Terms.{is_accepted, kills, route, routed_as, scenery_of, serve};
ghost use Rattle.nit_desktop.specs.Terms.{session};
ghost use Rattle.nit_events.specs.declared.entry.Entry.TheVariants as entry;

mod opening;
mod reading;
mod seats;

use nit_events::{Call, Device, Reply, Routed};
use nit_journal::laws::live_sessions_stay;
use nit_screen::Screen;
use nit_screen::laws::{ink_stays, names_stay_own, own_names_show_labels, raw_stays_raw};
use nit_word::Glasses;
use std::marker::Model;

/// All sessions on one screen, for as long as a host program runs. It counts the entries that it
/// serves, 2^62 in all, which no machine comes to.
#[derive(Drop)]
pub struct Desktop {
    pub(crate) screen: Screen,
    pub(crate) left: u64,
}

impl Model for Desktop {
    ghost use Rattle.nit_desktop.specs.Below.{state_of};
    ghost use Rattle.nit_desktop.specs.Desktop.{DesktopModel, IsDesktop};

    ghost Value = { DesktopModel };

    ghost view = { λ d. record {
      state = state_of d.screen.serving;
      left = d.left;
      raw = d.screen.raw;
    } };

    ghost invariant = { λ d. IsDesktop (state_of d.screen.serving) d.screen.raw d.left };
}

impl Desktop {
    ghost use Rattle.std.specs.Borrow.{sem};
    ghost use Rattle.nit_desktop.specs.Lending.{StaysSame};

    /// Serves a call of the session `sid`: each pixel that it makes dirty is loaded once, and no
    /// other. A refused call changes nothing but the count of entries. A session makes at most
    /// 2^32 - 3 views since it opens.
    pub fn call<L: Glasses>(&mut self, sid: u32, call: &Call, glasses: &mut L) -> Reply
        requires session { sid < length self.old.state.sessions }
        requires left { 1 ≤ self.old.left }
        requires handles { asks_view call.now ≡ true
            → (session self.old.state sid).next < 2 ^ 32 - 2 }
        requires glasses { AreGlasses self.old.state.config (L.sights glasses.old) }
        ensures reply { result ≡ (serve (session self.old.state sid) call.now).reply }
        ensures served { IsServedEntry self.old self.new (entry.Call sid call.now result) }
        ensures painted { Painted self.old.state (entry.Call sid call.now result) self.new.state
            (L.sights glasses.old) (L.sights glasses.new) self.old.raw self.new.raw }
        ensures rest { L.rest glasses.new ≡ L.rest glasses.old }
        ensures inked { AreInked self.old.state (L.sights glasses.old) self.old.raw
            → AreInked self.new.state (L.sights glasses.new) self.new.raw }
        ensures refused { is_accepted result ≡ false
            → (self.new.state ≡ self.old.state) × (self.new.raw ≡ self.old.raw) ×
            (glasses.new ≡ glasses.old) }
    {
        raw_stays_raw();
        ink_stays();
        names_stay_own();
        live_sessions_stay();
        self.left -= 1;
        self.screen.call(sid, call, glasses)
    }

    /// Serves what the user does. A session that is locked out loses its views, and the pixels that
    /// it owned are loaded again; nothing else is loaded.
    pub fn input<L: Glasses>(&mut self, dev: Device, glasses: &mut L) -> Routed
        requires device { IsDevice dev }
        requires left { 1 ≤ self.old.left }
        requires glasses { AreGlasses self.old.state.config (L.sights glasses.old) }
        ensures routed { let s = self.old.state in result ≡ routed_as
            (route s.config s.input s.stack dev).deliveries }
        ensures delivered { let s = self.old.state in deliveries_of result ≡
            (route s.config s.input s.stack dev).deliveries }
        ensures served { IsServedEntry self.old self.new (entry.Input dev result) }
        ensures painted { Painted self.old.state (entry.Input dev result) self.new.state
            (L.sights glasses.old) (L.sights glasses.new) self.old.raw self.new.raw }
        ensures rest { L.rest glasses.new ≡ L.rest glasses.old }
        ensures inked { AreInked self.old.state (L.sights glasses.old) self.old.raw
            → AreInked self.new.state (L.sights glasses.new) self.new.raw }
        ensures live { All (λ d. IsLive self.old.state d.sid) (deliveries_of result) }
        ensures quiet { kills (deliveries_of result) ≡ false
            → (self.new.raw ≡ self.old.raw) × (glasses.new ≡ glasses.old) }
    {
        raw_stays_raw();
        ink_stays();
        names_stay_own();
        live_sessions_stay();
        self.left -= 1;
        self.screen.input(dev, glasses)
    }

    /// The frame that the screen shows now: a word for each pixel, row by row from the top, each
    /// below 2^24. What is seen of the desktop stays as it is.
    pub fn frame(&mut self) -> &[u32]
        ensures shown { IsFrameShown (scenery_of self.old.state) self.old.raw result.now }
        ensures pixels { length result.now
            ≡ self.old.state.config.width * self.old.state.config.height }
        ensures* same { sem 𝓛 (StaysSame self.entry) }
    {
        own_names_show_labels();
        self.screen.facts();
        self.screen.show();
        self.screen.frame()
    }
}
