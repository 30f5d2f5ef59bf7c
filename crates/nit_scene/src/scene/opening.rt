//! A scene before its first entry.

ghost use Rattle.std.specs.Prelude.{◌≡◌, ◌+◌, ◌≤◌, IfOk, ◌*◌, [], replicate};
ghost use Rattle.nit_scene.specs.Terms.{AreListedGlasses, IsConfiguration, bare_word, shots, spare};

use crate::scene::Scene;
use nit_config::Config;
use nit_glyph::Lettering;
use nit_journal::Journal;
use nit_rect::NoMemory;
use nit_screen::Screen;
use nit_word::Glass;
use std::alloc::Global;

impl<G: Glass + Drop> Scene<G> {
    /// A scene of this configuration without any view, whose journal is empty and has room for
    /// `room` entries, at most 1,114,113. There is a glass for each client, in order, with the
    /// session's number as owner and a word for each place of its table of pixels. All memory that
    /// the scene will ever use is taken here.
    pub fn new(
        alloc: Global,
        config: &Config,
        glasses: Vec<G>,
        room: usize,
    ) -> Result<Scene<G>, NoMemory>
        requires config { IsConfiguration config.now }
        requires room { room ≤ 1114113 }
        requires glasses { AreListedGlasses G.sight config.now glasses.items }
        ensures { IfOk result (λ s. s ≡ record {
          config = config.now;
          entries = [];
          spare = room;
          raw = replicate (config.now.width * config.now.height) bare_word;
          glasses = glasses.items;
        }) }
    {
        // a configuration that is read has plain texts: so says its model, which reading it shows
        let _bar = config.bar;
        let screen = Screen::new(alloc, config, Lettering::PLAIN)?;
        let journal = Journal::with_room(alloc, room)?;
        Ok(Scene {
            screen,
            glasses,
            journal,
            shots: 0,
        })
    }
}
