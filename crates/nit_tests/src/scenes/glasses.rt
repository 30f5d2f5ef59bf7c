//! The words of a client, before it has called.

ghost use Rattle.std.specs.Prelude.{◌<◌, length};
ghost use Rattle.nit_config.specs.ConfigurationRanges.{IsConfiguration};
ghost use Rattle.nit_scene.specs.Screen.{IsGlass};

use crate::words::repeated;
use nit_config::Config;
use nit_slots::room;
use nit_word::Inked;
use std::alloc::Global;
use std::process::Abort;

/// A glass of this colour for a client.
pub fn glass(rt: &impl Abort, alloc: Global, config: &Config, sid: u32, colour: u32) -> Inked
    requires config { IsConfiguration config.now }
    requires client { sid < length config.now.clients }
    requires colour { colour < 16777216 }
    ensures { IsGlass config.now sid result }
{
    let count = room(config.clients[sid as usize].donation) / 8;
    let words = repeated(rt, alloc, colour, count as usize);
    let ink = repeated(rt, alloc, colour, 1);
    Inked::new(sid, words, ink)
}
