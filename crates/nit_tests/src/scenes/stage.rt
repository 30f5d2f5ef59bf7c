//! A scene of two clients that does what the lines of a text say, and counts what is loaded.
//!
//! A line has the number of a client, 0 or 1, and a call of it, or what the user does.

ghost use Rattle.std.specs.Prelude.{◌≡◌, IsTrue, length};
ghost use Rattle.nit_events.specs.Ranges.{IsDevice};
ghost use Rattle.nit_config.specs.ConfigurationRanges.{IsConfiguration};
ghost use Rattle.nit_scene.specs.Screen.{IsGlass};

use crate::checks::{found, must, same};
use crate::scenes::glasses::glass;
use crate::words::repeated;
use nit_config::{Config, read_config, run_is_configured};
use nit_events::{Call, Device};
use nit_scene::{Counts, Scene};
use nit_script::{take_call, take_device};
use nit_word::{Glass, Inked};
use std::alloc::Global;
use std::cell::Cell;
use std::marker::Model;
use std::process::Abort;

/// Two clients on a screen of 8 by 4.
pub const TWO: &str = "[screen]\nwidth = 8\nheight = 4\n\n[input]\nscript = \"i\"\n\n\
                       [[client]]\nlabel = \"a\"\ndonation = 65536\nscript = \"a\"\n\n\
                       [[client]]\nlabel = \"b\"\ndonation = 65536\nscript = \"b\"\n";

/// Room for the entries of a run.
const ROOM: usize = 64;

/// How many words of each session were loaded.
pub type Loads = [Cell<u8>; 2];

/// The digits of how many words of each session were loaded since this was asked last. From 10 on
/// there is none.
pub fn taken(loads: &Loads) -> [u8; 2] {
    let first = loads[0].replace(0).saturating_add(b'0');
    let second = loads[1].replace(0).saturating_add(b'0');
    [first, second]
}

/// A glass that counts its loads.
#[derive(Drop)]
pub struct Counting<'a> {
    glass: Inked,
    loads: &'a Cell<u8>,
}

impl Glass for Counting<'_> {
    type Rest = ();

    ghost sight = { λ g. g.glass };

    ghost rest = { λ _. tt };

    fn load(&mut self, i: usize) -> u32 {
        self.loads.set(self.loads.get().saturating_add(1));
        self.glass.load(i)
    }
}

/// A red glass of the first client and a blue one of the second, which count their loads here.
fn glasses<'a>(
    rt: &impl Abort,
    alloc: Global,
    config: &Config,
    loads: &'a Loads,
) -> (Counting<'a>, Counting<'a>)
    requires config { IsConfiguration config.now }
    requires two { length config.now.clients ≡ 2 }
    ensures first { IsGlass config.now 0 result.0.glass }
    ensures second { IsGlass config.now 1 result.1.glass }
{
    let first = Counting {
        glass: glass(rt, alloc, config, 0, 0xFF0000),
        loads: &loads[0],
    };
    let second = Counting {
        glass: glass(rt, alloc, config, 1, 0x0000FF),
        loads: &loads[1],
    };
    (first, second)
}

/// A scene, its two clients, and for how many lines more there is room.
#[derive(Drop)]
pub struct Stage<'a, G: Glass + Drop> {
    scene: Scene<G>,
    first: Counting<'a>,
    second: Counting<'a>,
    left: usize,
}

impl<'a, G: Glass + Drop> Model for Stage<'a, G> {
    ghost use Rattle.std.specs.Prelude.{◌≡◌, length};
    ghost use Rattle.nit_journal.specs.Replay.{IsOpen};
    ghost use Rattle.nit_scene.specs.Screen.{IsGlass};

    ghost Value = { Unit {0} };

    ghost view = { λ _. tt };

    ghost invariant = { λ s. (length s.scene.config.clients ≡ 2) × IsOpen s.scene.entries
        × (s.scene.spare ≡ s.left) × IsGlass s.scene.config 0 s.first.glass
        × IsGlass s.scene.config 1 s.second.glass };
}

/// A configuration of two clients.
fn two_clients(rt: &impl Abort, alloc: Global, text: &str) -> Config
    ensures config { IsConfiguration result }
    ensures two { length result.clients ≡ 2 }
{
    run_is_configured();
    let config = read_config(alloc, text.as_bytes()).expect(rt, "a configuration");
    must(rt, text, config.clients.len() == 2);
    config
}

/// The stage of the two clients of a configuration. It and its scene have glasses of their own.
pub fn set_up<'a>(
    rt: &impl Abort,
    alloc: Global,
    text: &str,
    loads: &'a Loads,
) -> Stage<'a, Counting<'a>> {
    let config = two_clients(rt, alloc, text);
    let mut all = Vec::with_capacity(alloc, 2).expect(rt, "memory for glasses");
    let (first, second) = glasses(rt, alloc, &config, loads);
    all.push_reserved(first);
    all.push_reserved(second);
    let scene = Scene::new(alloc, &config, all, ROOM).expect(rt, "memory for a scene");
    let (first, second) = glasses(rt, alloc, &config, loads);
    Stage {
        scene,
        first,
        second,
        left: ROOM,
    }
}

/// The stage of the two clients of a configuration, whose scene has a red and a blue glass that can
/// be drawn in: the first word of the red one is 0.
pub fn set_up_drawn<'a>(
    rt: &impl Abort,
    alloc: Global,
    text: &str,
    loads: &'a Loads,
) -> Stage<'a, Inked> {
    let config = two_clients(rt, alloc, text);
    let mut all = Vec::with_capacity(alloc, 2).expect(rt, "memory for glasses");
    all.push_reserved(glass(rt, alloc, &config, 0, 0xFF0000));
    all.push_reserved(glass(rt, alloc, &config, 1, 0x0000FF));
    let mut scene = Scene::new(alloc, &config, all, ROOM).expect(rt, "memory for a scene");
    scene.draw(0, 0, 0);
    let (first, second) = glasses(rt, alloc, &config, loads);
    Stage {
        scene,
        first,
        second,
        left: ROOM,
    }
}

/// Whether the numbers of a device event are in range.
fn is_device(dev: Device) -> bool
    ensures { IsTrue result → IsDevice dev }
{
    match dev {
        Device::Press(code) | Device::Release(code) => code <= 767,
        Device::Motion(..) => true,
        Device::Wheel(turn) => turn >= -127,
    }
}

/// The call that these words are.
fn call_of(rt: &impl Abort, words: &[u8]) -> Call {
    match take_call(words) {
        Some((call, [])) => call,
        _ => panic!(rt; "no call"),
    }
}

/// What the user does by these words.
fn device_of(rt: &impl Abort, words: &[u8]) -> Device
    ensures { IsDevice result }
{
    let (dev, rest) = found(rt, "what the user does", take_device(words));
    must(rt, "nothing behind it", rest.is_empty());
    must(rt, "numbers in range", is_device(dev));
    dev
}

impl<G: Glass + Drop> Stage<'_, G> {
    /// The frame that the scene keeps.
    pub fn frame(&self) -> &[u32] {
        self.scene.frame()
    }

    /// How many slots, views and sessions there are.
    pub fn counts(&self) -> Counts {
        self.scene.counts()
    }

    /// Serves a line.
    pub fn serve(&mut self, rt: &impl Abort, line: &[u8]) {
        must(rt, "room", self.left > 0);
        self.left -= 1;
        match line {
            [b'0', b' ', words @ ..] => {
                let _reply = self.scene.call(0, &call_of(rt, words), &mut self.first);
            }
            [b'1', b' ', words @ ..] => {
                let _reply = self.scene.call(1, &call_of(rt, words), &mut self.second);
            }
            words => {
                let _routed = self.scene.input(device_of(rt, words));
            }
        }
    }

    /// Takes a picture.
    pub fn shoot(&mut self, rt: &impl Abort, alloc: Global) {
        must(rt, "room", self.left > 0);
        self.left -= 1;
        let mut picture = repeated(rt, alloc, 0, self.scene.frame().len());
        let _number = self.scene.shot(&mut picture);
    }

    /// The frame that the scene keeps is its last picture, for which all words are loaded and all
    /// places worked out again.
    pub fn finish(self, rt: &impl Abort, alloc: Global) {
        let Stage {
            mut scene,
            first,
            second,
            left,
        } = self;
        must(rt, "room", left > 0);
        let kept = Vec::from_slice(alloc, scene.frame()).expect(rt, "memory for a frame");
        let mut anew = repeated(rt, alloc, 0, kept.len());
        scene.finish(&mut [first, second], &mut anew);
        let _journal = scene.into_journal();
        same(rt, "lines left and a frame", &(left, &kept), &(left, &anew));
    }
}
