//! The inner run: by turns, with its frames taken into a nest.

ghost use Rattle.std.specs.Prelude.{◌≡◌, ◌*◌, All, length, None, []};
ghost use Rattle.nit_perform.specs.Terms.{IsJournal, IsRoundsOpening, IsRunnable, IsWord, NestsRun};
ghost use Rattle.nit_perform.specs.Terms.{TakesAll, TakesNext, by_turns, first_forbidden};
ghost use Rattle.nit_perform.specs.Terms.{frames_of, phases, run_files};

use crate::last::take_last;
use crate::opening::{OpenedRounds, open};
use nit_config::Config;
use nit_events::Entry;
use nit_hall::Parts;
use nit_journal::laws::one_more_entry;
use nit_nested::laws::lines_are_counted;
use nit_nested::{Nest, NestError};
use nit_plan::laws::{buffer_within_table, one_more_line};
use nit_rounds::laws::{drawn_as_replayed, rounds_are_whole};
use nit_rounds::{Viewer, run_rounds};
use nit_scene::Scene;
use nit_script::{Client, Input};
use nit_word::Inked;
use std::alloc::Global;

/// What an inner run leaves: the script that shows its frames, and its journal.
#[derive(Drop)]
pub struct Inner {
    pub script: Client,
    pub journal: Vec<Entry>,
}

/// A nest. Once a frame was refused, `fault` keeps the refusal, and no frame is taken any more.
#[derive(Drop)]
struct Nesting {
    nest: Nest,
    fault: Option<NestError>,
}

/// Shots go into the nest.
impl Viewer for Nesting {
    ghost use Rattle.std.specs.Prelude.{◌≡◌};
    ghost use Rattle.nit_perform.specs.InnerRun.{TakesNext};

    ghost fits = { λ width height n. (n.nest.w ≡ width) × (n.nest.h ≡ height) };

    ghost shows = { λ f before after'.
        TakesNext f.words (record { nest = before.nest; fault = before.fault })
        (record { nest = after'.nest; fault = after'.fault }) };

    fn shoot(&mut self, scene: &mut Scene<Inked>) {
        let _ = scene.record_shot();
        self.take(scene.frame());
    }
}

impl Nesting {
    /// Takes the frame into the nest, unless one was refused before.
    fn take(&mut self, frame: &[u32])
        requires frame { length frame.now ≡ self.old.nest.w * self.old.nest.h }
        requires words { All IsWord frame.now }
        ensures taken { TakesNext frame.now
            (record { nest = self.old.nest; fault = self.old.fault })
            (record { nest = self.new.nest; fault = self.new.fault }) }
        ensures size { (self.new.nest.w ≡ self.old.nest.w) × (self.new.nest.h ≡ self.old.nest.h) }
    {
        if self.fault.is_none() {
            self.fault = self.nest.frame(frame).err();
        }
    }
}

/// Runs the scripts of a configuration by turns, keeping its files back, and makes the script in
/// which this one shows the run's frames. This one has as many phases as there are frames, and
/// holds no line that may not stand there.
///
/// # Errors
///
/// `TooLong` exactly where a `buffer` line, the lines of all frames and those of the script are
/// more than 65,536 together, and `NoMemory` where memory runs out.
pub fn nest_run(
    alloc: Global,
    config: &Config,
    scripts: &[Client],
    input: &Input,
    own: &Client,
) -> Result<Inner, NestError>
    requires runnable { IsRunnable (by_turns (run_files config.now scripts.now input.now)) }
    requires may { first_forbidden 1 own.now ≡ None }
    requires phases { phases own.now
        ≡ length (frames_of (run_files config.now scripts.now input.now)) }
    ensures { NestsRun (run_files config.now scripts.now input.now) own.now result }
{
    lines_are_counted();
    let Ok(opened) = open(alloc, config, scripts, input) else {
        return Err(NestError::NoMemory);
    };
    let AfterRounds { nesting, journal } = play(alloc, opened, config, scripts, input);
    if let Some(refusal) = nesting.fault {
        return Err(refusal);
    }
    match nesting.nest.script(own) {
        Ok(script) => Ok(Inner { script, journal }),
        Err(refusal) => Err(refusal),
    }
}

/// What the rounds of an inner run leave.
#[derive(Drop)]
struct AfterRounds {
    nesting: Nesting,
    journal: Vec<Entry>,
}

/// Does the rounds, and takes the frames of the shots and the last one into a nest.
fn play(
    alloc: Global,
    opened: OpenedRounds,
    config: &Config,
    scripts: &[Client],
    input: &Input,
) -> AfterRounds
    requires { IsRoundsOpening config.now scripts.now input.now opened }
    ensures journal { IsJournal (by_turns (run_files config.now scripts.now input.now))
        result.journal.items }
    ensures frames { TakesAll (frames_of (run_files config.now scripts.now input.now))
        (record {
          nest = record { w = config.now.width; h = config.now.height; frames = [] };
          fault = None;
        })
        (record { nest = result.nesting.nest; fault = result.nesting.fault }) }
{
    drawn_as_replayed();
    rounds_are_whole();
    one_more_entry();
    one_more_line();
    buffer_within_table();
    let OpenedRounds {
        mut scene,
        mut owns,
        plans,
        text: _,
    } = opened;
    let mut nesting = Nesting {
        nest: Nest::new(alloc, config.width, config.height),
        fault: None,
    };
    let parts = Parts {
        scripts,
        plans: &plans,
        input,
    };
    run_rounds(&mut scene, &mut owns, parts, &mut nesting);
    take_last(&mut scene, &mut owns);
    nesting.take(scene.frame());
    AfterRounds {
        nesting,
        journal: scene.into_journal().into_entries(),
    }
}
