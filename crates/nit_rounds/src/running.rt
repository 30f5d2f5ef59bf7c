//! A run by rounds, on one thread.

ghost use Rattle.std.specs.Prelude.{◌≡◌, ◌≤◌};
ghost use Rattle.nit_rounds.specs.Terms.{AreQuietBut, BeginsRounds, CanDoUserLine, CanDraw};
ghost use Rattle.nit_rounds.specs.Terms.{DoesClientLine, DoesUserLine, HasDrawn, IsOpen};
ghost use Rattle.nit_rounds.specs.Terms.{IsRoundsRun, Line, ShowsEach, ShowsLine, Some, glass_in};
ghost use Rattle.nit_rounds.specs.Terms.{shot_frames_of, slice_get, slice_set};
ghost use Rattle.nit_events.specs.declared.call.Call.{Call as CallOf};
ghost use Rattle.nit_script.specs.declared.line.Line.TheVariants as lines;

use crate::drawing::draw_line;
use crate::laws::{each_line_once, lines_done, turns_tell};
use crate::part::ClientPart;
use crate::stale::{Stale, settle, settle_others};
use crate::turn::Turn;
use crate::turns::Turns;
use crate::viewer::Viewer;
use nit_hall::Parts;
use nit_journal::laws::one_more_entry;
use nit_plan::laws::{buffer_within_table, one_more_line};
use nit_scene::Scene;
use nit_script::{InputLine, Line};
use nit_word::Inked;

/// Does the line of this number of a client's script. Nothing is stale but of its session. What it
/// draws is made on the session's own glass; then a call is a call of the scene, by
/// the own glass.
fn client_line(
    scene: &mut Scene<Inked>,
    own: &mut Inked,
    part: ClientPart<'_>,
    line: usize,
    stale: &mut Option<Stale>,
)
    requires draw { CanDraw scene.old part line stale.old own.old }
    requires quiet { AreQuietBut part.sid scene.old.glasses }
    requires spare { (call : CallOf) → slice_get part.script.now line ≡ Some (lines.Call call)
        → 1 ≤ scene.old.spare }
    requires open { IsOpen scene.old.entries }
    ensures drawn { HasDrawn scene.old scene.new part.entry line stale.new own.new }
    ensures glasses { scene.new.glasses
        ≡ slice_set scene.old.glasses part.entry.sid (glass_in scene.new.glasses part.entry.sid) }
    ensures done { (l : Line) → slice_get part.entry.script.now line ≡ Some l
        → DoesClientLine part.entry.sid l scene.old scene.new own.new }
{
    buffer_within_table();
    one_more_entry();
    draw_line(scene, own, part, line, stale);
    if let Line::Call(call) = &part.script.lines()[line] {
        let _ = scene.call(part.sid, call, own);
    }
}

/// Does a line of the input script: what a device did and a shot are events of the scene. No glass
/// of the scene tells a log, so what a device did leaves the glasses as they are.
fn user_line<V: Viewer>(scene: &mut Scene<Inked>, line: &InputLine, viewer: &mut V)
    requires can { CanDoUserLine line.now scene.old }
    requires viewer { V.fits scene.old.config.width scene.old.config.height viewer.old }
    ensures done { DoesUserLine line.now scene.old scene.new }
    ensures shown { ShowsLine V.shows line.now scene.old viewer.old viewer.new }
    ensures viewer { V.fits scene.old.config.width scene.old.config.height viewer.new }
{
    one_more_entry();
    match line {
        InputLine::Device(dev) => {
            let _ = scene.input(*dev);
        }
        InputLine::Shot => viewer.shoot(scene),
        InputLine::Phase => {}
    }
}

/// Does all lines of the scripts by rounds, on the calling thread. The scene has no entry, and room
/// for one for each call, device event and shot. For each session, in order, there are its script,
/// its plan, and its own glass, which is equal to the scene's and on which no line is done.
///
/// Each stroke, and each clearing of an accepted `buffer` line, is made on the own glass, and
/// stands on the scene's too at the end. The frame of each shot is shown to the viewer, which takes
/// frames of the screen's size. It is what the scripts have drawn by then, so it depends on the
/// configuration and the scripts alone. A [`Desk`](crate::Desk) takes them if its text has a byte
/// for each of a picture, and puts each as a picture until a put is refused. The last picture is
/// not taken.
pub fn run_rounds<V: Viewer>(
    scene: &mut Scene<Inked>,
    owns: &mut [Inked],
    parts: Parts<'_>,
    viewer: &mut V,
)
    requires begins { BeginsRounds parts.scripts.now parts.plans.now parts.input.now scene.old
        owns.old }
    requires viewer { V.fits scene.old.config.width scene.old.config.height viewer.old }
    ensures run { IsRoundsRun parts.entry.scripts.now parts.entry.input.now scene.old scene.new
        owns.new }
    ensures shown { ShowsEach V.shows
        (shot_frames_of scene.old.config parts.entry.scripts.now parts.entry.input.now)
        viewer.old viewer.new }
    ensures viewer { V.fits scene.old.config.width scene.old.config.height viewer.new }
{
    each_line_once();
    lines_done();
    turns_tell();
    one_more_line();
    one_more_entry();
    let _ = scene.size();
    let _ = scene.journal();
    let mut turns = Turns::new(parts.scripts, parts.input);
    let mut stale = None;
    'rounds: while let Some(turn) = turns.next() {
        match turn {
            Turn::Client { sid, line } => {
                settle_others(scene, owns, &mut stale, sid);
                let own = &mut owns[sid as usize];
                let script = &parts.scripts[sid as usize];
                let plan = &parts.plans[sid as usize];
                let part = ClientPart { sid, script, plan };
                client_line(scene, own, part, line, &mut stale);
            }
            Turn::User { line } => {
                settle(scene, owns, stale);
                user_line(scene, &parts.input.lines()[line], viewer);
                stale = None;
            }
        }
    }
    settle(scene, owns, stale);
    let _ = scene.journal();
}
