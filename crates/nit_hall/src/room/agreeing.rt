//! What a client's own end of its words and the scene's end agree on: which words may stand there.

ghost use Rattle.std.specs.Prelude.{◌≡◌, ◌≤◌, IsSome, Some};
ghost use Rattle.nit_hall.specs.Terms.{CanAgree, HasStage, IsDonation, IsGlass, line_stages};
ghost use Rattle.nit_hall.specs.Terms.{new_sight, stretch, told_words, watching_sight};
ghost use Rattle.nit_hall.specs.Terms.{with_end_stages, with_stages, words_after};

use nit_pixels::{Canvas, Lens, Stages};
use nit_plan::laws::stages_of_a_script;
use nit_scene::Scene;
use nit_script::Client;
use std::marker::Brand;

/// A client, and a line of its script.
#[derive(Drop)]
pub(crate) struct LineOf<'s> {
    pub(crate) sid: u32,
    pub(crate) script: &'s Client,
    pub(crate) donation: u32,
    pub(crate) line: u32,
}

/// The reader's end of a blank canvas. The two agree on the first stretch of the script.
pub(crate) fn agree_first<'a>(canvas: &mut Canvas<'a>, script: &Client, donation: u32) -> Lens<'a>
    requires donation { IsDonation donation }
    requires blank { canvas.old.sight ≡ new_sight canvas.old.sight.owner script.now donation }
    ensures canvas { canvas.new ≡ record canvas.old {
      sight = with_stages (stretch script.now donation 0) canvas.old.sight;
    } }
    ensures lens { result.sight
        ≡ watching_sight (stretch script.now donation 0) canvas.old.sight }
    ensures buffer { result.stand.buffer ≡ canvas.old.stand.buffer }
{
    stages_of_a_script();
    let mut lens = canvas.watch();
    first_agreed::<Brand>(canvas, &mut lens, script, donation);
    lens
}

/// The two ends agree on the stages that the call picks: the first stretch of the script.
fn first_agreed<'a, X: Stages>(
    canvas: &mut Canvas<'a>,
    lens: &mut Lens<'a>,
    script: &Client,
    donation: u32,
)
    requires picked { X.stages ≡ stretch script.now donation 0 }
    requires buffer { lens.old.stand.buffer ≡ canvas.old.stand.buffer }
    requires watches { IsSome lens.old.sight.stages }
    requires watched { IsSome canvas.old.sight.stages }
    requires held { HasStage (with_stages X.stages canvas.old.sight)
        (told_words canvas.old.sight.words) }
    ensures canvas { canvas.new
        ≡ record canvas.old { sight = with_stages X.stages canvas.old.sight } }
    ensures lens { lens.new ≡ record lens.old { sight = with_stages X.stages lens.old.sight } }
{
    let _ = script;
    let _ = donation;
    canvas.agree::<X>(lens);
}

/// The two ends agree on what this line leaves. The lines before it are done.
pub(crate) fn agree_on_line<'a>(
    scene: &mut Scene<Lens<'a>>,
    at: &LineOf<'_>,
    canvas: &mut Canvas<'a>,
    spare: &mut Lens<'a>,
)
    requires can { CanAgree scene.old at.now.sid canvas.old spare.old }
    requires words { canvas.old.sight.words
        ≡ Some (words_after at.now.script.now at.now.donation at.now.line) }
    ensures scene { scene.new ≡ record scene.old {
      glasses = with_end_stages at.now.sid
          (line_stages at.now.script.now at.now.donation at.now.line) scene.old.glasses;
    } }
    ensures canvas { canvas.new ≡ record canvas.old {
      sight = with_stages (line_stages at.now.script.now at.now.donation at.now.line)
          canvas.old.sight;
    } }
    ensures spare { spare.new ≡ spare.old }
{
    stages_of_a_script();
    agree::<Brand>(scene, at, canvas, spare);
}

/// The two ends agree on the stretch from this line on. The lines before it are done.
pub(crate) fn agree_on_stretch<'a>(
    scene: &mut Scene<Lens<'a>>,
    at: &LineOf<'_>,
    canvas: &mut Canvas<'a>,
    spare: &mut Lens<'a>,
)
    requires can { CanAgree scene.old at.now.sid canvas.old spare.old }
    requires words { canvas.old.sight.words
        ≡ Some (words_after at.now.script.now at.now.donation at.now.line) }
    ensures scene { scene.new ≡ record scene.old {
      glasses = with_end_stages at.now.sid
          (stretch at.now.script.now at.now.donation at.now.line) scene.old.glasses;
    } }
    ensures canvas { canvas.new ≡ record canvas.old {
      sight = with_stages (stretch at.now.script.now at.now.donation at.now.line)
          canvas.old.sight;
    } }
    ensures spare { spare.new ≡ spare.old }
{
    stages_of_a_script();
    agree::<Brand>(scene, at, canvas, spare);
}

/// The two ends agree on the stages that the call picks, which have the canvas's words.
fn agree<'a, X: Stages>(
    scene: &mut Scene<Lens<'a>>,
    at: &LineOf<'_>,
    canvas: &mut Canvas<'a>,
    spare: &mut Lens<'a>,
)
    requires can { CanAgree scene.old at.now.sid canvas.old spare.old }
    requires held { HasStage (with_stages X.stages canvas.old.sight)
        (told_words canvas.old.sight.words) }
    ensures scene { scene.new ≡ record scene.old {
      glasses = with_end_stages at.now.sid X.stages scene.old.glasses;
    } }
    ensures canvas { canvas.new
        ≡ record canvas.old { sight = with_stages X.stages canvas.old.sight } }
    ensures spare { spare.new ≡ spare.old }
{
    scene.exchange(at.sid, spare);
    canvas.agree::<X>(spare);
    scene.exchange(at.sid, spare);
}
