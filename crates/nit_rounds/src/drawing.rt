//! What a client's line draws on the own glass of its session.

ghost use Rattle.std.specs.Prelude.{◌≡◌, ◌<◌, ℕ, false, slice_set};
ghost use Rattle.nit_rounds.specs.Terms.{CanDraw, HasDrawn, Step, glass_in, is_set_by};

use crate::part::ClientPart;
use crate::stale::{Stale, add};
use nit_events::Call;
use nit_plan::laws::{buffer_within_table, one_more_line, other_places_stay, step_of_a_line};
use nit_plan::{area_set, stroke};
use nit_scene::Scene;
use nit_script::Line;
use nit_word::Inked;

/// Does what the line of this number of the script draws, on the session's own glass, which is
/// stale then. Nothing is stale but of this session. The plan is that of the script with the
/// session's opening donation.
pub(crate) fn draw_line(
    scene: &mut Scene<Inked>,
    own: &mut Inked,
    part: ClientPart<'_>,
    line: usize,
    stale: &mut Option<Stale>,
)
    requires draw { CanDraw scene.old part line stale.old own.old }
    ensures drawn { HasDrawn scene.old scene.new part.entry line stale.new own.new }
    ensures scene { scene.new ≡ record scene.old {
      glasses = slice_set scene.old.glasses part.entry.sid
          (glass_in scene.new.glasses part.entry.sid);
    } }
{
    buffer_within_table();
    one_more_line();
    step_of_a_line();
    other_places_stay();
    if !may_draw(&part.script.lines()[line]) {
        return;
    }
    stroke(own, part.script, part.plan, line);
    let step = part.plan.steps()[line];
    let area = area_set(&part.script.lines()[line], step);
    let later = Stale {
        sid: part.sid,
        w: step.w,
        area,
    };
    *stale = Some(add(scene, own, *stale, later));
}

/// Whether the line may set words of the session's buffer.
fn may_draw(line: &Line) -> bool
    ensures { result ≡ false → (step : Step) (i j : ℕ) → is_set_by line.now step i j ≡ false }
{
    matches!(line, Line::Stroke(_) | Line::Call(Call::Buffer(..)))
}
