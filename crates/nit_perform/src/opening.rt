//! The memory of a run, all of which is taken before its first round.

ghost use Rattle.std.specs.Prelude.{◌≡◌, ◌+◌, IfOk, length, All, List, ◌≤◌, ◌*◌};
ghost use Rattle.nit_perform.specs.Terms.{AreInkedPlans, AreScriptsOf, IsDonation, IsPlanOf};
ghost use Rattle.nit_perform.specs.Terms.{IsRoundsOpening, IsRunConfiguration, IsWord, Line};
ghost use Rattle.nit_perform.specs.Terms.{glass_after, glasses_of, picture_length, plans_of};

use nit_config::{Config, run_is_configured};
use nit_hall::line_count;
use nit_plan::laws::{buffer_within_table, one_more_line};
use nit_plan::{Plan, plan_of};
use nit_rect::NoMemory;
use nit_report::ppm_len;
use nit_rounds::laws::each_line_once;
use nit_scene::Scene;
use nit_script::{Client, Input};
use nit_slots::table_size;
use nit_word::Inked;
use std::alloc::Global;

/// A run before its first round: the scene, and for each client its plan and its own glass; and the
/// room for the bytes of a picture's file.
#[derive(Drop)]
pub struct OpenedRounds {
    pub scene: Scene<Inked>,
    pub owns: Vec<Inked>,
    pub plans: Vec<Plan>,
    pub text: Vec<u8>,
}

/// Takes all memory of a run. The journal has room for an entry for each line of the scripts, and
/// for the last picture.
pub fn open(
    alloc: Global,
    config: &Config,
    scripts: &[Client],
    input: &Input,
) -> Result<OpenedRounds, NoMemory>
    requires { AreScriptsOf config.now scripts.now }
    ensures { IfOk result (λ o. IsRoundsOpening config.now scripts.now input.now o) }
{
    each_line_once();
    buffer_within_table();
    run_is_configured();
    let plans = plans_of(alloc, config, scripts)?;
    let owns = glasses_of(alloc, config, scripts, &plans)?;
    let glasses = glasses_of(alloc, config, scripts, &plans)?;
    let lines = line_count(scripts, input);
    let scene = Scene::new(alloc, config, glasses, lines + 1)?;
    let text = blank_text(alloc, config)?;
    Ok(OpenedRounds {
        scene,
        owns,
        plans,
        text,
    })
}

/// The plan of each client's script. Its ink is of words below 2^24.
pub fn plans_of(alloc: Global, config: &Config, scripts: &[Client]) -> Result<Vec<Plan>, NoMemory>
    requires { AreScriptsOf config.now scripts.now }
    ensures plans { IfOk result (λ v. v.items ≡ plans_of config.now scripts.now) }
    ensures words { IfOk result (λ v. All (λ p. All IsWord p.ink) v.items) }
{
    let clients = config.clients.as_slice();
    let mut plans = Vec::new(alloc);
    for (sid, script) in scripts.iter().enumerate() {
        plans.push(plan_of(alloc, script, clients[sid].donation)?)?;
    }
    Ok(plans)
}

/// A glass for each client, in order, on which no line is done. The plans are those of the scripts.
fn glasses_of(
    alloc: Global,
    config: &Config,
    scripts: &[Client],
    plans: &[Plan],
) -> Result<Vec<Inked>, NoMemory>
    requires plans { plans.now ≡ plans_of config.now scripts.now }
    requires inked { AreInkedPlans config.now plans.now }
    ensures { IfOk result (λ v. v.items ≡ glasses_of config.now scripts.now) }
{
    let clients = config.clients.as_slice();
    let mut glasses = Vec::new(alloc);
    for (sid, plan) in plans.iter().enumerate() {
        glasses.push(glass(alloc, sid as u32, plan, clients[sid].donation)?)?;
    }
    Ok(glasses)
}

/// The glass of a session that opens with this donation: the words of its table are 0, and its ink
/// is that of the plan.
fn glass(alloc: Global, sid: u32, plan: &Plan, donation: u32) -> Result<Inked, NoMemory>
    requires donation { IsDonation donation }
    requires words { All IsWord plan.now.ink }
    ensures { (script : List Line) → IsPlanOf script donation plan.now
        → IfOk result (λ g. g ≡ glass_after sid script donation 0) }
{
    one_more_line();
    let ink = plan.ink().to_vec(alloc)?;
    Ok(Inked::blank(alloc, sid, table_size(donation) as usize, ink)?)
}

/// A word for each pixel of the screen.
pub fn blank_frame(alloc: Global, config: &Config) -> Result<Vec<u32>, NoMemory>
    requires { IsRunConfiguration config.now }
    ensures { IfOk result (λ v. length v.items ≡ config.now.width * config.now.height) }
{
    let pixels = config.width as usize * config.height as usize;
    Ok(vec![in alloc; 0; pixels]?)
}

/// A byte for each of a picture of the screen.
pub fn blank_text(alloc: Global, config: &Config) -> Result<Vec<u8>, NoMemory>
    requires { IsRunConfiguration config.now }
    ensures { IfOk result (λ v. length v.items
        ≡ picture_length config.now.width config.now.height) }
{
    Ok(vec![in alloc; 0; ppm_len(config.width, config.height)]?)
}
