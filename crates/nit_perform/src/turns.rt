//! A run by turns.

ghost use Rattle.nit_perform.specs.Terms.{IsRunnable, Runs, false, setup_of, true};

use crate::last::put_last;
use crate::opening::{OpenedRounds, open};
use crate::ran::{LeftDesk, Ran, leave_desk};
use crate::texts::leave_texts;
use nit_config::Config;
use nit_hall::Parts;
use nit_journal::laws::one_more_entry;
use nit_plan::laws::{buffer_within_table, one_more_line};
use nit_rect::NoMemory;
use nit_rounds::laws::rounds_are_whole;
use nit_rounds::{Desk, PictureName, run_rounds};
use nit_script::{Client, Input};
use nit_store::Store;
use std::alloc::Global;

/// Takes all memory of a run, and does it by rounds, up to its end. Each shot is put as it is
/// taken, then the last picture, and then the texts, until a put is refused. Where memory runs out
/// before the first round, nothing was done; the rounds take none.
pub fn run_turns<S: Store>(
    alloc: Global,
    config: &Config,
    scripts: &[Client],
    input: &Input,
    store: &mut S,
) -> Result<Ran, NoMemory>
    requires { IsRunnable (setup_of config.now scripts.now input.now true false) }
    ensures { Runs (S.shown store.old) (setup_of config.now scripts.now input.now true false)
        (S.shown store.new) result }
{
    rounds_are_whole();
    one_more_entry();
    one_more_line();
    buffer_within_table();
    let opened = open(alloc, config, scripts, input)?;
    let OpenedRounds {
        mut scene,
        mut owns,
        plans,
        text,
    } = opened;
    let mut desk = Desk {
        store,
        frame: Vec::new(alloc),
        text,
        fault: None,
        tried: PictureName::Final,
    };
    let parts = Parts {
        scripts,
        plans: &plans,
        input,
    };
    run_rounds(&mut scene, &mut owns, parts, &mut desk);
    put_last(&mut scene, &mut owns, &mut desk);
    let LeftDesk { store, fault } = leave_desk(desk);
    Ok(leave_texts(alloc, store, fault, &config.clients, scene))
}
