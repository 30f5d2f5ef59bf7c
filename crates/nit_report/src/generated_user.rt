//! The user's script of a generated run.

ghost use Rattle.std.specs.Prelude.{◌≡◌, ◌++◌, ℕ, [], ◌∷◌, IfOk, OnOk};
ghost use Rattle.nit_report.specs.Terms.{AppendsDraws, click, clicks, user_script, xray_shot};

use crate::drawn_lines::moved;
use crate::stream::Stream;
use nit_events::Device;
use nit_rect::NoMemory;
use nit_script::{Input, InputLine};
use std::alloc::Global;

/// The number of the user's stream.
const USER: u32 = 8;

/// How many times the user clicks.
const CLICKS: u32 = 50;

/// How many lines the script has.
const LINES: usize = 205;

/// The button that is clicked.
const BUTTON: u16 = 272;

/// The key of the X-ray mode.
const XRAY_KEY: u16 = 70;

/// The user's script in the run of number n.
pub fn user_script(alloc: Global, n: u32) -> Result<Input, NoMemory>
    ensures { IfOk result (λ i. i ≡ user_script n) }
{
    let mut stream = Stream::new(n, USER);
    let mut lines = Vec::with_capacity(alloc, LINES)?;
    push(&mut lines, InputLine::Phase)?;
    put_clicks(&mut stream, &mut lines)?;
    push(&mut lines, InputLine::Phase)?;
    put_xray_shot(&mut lines)?;
    Ok(Input { lines })
}

fn put_clicks(stream: &mut Stream, lines: &mut Vec<InputLine>) -> Result<(), NoMemory>
    ensures { OnOk result
        (AppendsDraws clicks stream.old lines.old.items stream.new lines.new.items) }
{
    for _i in 0..CLICKS {
        put_click(stream, lines)?;
    }
    Ok(())
}

/// The pointer is moved, and the button and the wheel are used there.
fn put_click(stream: &mut Stream, lines: &mut Vec<InputLine>) -> Result<(), NoMemory>
    ensures { OnOk result
        (AppendsDraws click stream.old lines.old.items stream.new lines.new.items) }
{
    push(lines, moved(stream))?;
    push(lines, InputLine::Device(Device::Press(BUTTON)))?;
    push(lines, InputLine::Device(Device::Release(BUTTON)))?;
    push(lines, InputLine::Device(Device::Wheel(1)))
}

fn put_xray_shot(lines: &mut Vec<InputLine>) -> Result<(), NoMemory>
    ensures { OnOk result ((s : ℕ) → AppendsDraws xray_shot s lines.old.items s lines.new.items) }
{
    push(lines, InputLine::Device(Device::Press(XRAY_KEY)))?;
    push(lines, InputLine::Shot)?;
    push(lines, InputLine::Device(Device::Press(XRAY_KEY)))
}

fn push(lines: &mut Vec<InputLine>, line: InputLine) -> Result<(), NoMemory>
    ensures { OnOk result (lines.new.items ≡ lines.old.items ++ line ∷ []) }
{
    lines.push(line)?;
    Ok(())
}
