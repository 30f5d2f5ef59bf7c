//! What a picture of one client's script is made of beside this script.

ghost use Rattle.std.specs.Prelude.{false, ◌≡◌, IfOk, true, ◌∷◌, [], ◌≤◌, length};
ghost use Rattle.nit_setup.specs.Terms.{idle_user, most_lines, still_configuration};

use nit_config::{Config, FileName, Member};
use nit_glyph::Label;
use nit_rect::{MOST_RUN_UNITS, NoMemory};
use nit_script::{Input, InputLine, Line, phase_lines};
use std::alloc::Global;

/// The configuration of a picture of one client's script.
pub fn still_configuration(alloc: Global, width: u32, height: u32) -> Result<Config, NoMemory>
    ensures { IfOk result (λ config. config ≡ still_configuration width height) }
{
    let mut clients = Vec::new(alloc);
    clients.push(still_member(alloc)?)?;
    Ok(Config {
        width,
        height,
        bar: false,
        input: FileName::new(alloc, b"still")?,
        clients,
    })
}

/// The client of a picture.
fn still_member(alloc: Global) -> Result<Member, NoMemory>
    ensures { IfOk result (λ m. (still_configuration 1 1).clients ≡ m ∷ []) }
{
    Ok(Member {
        label: Label::of(b"still"),
        donation: MOST_RUN_UNITS,
        script: FileName::new(alloc, b"still")?,
        layer: 0,
        clicks: true,
    })
}

/// One line `phase` for each line `phase` of a client's script.
pub fn idle_user(alloc: Global, lines: &[Line]) -> Result<Input, NoMemory>
    requires { length lines.now ≤ most_lines }
    ensures { IfOk result (λ input. input ≡ idle_user lines.now) }
{
    Ok(Input {
        lines: vec![in alloc; InputLine::Phase; phase_lines(lines)]?,
    })
}
