//! How many frames a run by turns has, and scripts that have another number of phases.

ghost use Rattle.std.specs.Prelude.{◌+◌, Some, ◌≡◌, count_by, ◌≤◌, length, None, IfNone, IfSome};
ghost use Rattle.std.specs.Prelude.{map};
ghost use Rattle.nit_setup.specs.Terms.{first_other, is_shot_line, names_in, phase_counts, phases};
ghost use Rattle.nit_setup.specs.Terms.{run_files};

use nit_config::{Config, Member};
use nit_run::Scripts;
use nit_script::{Client, Input, InputLine, phases};

/// How many frames a run by turns has with this input script: one for each shot, and the last one.
pub fn frame_count(input: &Input) -> usize
    ensures { result ≡ count_by is_shot_line input.now + 1 }
{
    shot_lines(input.lines()) + 1
}

/// How many lines of an input script take a shot.
fn shot_lines(lines: &[InputLine]) -> usize
    ensures count { result ≡ count_by is_shot_line lines.now }
    ensures most { result ≤ length lines.now }
{
    lines.iter().filter(|line| is_shot(line)).count()
}

fn is_shot(line: &InputLine) -> bool
    ensures { result ≡ is_shot_line line.now }
{
    matches!(line, InputLine::Shot)
}

/// The name of the first script of a configuration that has not so many phases, in the order of the
/// clients and then the input script.
pub fn first_other<'a>(wanted: usize, config: &'a Config, scripts: &Scripts) -> Option<&'a str>
    requires { length scripts.now.clients.items ≡ length config.now.clients }
    ensures some { IfSome result (λ name. first_other wanted (names_in config.entry.now)
        (phase_counts (run_files config.entry.now scripts.now.clients.items scripts.now.input))
        ≡ Some name.now) }
    ensures none { IfNone result (first_other wanted (names_in config.entry.now)
        (phase_counts (run_files config.entry.now scripts.now.clients.items scripts.now.input))
        ≡ None) }
{
    let other = first_other_client(wanted, &config.clients, &scripts.clients);
    if other.is_some() {
        return other;
    }
    if phases(scripts.input.lines()) == wanted {
        None
    } else {
        Some(config.input.as_str())
    }
}

/// The name of the first script of a client that has not so many phases, in their order.
fn first_other_client<'a>(
    wanted: usize,
    clients: &'a [Member],
    scripts: &[Client],
) -> Option<&'a str>
    requires { length scripts.now ≡ length clients.now }
    ensures some { IfSome result (λ name.
        first_other wanted (map (λ m. m.script) clients.entry.now) (map phases scripts.now)
        ≡ Some name.now) }
    ensures none { IfNone result
        (first_other wanted (map (λ m. m.script) clients.entry.now) (map phases scripts.now)
        ≡ None) }
{
    for (k, script) in scripts.iter().enumerate() {
        if phases(script.lines()) != wanted {
            return Some(clients[k].script.as_str());
        }
    }
    None
}
