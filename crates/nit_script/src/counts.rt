//! How many phases a script has.

ghost use Rattle.std.specs.Prelude.{◌≡◌, ◌≤◌, count_by, length};
ghost use Rattle.nit_script.specs.Terms.{most_lines, phases_by};

use crate::script_line::ScriptLine;

/// How many phases a script of these lines has.
pub fn phases<L: ScriptLine>(lines: &[L]) -> usize
    requires { length lines.now ≤ most_lines }
    ensures { result ≡ phases_by L.ends_phase lines.now }
{
    phase_lines(lines) + 1
}

/// How many of these lines end a phase.
pub fn phase_lines<L: ScriptLine>(lines: &[L]) -> usize
    ensures count { result ≡ count_by L.ends_phase lines.now }
    ensures most { result ≤ length lines.now }
{
    lines.iter().filter(|line| line.ends_phase()).count()
}
