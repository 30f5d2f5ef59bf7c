//! What a client's script has still to do.

ghost use Rattle.std.specs.Prelude.{◌≡◌, ◌↔◌, ◌+◌, ◌≤◌, [], IsTrue, length};
ghost use Rattle.nit_audit.specs.Terms.{IsCourseAnswer, IsRestAtCall, calls_to_make, most_lines};

use crate::same::Same;
use nit_events::Call;
use nit_script::{Client, Line};
use std::marker::Model;

/// The lines that are left of a client's script, and the number of the phase that they begin in. It
/// is seen as the calls that are still to be made, each with its phase.
#[derive(Drop)]
pub(crate) struct ClientCourse<'a> {
    lines: &'a [Line],
    phase: u32,
}

impl<'a> Model for ClientCourse<'a> {
    ghost use Rattle.std.specs.Prelude.{ℕ, ◌+◌, ◌≤◌, List, length};
    ghost use Rattle.nit_events.specs.declared.call.Call.{Call};
    ghost use Rattle.nit_plan.specs.Calls.{calls_from};
    ghost use Rattle.nit_script.specs.Grammar.{most_lines};

    ghost Value = { List (ℕ × Call) };

    ghost view = { λ c. calls_from c.phase c.lines.now };

    ghost invariant = { λ c. c.phase + length c.lines.now ≤ most_lines };
}

impl<'a> ClientCourse<'a> {
    /// All of a script.
    pub(crate) fn new(script: &'a Client) -> ClientCourse<'a>
        ensures { result ≡ calls_to_make script.now }
    {
        ClientCourse {
            lines: script.lines(),
            phase: 0,
        }
    }

    /// The client makes this call next, in the phase `from` or a later one: answers that phase.
    /// None exactly where it does not.
    pub(crate) fn make(&mut self, from: u32, call: &Call) -> Option<u32>
        ensures { IsCourseAnswer from call.now self.old self.new result }
    {
        let (phase, lines) = next_call(self.lines, self.phase);
        let Some((line, rest)) = lines.split_first() else {
            return None;
        };
        if !is_call(line, call) || phase < from {
            return None;
        }
        self.lines = rest;
        self.phase = phase;
        Some(phase)
    }

    /// Whether no call is left.
    pub(crate) fn is_done(&self) -> bool
        ensures { IsTrue result ↔ (self.now ≡ []) }
    {
        let (_phase, lines) = next_call(self.lines, self.phase);
        lines.is_empty()
    }
}

/// The lines from the next call on, and the phase that it is in. Strokes and ends of phases before
/// it are passed by.
fn next_call(lines: &[Line], phase: u32) -> (u32, &[Line])
    requires { phase + length lines.now ≤ most_lines }
    ensures { IsRestAtCall phase lines.now result.0 result.1.now }
{
    let mut rest = lines;
    let mut at = phase;
    'lines: while let Some((line, behind)) = rest.split_first() {
        match *line {
            Line::Call(_) => return (at, rest),
            Line::Stroke(_) => {}
            Line::Phase => at += 1,
        }
        rest = behind;
    }
    (at, rest)
}

/// Whether the line is this call.
fn is_call(line: &Line, call: &Call) -> bool
    ensures { IsTrue result ↔ (line.now ≡ Line.Call call.now) }
{
    match *line {
        Line::Call(made) => made.is_same(call),
        Line::Stroke(_) | Line::Phase => false,
    }
}
