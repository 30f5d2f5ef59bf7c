//! What the input script has still to do.

ghost use Rattle.std.specs.Prelude.{◌≡◌, ◌↔◌, [], IsTrue, IfSome};
ghost use Rattle.nit_audit.specs.Terms.{AreInputLines, Does, IsAtAction, IsCourseAnswer, IsDevice};
ghost use Rattle.nit_audit.specs.Terms.{Shoots, user_actions_to_do};

use nit_events::Device;
use nit_script::{Input, InputLine};
use std::marker::Model;

/// The lines that are left of the input script, and the number of the phase that they begin in. It
/// is seen as the device events and shots that are still to come, each with its phase.
#[derive(Drop)]
pub(crate) struct UserCourse<'a> {
    lines: &'a [InputLine],
    phase: u32,
}

impl<'a> Model for UserCourse<'a> {
    ghost use Rattle.std.specs.Prelude.{ℕ, List};
    ghost use Rattle.nit_audit.specs.Underway.{AreInputLines};
    ghost use Rattle.nit_journal.specs.WholeJournals.{UserAction};
    ghost use Rattle.nit_plan.specs.Calls.{user_actions_from};

    ghost Value = { List (ℕ × UserAction) };

    ghost view = { λ c. user_actions_from c.phase c.lines.now };

    ghost invariant = { λ c. AreInputLines c.phase c.lines.now };
}

impl<'a> UserCourse<'a> {
    /// All of the script.
    pub(crate) fn new(script: &'a Input) -> UserCourse<'a>
        ensures { result ≡ user_actions_to_do script.now }
    {
        UserCourse {
            lines: script.lines(),
            phase: 0,
        }
    }

    /// The user does this next, in the phase `from` or a later one: answers that phase. None
    /// exactly where it is not so.
    pub(crate) fn act(&mut self, from: u32, dev: Device) -> Option<u32>
        ensures done { IsCourseAnswer from (Does dev) self.old self.new result }
        ensures range { IfSome result (λ _. IsDevice dev) }
    {
        let (phase, lines) = next_action(self.lines, self.phase);
        let Some((line, rest)) = lines.split_first() else {
            return None;
        };
        if *line != InputLine::Device(dev) || phase < from {
            return None;
        }
        self.lines = rest;
        self.phase = phase;
        Some(phase)
    }

    /// A picture is taken next, in the phase `from` or a later one: answers that phase. None
    /// exactly where it is not so.
    pub(crate) fn shoot(&mut self, from: u32) -> Option<u32>
        ensures { IsCourseAnswer from Shoots self.old self.new result }
    {
        let (phase, lines) = next_action(self.lines, self.phase);
        let Some((line, rest)) = lines.split_first() else {
            return None;
        };
        if *line != InputLine::Shot || phase < from {
            return None;
        }
        self.lines = rest;
        self.phase = phase;
        Some(phase)
    }

    /// Whether nothing is left to do.
    pub(crate) fn is_done(&self) -> bool
        ensures { IsTrue result ↔ (self.now ≡ []) }
    {
        let (_phase, lines) = next_action(self.lines, self.phase);
        lines.is_empty()
    }
}

/// The lines from the next device event or shot on, and the phase that it is in. Ends of phases
/// before it are passed by.
fn next_action(lines: &[InputLine], phase: u32) -> (u32, &[InputLine])
    requires { AreInputLines phase lines.now }
    ensures { IsAtAction phase lines.now result.0 result.1.now }
{
    let mut rest = lines;
    let mut at = phase;
    'lines: while let Some((line, behind)) = rest.split_first() {
        match *line {
            InputLine::Device(_) | InputLine::Shot => return (at, rest),
            InputLine::Phase => at += 1,
        }
        rest = behind;
    }
    (at, rest)
}
