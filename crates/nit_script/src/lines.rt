//! The two kinds of lines: those of clients, and those of the user.

ghost use Rattle.nit_script.specs.Terms.{Gives, input_at, input_front_at, line_at, line_front_at};

use crate::bytes::{take_byte, take_word};
use crate::call_lines::take_call;
use crate::device_lines::take_device;
use crate::line::{InputLine, Line};
use crate::print::{put_input_line, put_line};
use crate::script_line::ScriptLine;
use crate::stroke_lines::take_stroke;
use nit_rect::NoMemory;
use std::alloc::Global;

impl ScriptLine for Line {
    ghost use Rattle.nit_script.specs.Spelling.{FitsLine, line_spelling};
    ghost use Rattle.nit_script.specs.Phases.{is_phase};

    ghost Fits = { FitsLine };

    ghost spelling = { line_spelling };

    ghost ends_phase = { is_phase };

    fn take(bytes: &[u8]) -> Option<(Line, &[u8])> {
        take_line(bytes)
    }

    fn put(&self, alloc: Global, out: &mut Vec<u8>) -> Result<(), NoMemory> {
        put_line(alloc, out, self)
    }

    fn ends_phase(&self) -> bool {
        matches!(self, Line::Phase)
    }

    fn one_in_front() {}
}

impl ScriptLine for InputLine {
    ghost use Rattle.nit_script.specs.Spelling.{FitsInputLine, input_spelling};
    ghost use Rattle.nit_script.specs.Phases.{is_input_phase};

    ghost Fits = { FitsInputLine };

    ghost spelling = { input_spelling };

    ghost ends_phase = { is_input_phase };

    fn take(bytes: &[u8]) -> Option<(InputLine, &[u8])> {
        take_input_line(bytes)
    }

    fn put(&self, alloc: Global, out: &mut Vec<u8>) -> Result<(), NoMemory> {
        put_input_line(alloc, out, self)
    }

    fn ends_phase(&self) -> bool {
        matches!(self, InputLine::Phase)
    }

    fn one_in_front() {}
}

/// The line of a client's script in front, with its line feed, and what follows it.
#[tactic(auto, unfolding(crate::specs::LineReaders::line_at))]
fn take_line(bytes: &[u8]) -> Option<(Line, &[u8])>
    ensures { Gives (λ x. (x.0, x.1.now)) result (line_at bytes.now) }
{
    let Some((line, rest)) = take_line_front(bytes) else {
        return None;
    };
    Some((line, take_byte(rest, b'\n')?))
}

/// The line of a client's script in front, without its line feed, and what follows it.
#[tactic(auto, unfolding(crate::specs::LineReaders::line_front_at))]
fn take_line_front(bytes: &[u8]) -> Option<(Line, &[u8])>
    ensures { Gives (λ x. (x.0, x.1.now)) result (line_front_at bytes.now) }
{
    if let Some((call, rest)) = take_call(bytes) {
        return Some((Line::Call(call), rest));
    }
    if let Some((stroke, rest)) = take_stroke(bytes) {
        return Some((Line::Stroke(stroke), rest));
    }
    let rest = take_word(bytes, b"phase")?;
    Some((Line::Phase, rest))
}

/// The line of an input script in front, with its line feed, and what follows it.
#[tactic(auto, unfolding(crate::specs::InputReaders::input_at))]
fn take_input_line(bytes: &[u8]) -> Option<(InputLine, &[u8])>
    ensures { Gives (λ x. (x.0, x.1.now)) result (input_at bytes.now) }
{
    let (line, rest) = take_input_front(bytes)?;
    Some((line, take_byte(rest, b'\n')?))
}

/// The line of an input script in front, without its line feed, and what follows it.
#[tactic(auto, unfolding(crate::specs::InputReaders::input_front_at))]
fn take_input_front(bytes: &[u8]) -> Option<(InputLine, &[u8])>
    ensures { Gives (λ x. (x.0, x.1.now)) result (input_front_at bytes.now) }
{
    if let Some((device, rest)) = take_device(bytes) {
        return Some((InputLine::Device(device), rest));
    }
    if let Some(rest) = take_word(bytes, b"shot") {
        return Some((InputLine::Shot, rest));
    }
    let rest = take_word(bytes, b"phase")?;
    Some((InputLine::Phase, rest))
}
