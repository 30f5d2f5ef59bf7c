//! Where each actor stands in its script, and how the rounds go on from there.

ghost use Rattle.std.specs.Prelude.{◌≡◌, ◌≤◌, ◌<◌, ◌+◌, [], length, slice_index_or, slice_get};
ghost use Rattle.nit_rounds.specs.Terms.{ActorLine, ArePlaces, IsActorOf, IsAtTurn, IsFirstActive};
ghost use Rattle.nit_rounds.specs.Terms.{IsNextTurn, IsTrue, LinePlace, MatchBool, Some};
ghost use Rattle.nit_rounds.specs.Terms.{ends_phase, is_active, is_input_phase, is_phase};
ghost use Rattle.nit_rounds.specs.Terms.{most_lines, most_sessions, rounds, script_of, stepped};
ghost use Rattle.nit_rounds.specs.Terms.{turns_left};

use crate::turn::Turn;
use nit_rect::MOST_SESSIONS;
use nit_script::{Client, Input, InputLine, Line};

/// The most actors that there can be: 64 clients and the user.
const ACTORS: usize = MOST_SESSIONS + 1;

/// Where an actor stands: its next line, and the phase of that line. Both count from 0.
#[derive(Clone, Copy, Debug)]
pub struct LinePlace {
    pub line: usize,
    pub phase: usize,
}

/// Where each actor stands in a phase: the clients in order, and then the user. The actors before
/// `actor` have had their turn in the present round.
#[derive(Debug, Drop)]
pub struct Places {
    pub places: [LinePlace; ACTORS],
    pub phase: usize,
    pub actor: usize,
}

/// How many lines the script of an actor has.
fn line_count(scripts: &[Client], input: &Input, actor: usize) -> usize
    requires { actor ≤ length scripts.now }
    ensures count { result ≡ length (script_of scripts.now input.now actor) }
    ensures few { result ≤ most_lines }
{
    if actor < scripts.len() {
        scripts[actor].lines().len()
    } else {
        input.lines().len()
    }
}

/// Whether a line of a client's script ends a phase.
fn is_end(line: &Line) -> bool
    ensures { result ≡ is_phase line.now }
{
    matches!(line, Line::Phase)
}

/// Whether a line of the input script ends a phase.
fn is_input_end(line: &InputLine) -> bool
    ensures { result ≡ is_input_phase line.now }
{
    matches!(line, InputLine::Phase)
}

/// Whether a line of an actor's script ends a phase.
fn ends_at(scripts: &[Client], input: &Input, actor: usize, line: usize) -> bool
    requires { line < length (script_of scripts.now input.now actor) }
    ensures { (d : ActorLine) → slice_get (script_of scripts.now input.now actor) line ≡ Some d
        → result ≡ ends_phase d }
{
    if actor < scripts.len() {
        is_end(&scripts[actor].lines()[line])
    } else {
        is_input_end(&input.lines()[line])
    }
}

impl LinePlace {
    /// The place of the line after this one, which ends a phase or does not.
    fn after(self, ends: bool) -> LinePlace
        requires line { self.line < most_lines }
        requires phase { self.phase ≤ self.line }
        ensures { result ≡ stepped self ends }
    {
        let phase = if ends { self.phase + 1 } else { self.phase };
        LinePlace {
            line: self.line + 1,
            phase,
        }
    }
}

impl Places {
    /// All actors stand at their first lines.
    pub fn new(scripts: &[Client], input: &Input) -> Places
        requires { length scripts.now ≤ most_sessions }
        ensures kept { ArePlaces scripts.now input.now result }
        ensures left { turns_left scripts.now input.now result ≡ rounds scripts.now input.now }
    {
        Places {
            places: [LinePlace { line: 0, phase: 0 }; ACTORS],
            phase: 0,
            actor: 0,
        }
    }

    /// Whether an actor has a line to do in a phase.
    fn has_line(&self, scripts: &[Client], input: &Input, actor: usize, phase: usize) -> bool
        requires { IsActorOf scripts.now actor }
        ensures small { (d : LinePlace) → IsTrue result
            → (slice_index_or self.now.places actor d).line < most_lines }
        ensures active { (d : LinePlace)
            → result ≡ is_active phase (slice_index_or self.now.places actor d)
            (script_of scripts.now input.now actor) }
    {
        let place = &self.places[actor];
        place.phase == phase && place.line < line_count(scripts, input, actor)
    }

    /// The first actor from this one on that has a line to do in a phase.
    fn first_active(
        &self,
        scripts: &[Client],
        input: &Input,
        from: usize,
        phase: usize,
    ) -> Option<usize>
        requires { length scripts.now ≤ most_sessions }
        ensures { IsFirstActive scripts.now input.now self.now.places phase from result }
    {
        for actor in from..scripts.len() + 1 {
            if self.has_line(scripts, input, actor, phase) {
                return Some(actor);
            }
        }
        None
    }

    /// Goes on to the actor whose turn it is, if need be by a new round or a new phase. False where
    /// no actor has a line left.
    pub fn advance(&mut self, scripts: &[Client], input: &Input) -> bool
        requires { ArePlaces scripts.now input.now self.old }
        ensures kept { ArePlaces scripts.now input.now self.new }
        ensures left { turns_left scripts.now input.now self.new
            ≡ turns_left scripts.now input.now self.old }
        ensures active { MatchBool result (IsAtTurn scripts.now input.now self.new)
            (turns_left scripts.now input.now self.old ≡ []) }
    {
        if let Some(actor) = self.first_active(scripts, input, self.actor, self.phase) {
            self.actor = actor;
            return true;
        }
        if let Some(actor) = self.first_active(scripts, input, 0, self.phase) {
            self.actor = actor;
            return true;
        }
        if let Some(actor) = self.first_active(scripts, input, 0, self.phase + 1) {
            self.phase += 1;
            self.actor = actor;
            return true;
        }
        false
    }

    /// The turn of the present actor, which has then done its line.
    pub fn step(&mut self, scripts: &[Client], input: &Input) -> Turn
        requires kept { ArePlaces scripts.now input.now self.old }
        requires active { IsAtTurn scripts.now input.now self.old }
        ensures kept { ArePlaces scripts.now input.now self.new }
        ensures turn { IsNextTurn (turns_left scripts.now input.now self.old)
            (turns_left scripts.now input.now self.new) result }
    {
        let actor = self.actor;
        let place = self.places[actor];
        let ends = ends_at(scripts, input, actor, place.line);
        self.places[actor] = place.after(ends);
        self.actor = actor + 1;
        if actor < scripts.len() {
            Turn::Client {
                sid: actor as u32,
                line: place.line,
            }
        } else {
            Turn::User { line: place.line }
        }
    }
}
