//! The script of a client of a generated run.

ghost use Rattle.std.specs.Prelude.{◌≡◌, ◌≤◌, ◌++◌, ℕ, [], ◌∷◌, codes, IfOk, OnOk};
ghost use Rattle.nit_report.specs.Terms.{AppendsDraws, Draws, busy, client_script, decimal};
ghost use Rattle.nit_report.specs.Terms.{first_phase, places, second_phase, titles, views};

use crate::drawn_lines::{
    BUFFER, VIEWS, backdrop, checked, filled, placed, shifted, some_refresh, some_view,
};
use crate::stream::Stream;
use crate::write::number;
use nit_events::{Call, Text};
use nit_rect::NoMemory;
use nit_script::{Client, Line, Stroke};
use std::alloc::Global;

/// How many lines the second phase has.
const BUSY_LINES: u32 = 1944;

/// How many lines a client's script has.
const LINES: usize = 1996;

/// The script of the client of this number, 0..=7, in the run of number n.
pub fn client_script(alloc: Global, n: u32, client: u32) -> Result<Client, NoMemory>
    requires { client ≤ 7 }
    ensures { IfOk result (λ c. c ≡ client_script n client) }
{
    let mut stream = Stream::new(n, client);
    let mut lines = Vec::with_capacity(alloc, LINES)?;
    put_first_phase(&mut stream, &mut lines)?;
    put_second_phase(&mut stream, &mut lines)?;
    Ok(Client { lines })
}

/// A buffer, and the views with their places and titles.
fn put_first_phase(stream: &mut Stream, lines: &mut Vec<Line>) -> Result<(), NoMemory>
    ensures { OnOk result
        (AppendsDraws first_phase stream.old lines.old.items stream.new lines.new.items) }
{
    push(lines, Line::Call(Call::Buffer(BUFFER.0, BUFFER.1)))?;
    push(lines, backdrop(stream))?;
    put_views(lines)?;
    put_places(stream, lines)?;
    put_titles(lines)?;
    push(lines, Line::Phase)?;
    Ok(())
}

fn put_views(lines: &mut Vec<Line>) -> Result<(), NoMemory>
    ensures { OnOk result ((s : ℕ) → AppendsDraws views s lines.old.items s lines.new.items) }
{
    for _view in 1..VIEWS + 1 {
        push(lines, Line::Call(Call::View))?;
    }
    Ok(())
}

fn put_places(stream: &mut Stream, lines: &mut Vec<Line>) -> Result<(), NoMemory>
    ensures { OnOk result
        (AppendsDraws places stream.old lines.old.items stream.new lines.new.items) }
{
    for view in 1..VIEWS + 1 {
        push(lines, placed(stream, view))?;
    }
    Ok(())
}

fn put_titles(lines: &mut Vec<Line>) -> Result<(), NoMemory>
    ensures { OnOk result ((s : ℕ) → AppendsDraws titles s lines.old.items s lines.new.items) }
{
    for view in 1..VIEWS + 1 {
        push(lines, Line::Call(Call::Title(view, title(view))))?;
    }
    Ok(())
}

/// The title of a view.
fn title(view: u32) -> Text
    requires { view ≤ 99 }
    ensures { result ≡ codes "w" ++ decimal view }
{
    let mut bytes = [b'w', 0, 0];
    let end = number(&mut bytes, 1, view);
    Text::of(&bytes[..end])
}

fn put_second_phase(stream: &mut Stream, lines: &mut Vec<Line>) -> Result<(), NoMemory>
    ensures { OnOk result
        (AppendsDraws second_phase stream.old lines.old.items stream.new lines.new.items) }
{
    for j in 0..BUSY_LINES {
        push(lines, busy(stream, j))?;
    }
    push(lines, Line::Phase)?;
    Ok(())
}

/// The line of this number, from 0, of the second phase.
fn busy(stream: &mut Stream, j: u32) -> Line
    ensures { Draws (busy j) stream.old result stream.new }
{
    match j % 8 {
        0 => filled(stream),
        1 => checked(stream),
        2 => {
            let view = some_view(stream);
            placed(stream, view)
        }
        3 => Line::Call(Call::Front(some_view(stream))),
        4 => Line::Call(Call::Back(some_view(stream))),
        5 => some_refresh(stream),
        6 => Line::Call(Call::Take),
        _ => {
            let view = some_view(stream);
            shifted(stream, view)
        }
    }
}

fn push(lines: &mut Vec<Line>, line: Line) -> Result<(), NoMemory>
    ensures { OnOk result (lines.new.items ≡ lines.old.items ++ line ∷ []) }
{
    // The check finds the types inside a `Line` only where the function names them.
    let _types: Option<(Call, Stroke)> = None;
    lines.push(line)?;
    Ok(())
}
