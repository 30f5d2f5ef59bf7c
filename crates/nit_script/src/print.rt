//! Scripts written as bytes.

ghost use Rattle.std.specs.Prelude.{◌≡◌, ◌++◌, IfOk, OnOk, OnErr};
ghost use Rattle.nit_script.specs.Terms.{ReadsClient, ReadsInput, call_spelling, device_spelling};
ghost use Rattle.nit_script.specs.Terms.{flat_map, input_spelling, line_spelling, spelled};
ghost use Rattle.nit_script.specs.Terms.{stroke_spelling};

use crate::line::{InputLine, Line, Stroke};
use crate::script::{Client, Input};
use crate::script_line::ScriptLine;
use crate::write::{Field, put_words};
use nit_events::{Call, Device};
use nit_rect::NoMemory;
use std::alloc::Global;

/// The bytes that spell a client's script. It can be refused for want of memory alone.
pub fn print_client(alloc: Global, c: &Client) -> Result<Vec<u8>, NoMemory>
    ensures { IfOk result (λ v. ReadsClient v.items c.now) }
{
    print_lines(alloc, c.lines())
}

/// The bytes that spell an input script. It can be refused for want of memory alone.
pub fn print_input(alloc: Global, i: &Input) -> Result<Vec<u8>, NoMemory>
    ensures { IfOk result (λ v. ReadsInput v.items i.now) }
{
    print_lines(alloc, i.lines())
}

/// The bytes that spell these lines, each with its line feed. It can be refused for want of memory
/// alone.
pub fn print_lines<L: ScriptLine>(alloc: Global, lines: &[L]) -> Result<Vec<u8>, NoMemory>
    ensures { IfOk result (λ v. v.items ≡ flat_map (spelled L.spelling) lines.now) }
{
    let mut out = Vec::new(alloc);
    for line in lines {
        line.put(alloc, &mut out)?;
        out.push(b'\n')?;
    }
    Ok(out)
}

/// Writes a line of a client's script, without a line feed.
pub fn put_line(alloc: Global, out: &mut Vec<u8>, line: &Line) -> Result<(), NoMemory>
    ensures { OnOk result (out.new.items ≡ out.old.items ++ line_spelling line.now) }
{
    match line {
        Line::Call(call) => put_call(alloc, out, call),
        Line::Stroke(stroke) => put_stroke(alloc, out, stroke),
        Line::Phase => put_words(alloc, out, b"phase", &[]),
    }
}

/// Writes a line of an input script, without a line feed.
pub fn put_input_line(alloc: Global, out: &mut Vec<u8>, line: &InputLine) -> Result<(), NoMemory>
    ensures { OnOk result (out.new.items ≡ out.old.items ++ input_spelling line.now) }
{
    match line {
        InputLine::Device(device) => put_device(alloc, out, device),
        InputLine::Shot => put_words(alloc, out, b"shot", &[]),
        InputLine::Phase => put_words(alloc, out, b"phase", &[]),
    }
}

/// Writes a call after `out` as a script spells it, without a line feed. It can be refused for
/// want of memory alone, and `out` has then the bytes that it had.
#[tactic(auto, using(crate::proofs::LinePieces::ends))]
pub fn put_call(alloc: Global, out: &mut Vec<u8>, call: &Call) -> Result<(), NoMemory>
    ensures written { OnOk result (out.new.items ≡ out.old.items ++ call_spelling call.now) }
    ensures unchanged { OnErr result (out.new.items ≡ out.old.items) }
{
    use Field::{Integer, Natural};

    match *call {
        Call::Buffer(w, h) => put_words(alloc, out, b"buffer", &[Natural(w), Natural(h)]),
        Call::View => put_words(alloc, out, b"view", &[]),
        Call::Place(v, x, y, w, h) => {
            let fields = [Natural(v), Integer(x), Integer(y), Natural(w), Natural(h)];
            put_words(alloc, out, b"place", &fields)
        }
        Call::Offset(v, x, y) => {
            put_words(alloc, out, b"offset", &[Natural(v), Integer(x), Integer(y)])
        }
        Call::Front(v) => put_words(alloc, out, b"front", &[Natural(v)]),
        Call::Back(v) => put_words(alloc, out, b"back", &[Natural(v)]),
        Call::Above(v, n) => put_words(alloc, out, b"above", &[Natural(v), Natural(n)]),
        Call::Title(v, text) => put_words(alloc, out, b"title", &[Natural(v), Field::Text(text)]),
        Call::Destroy(v) => put_words(alloc, out, b"destroy", &[Natural(v)]),
        Call::Refresh(x, y, w, h) => {
            let fields = [Integer(x), Integer(y), Natural(w), Natural(h)];
            put_words(alloc, out, b"refresh", &fields)
        }
        Call::Take => put_words(alloc, out, b"take", &[]),
        Call::Upgrade(n) => put_words(alloc, out, b"upgrade", &[Natural(n)]),
        Call::Close => put_words(alloc, out, b"close", &[]),
    }
}

#[tactic(auto, using(crate::proofs::LinePieces::ends))]
fn put_stroke(alloc: Global, out: &mut Vec<u8>, stroke: &Stroke) -> Result<(), NoMemory>
    ensures { OnOk result (out.new.items ≡ out.old.items ++ stroke_spelling stroke.now) }
{
    use Field::{Colour, Natural};

    match *stroke {
        Stroke::Fill { x, y, w, h, c } => {
            let fields = [Natural(x), Natural(y), Natural(w), Natural(h), Colour(c)];
            put_words(alloc, out, b"fill", &fields)
        }
        Stroke::Check { x, y, w, h, c, d } => {
            let fields = [
                Natural(x),
                Natural(y),
                Natural(w),
                Natural(h),
                Colour(c),
                Colour(d),
            ];
            put_words(alloc, out, b"check", &fields)
        }
    }
}

/// Writes what the user does after `out` as an input script spells it, without a line feed. It can
/// be refused for want of memory alone, and `out` has then the bytes that it had.
#[tactic(auto, using(crate::proofs::LinePieces::ends))]
pub fn put_device(alloc: Global, out: &mut Vec<u8>, device: &Device) -> Result<(), NoMemory>
    ensures written { OnOk result (out.new.items ≡ out.old.items ++ device_spelling device.now) }
    ensures unchanged { OnErr result (out.new.items ≡ out.old.items) }
{
    use Field::{Integer, Natural};

    match *device {
        Device::Press(code) => put_words(alloc, out, b"press", &[Natural(code as u32)]),
        Device::Release(code) => put_words(alloc, out, b"release", &[Natural(code as u32)]),
        Device::Motion(x, y) => {
            put_words(
                alloc,
                out,
                b"motion",
                &[Natural(x as u32), Natural(y as u32)],
            )
        }
        Device::Wheel(turn) => put_words(alloc, out, b"wheel", &[Integer(turn as i32)]),
    }
}
