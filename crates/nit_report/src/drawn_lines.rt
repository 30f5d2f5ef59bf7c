//! Lines of generated scripts, each drawn from a stream.

ghost use Rattle.std.specs.Prelude.{◌≡◌, ◌<◌, ◌≤◌};
ghost use Rattle.nit_report.specs.Terms.{Draws, backdrop, checked, filled, from_outside, placed};
ghost use Rattle.nit_report.specs.Terms.{shifted, some_colour, some_motion, some_part};
ghost use Rattle.nit_report.specs.Terms.{some_refresh, some_view};

use crate::stream::Stream;
use nit_events::{Call, Device};
use nit_script::{InputLine, Line, Stroke};

/// How many views a client has.
pub const VIEWS: u32 = 16;

/// The width and the height of a client's buffer.
pub const BUFFER: (u32, u32) = (128, 96);

/// A channel of a colour is below this.
const CHANNEL: u32 = 256;

/// The greatest width and height of a part of the buffer.
const PARTS: (u32, u32) = (64, 48);

/// How far the first place of a view lies outside the screen, and its first offset below 0.
const OUTSIDE: i32 = 20;

/// How many columns and rows a view may stand at.
const PLACES: (u32, u32) = (340, 260);

/// How many offsets a view may have in each direction.
const OFFSETS: u32 = 41;

/// The least width and height of a view.
const LEAST: (u32, u32) = (20, 10);

/// How many widths and heights a view may have.
const SIZES: (u32, u32) = (100, 60);

/// The pointer is moved within these columns and rows.
const SCREEN: (u32, u32) = (320, 240);

#[tactic(auto, unfolding(crate::specs::Generator::some_colour))]
fn colour(stream: &mut Stream) -> u32
    ensures { Draws some_colour stream.old result stream.new }
{
    let red = stream.draw(CHANNEL);
    let green = stream.draw(CHANNEL);
    let blue = stream.draw(CHANNEL);
    (red * CHANNEL + green) * CHANNEL + blue
}

/// The whole buffer in one colour.
pub fn backdrop(stream: &mut Stream) -> Line
    ensures { Draws backdrop stream.old result stream.new }
{
    let c = colour(stream);
    let (w, h) = BUFFER;
    Line::Stroke(Stroke::Fill {
        x: 0,
        y: 0,
        w,
        h,
        c,
    })
}

/// A part of the buffer.
pub struct BufferPart {
    x: u32,
    y: u32,
    w: u32,
    h: u32,
}

#[tactic(auto, unfolding(crate::specs::Generator::some_part))]
fn some_part(stream: &mut Stream) -> BufferPart
    ensures drawn { Draws some_part stream.old result stream.new }
    ensures within { (result.x < 128) × (result.y < 96) }
{
    let x = stream.draw(BUFFER.0);
    let y = stream.draw(BUFFER.1);
    let w = 1 + stream.draw(PARTS.0);
    let h = 1 + stream.draw(PARTS.1);
    BufferPart { x, y, w, h }
}

/// A part of the buffer in one colour.
pub fn filled(stream: &mut Stream) -> Line
    ensures { Draws filled stream.old result stream.new }
{
    let BufferPart { x, y, w, h } = some_part(stream);
    let c = colour(stream);
    Line::Stroke(Stroke::Fill { x, y, w, h, c })
}

/// A part of the buffer in two colours.
pub fn checked(stream: &mut Stream) -> Line
    ensures { Draws checked stream.old result stream.new }
{
    let BufferPart { x, y, w, h } = some_part(stream);
    let c = colour(stream);
    let d = colour(stream);
    Line::Stroke(Stroke::Check { x, y, w, h, c, d })
}

/// A part of the buffer is to be shown anew.
pub fn some_refresh(stream: &mut Stream) -> Line
    ensures { Draws some_refresh stream.old result stream.new }
{
    let BufferPart { x, y, w, h } = some_part(stream);
    Line::Call(Call::Refresh(x as i32, y as i32, w, h))
}

/// One of so many numbers, from -20 on.
#[tactic(auto, unfolding(crate::specs::Generator::from_outside))]
fn from_outside(stream: &mut Stream, numbers: u32) -> i32
    requires { (0 < numbers) × (numbers ≤ 1000) }
    ensures { Draws (from_outside numbers) stream.old result stream.new }
{
    stream.draw(numbers) as i32 - OUTSIDE
}

/// A view is moved.
#[tactic(auto, unfolding(crate::specs::Generator::placed))]
pub fn placed(stream: &mut Stream, view: u32) -> Line
    ensures { Draws (placed view) stream.old result stream.new }
{
    let x = from_outside(stream, PLACES.0);
    let y = from_outside(stream, PLACES.1);
    let w = LEAST.0 + stream.draw(SIZES.0);
    let h = LEAST.1 + stream.draw(SIZES.1);
    Line::Call(Call::Place(view, x, y, w, h))
}

/// A view shows the buffer from elsewhere.
pub fn shifted(stream: &mut Stream, view: u32) -> Line
    ensures { Draws (shifted view) stream.old result stream.new }
{
    let x = from_outside(stream, OFFSETS);
    let y = from_outside(stream, OFFSETS);
    Line::Call(Call::Offset(view, x, y))
}

/// The handle of one of the views.
pub fn some_view(stream: &mut Stream) -> u32
    ensures { Draws some_view stream.old result stream.new }
{
    1 + stream.draw(VIEWS)
}

/// The pointer is moved.
pub fn moved(stream: &mut Stream) -> InputLine
    ensures { Draws some_motion stream.old result stream.new }
{
    let x = stream.draw(SCREEN.0) as u16;
    let y = stream.draw(SCREEN.1) as u16;
    InputLine::Device(Device::Motion(x, y))
}
