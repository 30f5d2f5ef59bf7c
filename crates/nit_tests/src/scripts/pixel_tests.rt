//! The words of a buffer while its owner's script is drawn on it, as a reader's end shows them.
ghost use Rattle.std.specs.Prelude.{◌≡◌, ◌+◌, ◌<◌, ◌∷◌, [], IsSome, None};
ghost use Rattle.nit_plan.specs.Plan.{IsPlanOf};
ghost use Rattle.nit_plan.specs.Surface.{IsPaintedTo};
ghost use Rattle.nit_pixels.specs.End.{new_sight};
ghost use Rattle.nit_word.specs.Sight.{told_words};

use crate::checks::{must, same};
use nit_pixels::{Canvas, Lens, PixelBuffer, Stages};
use nit_plan::laws::{ink_of_a_script, no_line_done};
use nit_plan::{Plan, plan_of, stroke};
use nit_script::{Client, parse_client};
use nit_word::Glass;
use std::alloc::Global;
use std::marker::Brand;
use std::process::Abort;
use std::thread::join;

#[test]
fn a_reader_sees_what_was_drawn(rt: HostRuntime) {
    let client = script(&rt, rt.alloc(), DOT);
    let plan = plan_of(rt.alloc(), &client, DONATION).expect(&rt, "a plan");
    let (buffer, key) = PixelBuffer::new(rt.alloc(), 0, &client, DONATION).expect(&rt, "memory");
    let mut canvas = buffer.canvas(key);
    let mut lens = canvas.split();
    begun(&client, &plan, &canvas);
    do_line(&rt, &mut canvas, &client, &plan, 0);
    do_line(&rt, &mut canvas, &client, &plan, 1);
    let drawn = [lens.load(0), lens.load(1)];
    do_line(&rt, &mut canvas, &client, &plan, 2);
    same(&rt, "words 0 and 1", &drawn, &[0, RED]);
    same(&rt, "word 1", &lens.load(1), &0);
}

#[test]
fn a_reader_beside_the_owner_sees_each_colour_at_its_places(rt: HostRuntime) {
    let client = script(&rt, rt.alloc(), BOARD);
    let plan = plan_of(rt.alloc(), &client, DONATION).expect(&rt, "a plan");
    let (buffer, key) = PixelBuffer::new(rt.alloc(), 0, &client, DONATION).expect(&rt, "memory");
    let mut canvas = buffer.canvas(key);
    let lens = canvas.split();
    begun(&client, &plan, &canvas);
    let (fine, ()) = join(
        &rt,
        move || watch(lens),
        move || draw(canvas, &client, &plan),
    );
    must(&rt, "0, or the colour of the place", fine);
}

#[test]
fn a_watching_reader_sees_what_was_agreed_on(rt: HostRuntime) {
    let client = script(&rt, rt.alloc(), DOT);
    let plan = plan_of(rt.alloc(), &client, DONATION).expect(&rt, "a plan");
    let (buffer, key) = PixelBuffer::new(rt.alloc(), 0, &client, DONATION).expect(&rt, "memory");
    let mut canvas = buffer.canvas(key);
    begun(&client, &plan, &canvas);
    do_line(&rt, &mut canvas, &client, &plan, 0);
    do_line(&rt, &mut canvas, &client, &plan, 1);
    let mut lens = canvas.watch();
    let drawn = lens.load(1);
    clear_watched::<Brand>(&mut canvas, &mut lens);
    same(&rt, "word 1", &[drawn, lens.load(1)], &[RED, 0]);
}

const RED: u32 = 0xFF0000;

const BLUE: u32 = 0x0000FF;

/// What the session opens with: its table has 4,096 words.
const DONATION: u32 = 16_384;

const WORDS: usize = 4_096;

/// One word is drawn, and then cleared.
const DOT: &str = "buffer 2 2\nfill 1 0 1 1 FF0000\nbuffer 2 2\n";

/// A board of two colours is drawn and cleared, again and again.
const BOARD: &str = "buffer 64 64\ncheck 0 0 64 64 FF0000 0000FF\nbuffer 64 64\n\
                     check 0 0 64 64 FF0000 0000FF\nbuffer 64 64\n\
                     check 0 0 64 64 FF0000 0000FF\nbuffer 64 64\n\
                     check 0 0 64 64 FF0000 0000FF\nbuffer 64 64\n\
                     check 0 0 64 64 FF0000 0000FF\n";

/// The script that the text spells.
fn script(rt: &impl Abort, alloc: Global, text: &str) -> Client {
    parse_client(alloc, text.as_bytes()).expect(rt, "a script")
}

/// No line is done on the words of a new buffer.
fn begun(client: &Client, plan: &Plan, canvas: &Canvas)
    requires plan { IsPlanOf client.now 16384 plan.now }
    requires canvas { canvas.now.sight ≡ new_sight 0 client.now 16384 }
    ensures painted { IsPaintedTo client.now 16384 plan.now 0 canvas.now.sight }
    ensures free { canvas.now.sight.stages ≡ None }
{
    no_line_done();
    ink_of_a_script();
}

/// Does the line of this number, which the script must have, on a canvas that knows no stages.
fn do_line(rt: &impl Abort, canvas: &mut Canvas, client: &Client, plan: &Plan, line: usize)
    requires painted { IsPaintedTo client.now 16384 plan.now line canvas.old.sight }
    requires free { canvas.old.sight.stages ≡ None }
    ensures painted { IsPaintedTo client.now 16384 plan.now (line + 1) canvas.new.sight }
    ensures size { canvas.new.sight.size ≡ canvas.old.sight.size }
    ensures free { canvas.new.sight.stages ≡ None }
{
    must(rt, "a line", line < client.lines().len());
    stroke(canvas, client, plan, line);
}

/// The canvas and the lens agree that each word stays or becomes 0, and word 1 does.
fn clear_watched<'a, X: Stages>(canvas: &mut Canvas<'a>, lens: &mut Lens<'a>)
    requires stages { X.stages ≡ told_words canvas.old.sight.words ∷ [] ∷ [] }
    requires place { 1 < canvas.old.sight.size }
    requires buffer { lens.old.stand.buffer ≡ canvas.old.stand.buffer }
    requires watches { IsSome lens.old.sight.stages }
    requires watched { IsSome canvas.old.sight.stages }
    ensures { lens.new.sight.size ≡ lens.old.sight.size }
{
    canvas.agree::<X>(lens);
    canvas.store(1, 0);
}

/// Does all lines of the script on a canvas that knows no stages.
fn draw(canvas: Canvas, client: &Client, plan: &Plan)
    requires painted { IsPaintedTo client.now 16384 plan.now 0 canvas.sight }
    requires free { canvas.sight.stages ≡ None }
{
    let mut canvas = canvas;
    for line in 0..client.lines().len() {
        stroke(&mut canvas, client, plan, line);
    }
}

/// Whether each load gives 0 or the colour of the place.
fn watch(mut lens: Lens) -> bool
    requires { lens.sight.size ≡ 4096 }
{
    let mut fine = true;
    for i in 0..WORDS * 16 {
        let place = i % WORDS;
        let even = (place % 64 + place / 64) % 2 == 0;
        let w = lens.load(place);
        fine = fine && (w == 0 || w == if even { RED } else { BLUE });
    }
    fine
}
