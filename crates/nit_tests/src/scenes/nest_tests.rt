//! The two frames of a run, shown by the script of another client.

ghost use Rattle.std.specs.Prelude.{◌≡◌, ◌*◌, IsTrue, All, length};
ghost use Rattle.nit_nested.specs.Spelling.{FitsColour};

use crate::checks::{must, same};
use nit_nested::Nest;
use nit_script::{Client, parse_client, print_client};
use std::alloc::Global;
use std::process::Abort;

#[test]
fn two_frames(rt: HostRuntime) {
    let script = script_of_two(&rt, rt.alloc());
    same(&rt, "lines", &script.lines().len(), &20);
    let printed = print_client(rt.alloc(), &script).expect(&rt, "memory for a text");
    let want = "buffer 8 4\n\
        fill 0 0 4 1 0000FF\nfill 4 0 4 1 000020\n\
        fill 0 1 4 1 0000FF\nfill 4 1 4 1 000020\n\
        fill 0 2 8 1 000020\nfill 0 3 8 1 000020\nrefresh 0 0 8 4\n\
        view\nplace 1 0 0 8 4\nphase\n\
        fill 0 0 4 1 FF0000\nfill 4 0 4 1 000020\n\
        fill 0 1 4 1 FF0000\nfill 4 1 4 1 000020\n\
        fill 0 2 4 1 000020\nfill 4 2 4 1 0000FF\n\
        fill 0 3 4 1 000020\nfill 4 3 4 1 0000FF\nrefresh 0 0 8 4\n";
    same(&rt, want, &printed.as_slice(), &want.as_bytes());
}

/// The script of a client with one view that shows the two frames of a run of two clients.
fn script_of_two(rt: &impl Abort, alloc: Global) -> Client {
    let mut nest = Nest::new(alloc, 8, 4);
    add(rt, &mut nest, &FIRST);
    add(rt, &mut nest, &SECOND);
    let own = parse_client(alloc, b"view\nplace 1 0 0 8 4\nphase\n").expect(rt, "a script");
    nest.script(&own).expect(rt, "a script of frames")
}

/// The left upper quarter is blue.
const FIRST: [u32; 32] = [
    BLUE, BLUE, BLUE, BLUE, BARE, BARE, BARE, BARE, BLUE, BLUE, BLUE, BLUE, BARE, BARE, BARE, BARE,
    BARE, BARE, BARE, BARE, BARE, BARE, BARE, BARE, BARE, BARE, BARE, BARE, BARE, BARE, BARE, BARE,
];

/// The left upper quarter is red, and the right lower one is blue.
const SECOND: [u32; 32] = [
    RED, RED, RED, RED, BARE, BARE, BARE, BARE, RED, RED, RED, RED, BARE, BARE, BARE, BARE, BARE,
    BARE, BARE, BARE, BLUE, BLUE, BLUE, BLUE, BARE, BARE, BARE, BARE, BLUE, BLUE, BLUE, BLUE,
];

const RED: u32 = 0xFF0000;

const BLUE: u32 = 0x0000FF;

const BARE: u32 = 0x000020;

/// Adds a frame, whose words are all colours.
fn add(rt: &impl Abort, nest: &mut Nest, words: &[u32])
    requires { length words.now ≡ nest.old.w * nest.old.h }
    ensures wide { nest.new.w ≡ nest.old.w }
    ensures tall { nest.new.h ≡ nest.old.h }
{
    must(rt, "colours", are_colours(words));
    nest.frame(words).expect(rt, "a frame");
}

fn are_colours(words: &[u32]) -> bool
    ensures { IsTrue result → All FitsColour words.now }
{
    words.iter().all(|word| *word < 0x100_0000)
}
