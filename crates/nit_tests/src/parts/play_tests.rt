//! What whole streams of films play, and the words that stand in the frame then.

ghost use Rattle.nit_capture.specs.Tiles.{IsPicture};

use crate::checks::same;
use crate::parts::films::{CUT, LEFT, RIGHT};
use crate::parts::stream_tests::black;
use nit_capture::{Played, Player};
use std::alloc::Global;
use std::process::Abort;

#[test]
fn plays(rt: HostRuntime) {
    for of in PLAYS {
        assert_play(&rt, rt.alloc(), of);
    }
}

const PLAYS: &[Play] = &[
    // A film ends, each time again.
    Play {
        name: "left",
        stream: &LEFT,
        length: 27,
        size: (4, 2),
        calls: &[Played::Frame, Played::Frame, Played::End, Played::End],
        words: &[(8, 0xFF), (24, 0xFF0000)],
    },
    Play {
        name: "right",
        stream: &RIGHT,
        length: 21,
        size: (4, 2),
        calls: &[Played::Frame, Played::Frame, Played::End, Played::End],
        words: &[(32, 0x20)],
    },
    Play {
        name: "tiles that are cut off",
        stream: &CUT,
        length: 59,
        size: (20, 18),
        calls: &[Played::Frame, Played::Frame, Played::End],
        words: &[(1, 0xFF), (358, 0), (1, 0x010203), (360, 0x112233)],
    },
    // Behind a film whose last byte is cut off, no end comes.
    Play {
        name: "a film without its end",
        stream: &LEFT,
        length: 26,
        size: (4, 2),
        calls: &[Played::Frame, Played::Frame, Played::Bad, Played::Bad],
        words: &[],
    },
];

/// So many of a stream's bytes, the width and height, what they play at one call after the other,
/// and the words that stand in the frame after the first calls: so many that are equal, and then
/// others.
struct Play {
    name: &'static str,
    stream: &'static [u8],
    length: usize,
    size: (u32, u32),
    calls: &'static [Played],
    words: &'static [(usize, u32)],
}

/// The first words are these.
fn assert_play(rt: &impl Abort, alloc: Global, of: &Play) {
    let bytes = of.stream.get(..of.length).expect(rt, "so many bytes");
    let mut player = Player::new(bytes).expect(rt, "a film");
    let (width, height) = player.size();
    same(rt, of.name, &(width, height), &of.size);
    let mut frame = black(rt, alloc, width, height);
    let mut words = Vec::new(alloc);
    play_all(rt, &mut player, &mut frame, of, &mut words);
    let want = spread(rt, alloc, of.words);
    same(
        rt,
        of.name,
        &words.get(..want.len()),
        &Some(want.as_slice()),
    );
}

/// The words that stand in the black frame after calls that play so.
fn play_all(
    rt: &impl Abort,
    player: &mut Player<'_>,
    frame: &mut [u32],
    of: &Play,
    words: &mut Vec<u32>,
)
    requires { IsPicture player.old.width player.old.height frame.old }
{
    for want in of.calls {
        same(rt, of.name, &player.next(frame), want);
        words.extend_from_slice(frame).expect(rt, "memory");
    }
}

/// So many equal words, and then others.
fn spread(rt: &impl Abort, alloc: Global, runs: &[(usize, u32)]) -> Vec<u32> {
    let mut words = Vec::new(alloc);
    for (count, word) in runs {
        for _ in 0..*count {
            words.push(*word).expect(rt, "memory");
        }
    }
    words
}
