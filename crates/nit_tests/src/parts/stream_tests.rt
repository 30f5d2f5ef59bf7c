//! Streams of films that are cut off, and streams in which one byte is another one.
//!
//! What each of them plays was worked out by a reader and a writer that stand apart from this
//! repository.

ghost use Rattle.nit_capture.specs.Tiles.{IsPictureSize, IsPicture};

use crate::checks::same;
use crate::parts::films::{CUT, LEFT, RIGHT};
use crate::words::repeated;
use nit_capture::{Played, Player};
use std::alloc::Global;
use std::process::Abort;

#[test]
fn streams(rt: HostRuntime) {
    for of in STREAMS {
        assert_whole(&rt, of);
        assert_fronts(&rt, rt.alloc(), of);
        assert_changes(&rt, rt.alloc(), of);
    }
}

const STREAMS: &[Stream] = &[
    Stream {
        name: "part at the top left",
        bytes: &LEFT,
        fronts: &FRONTS_LEFT,
        changes: &CHANGED_LEFT,
    },
    Stream {
        name: "part at the top right",
        bytes: &RIGHT,
        fronts: &FRONTS_RIGHT,
        changes: &CHANGED_RIGHT,
    },
    Stream {
        name: "tiles that are cut off",
        bytes: &CUT,
        fronts: &FRONTS_CUT,
        changes: &CHANGED_CUT,
    },
];

/// A stream, and what its fronts and its changes play.
struct Stream {
    name: &'static str,
    bytes: &'static [u8],
    fronts: &'static [Front],
    changes: &'static [Change],
}

/// What bytes play to their end: so many pictures, and then `End` or `Bad`; or nothing, where they
/// do not begin as a film.
type Course = Option<(u32, Played)>;

const NO_FILM: Course = None;

const BAD_0: Course = Some((0, Played::Bad));

const BAD_1: Course = Some((1, Played::Bad));

const BAD_2: Course = Some((2, Played::Bad));

const END_2: Course = Some((2, Played::End));

/// Lengths from one to another one, and what so many of the first bytes play.
type Front = (usize, usize, Course);

/// A place, bytes from one to another one, and what the stream plays where one of them stands there
/// and not its own, which is in no row.
type Change = (usize, u8, u8, Course);

/// Fronts of the film of the part at the top left.
const FRONTS_LEFT: [Front; 5] = [
    (0, 7, NO_FILM),
    (8, 16, BAD_0),
    (17, 25, BAD_1),
    (26, 26, BAD_2),
    (27, 27, END_2),
];

/// Fronts of the film of the part at the top right.
const FRONTS_RIGHT: [Front; 5] = [
    (0, 7, NO_FILM),
    (8, 16, BAD_0),
    (17, 19, BAD_1),
    (20, 20, BAD_2),
    (21, 21, END_2),
];

/// Fronts of the film whose tiles are cut off.
const FRONTS_CUT: [Front; 5] = [
    (0, 7, NO_FILM),
    (8, 30, BAD_0),
    (31, 57, BAD_1),
    (58, 58, BAD_2),
    (59, 59, END_2),
];

/// Changes of the film of the part at the top left.
const CHANGED_LEFT: [Change; 47] = [
    (0, 0, 77, NO_FILM),
    (0, 79, 255, NO_FILM),
    (1, 0, 66, NO_FILM),
    (1, 68, 255, NO_FILM),
    (2, 0, 64, NO_FILM),
    (2, 66, 255, NO_FILM),
    (3, 0, 79, NO_FILM),
    (3, 81, 255, NO_FILM),
    (4, 0, 0, NO_FILM),
    (4, 1, 3, BAD_0),
    (4, 5, 5, BAD_1),
    (4, 6, 255, BAD_0),
    (5, 1, 3, BAD_0),
    (5, 4, 255, NO_FILM),
    (6, 0, 0, NO_FILM),
    (6, 1, 1, BAD_0),
    (6, 3, 255, BAD_0),
    (7, 1, 2, BAD_0),
    (7, 3, 255, NO_FILM),
    (8, 0, 0, BAD_0),
    (8, 2, 255, BAD_0),
    (9, 0, 0, BAD_1),
    (9, 2, 255, BAD_0),
    (10, 1, 255, BAD_0),
    (11, 1, 255, BAD_0),
    (12, 1, 255, BAD_0),
    (13, 0, 3, BAD_0),
    (13, 4, 5, BAD_1),
    (13, 6, 6, BAD_0),
    (13, 8, 255, BAD_0),
    (14, 1, 255, END_2),
    (15, 1, 255, END_2),
    (16, 0, 0, BAD_0),
    (16, 1, 254, END_2),
    (17, 0, 0, BAD_1),
    (17, 2, 255, BAD_1),
    (18, 0, 0, BAD_2),
    (18, 2, 255, BAD_1),
    (19, 1, 255, BAD_1),
    (20, 1, 255, BAD_1),
    (21, 1, 255, BAD_1),
    (22, 0, 6, BAD_1),
    (22, 8, 255, BAD_1),
    (23, 0, 254, END_2),
    (24, 1, 255, END_2),
    (25, 1, 255, END_2),
    (26, 1, 255, BAD_2),
];

/// Changes of the film of the part at the top right.
const CHANGED_RIGHT: [Change; 40] = [
    (0, 0, 77, NO_FILM),
    (0, 79, 255, NO_FILM),
    (1, 0, 66, NO_FILM),
    (1, 68, 255, NO_FILM),
    (2, 0, 64, NO_FILM),
    (2, 66, 255, NO_FILM),
    (3, 0, 79, NO_FILM),
    (3, 81, 255, NO_FILM),
    (4, 0, 0, NO_FILM),
    (4, 1, 3, BAD_0),
    (4, 5, 5, BAD_1),
    (4, 6, 255, BAD_0),
    (5, 1, 3, BAD_0),
    (5, 4, 255, NO_FILM),
    (6, 0, 0, NO_FILM),
    (6, 1, 1, BAD_0),
    (6, 3, 255, BAD_0),
    (7, 1, 2, BAD_0),
    (7, 3, 255, NO_FILM),
    (8, 0, 0, BAD_0),
    (8, 2, 255, BAD_0),
    (9, 0, 0, BAD_1),
    (9, 2, 255, BAD_0),
    (10, 1, 255, BAD_0),
    (11, 1, 255, BAD_0),
    (12, 1, 255, BAD_0),
    (13, 0, 4, BAD_0),
    (13, 5, 5, BAD_1),
    (13, 6, 6, BAD_0),
    (13, 8, 255, BAD_0),
    (14, 1, 255, END_2),
    (15, 1, 255, END_2),
    (16, 0, 0, BAD_0),
    (16, 1, 31, END_2),
    (16, 33, 255, END_2),
    (17, 0, 0, BAD_1),
    (17, 2, 255, BAD_1),
    (18, 1, 255, BAD_1),
    (19, 1, 255, BAD_1),
    (20, 1, 255, BAD_2),
];

/// Changes of the film whose tiles are cut off.
const CHANGED_CUT: [Change; 102] = [
    (0, 0, 77, NO_FILM),
    (0, 79, 255, NO_FILM),
    (1, 0, 66, NO_FILM),
    (1, 68, 255, NO_FILM),
    (2, 0, 64, NO_FILM),
    (2, 66, 255, NO_FILM),
    (3, 0, 79, NO_FILM),
    (3, 81, 255, NO_FILM),
    (4, 0, 0, NO_FILM),
    (4, 1, 19, BAD_0),
    (4, 21, 21, BAD_1),
    (4, 22, 255, BAD_0),
    (5, 1, 3, BAD_0),
    (5, 4, 255, NO_FILM),
    (6, 0, 0, NO_FILM),
    (6, 1, 17, BAD_0),
    (6, 19, 255, BAD_0),
    (7, 1, 2, BAD_0),
    (7, 3, 255, NO_FILM),
    (8, 0, 0, BAD_0),
    (8, 2, 255, BAD_0),
    (9, 0, 1, BAD_1),
    (9, 3, 255, BAD_0),
    (10, 1, 255, BAD_0),
    (11, 1, 255, BAD_0),
    (12, 1, 255, BAD_0),
    (13, 1, 255, BAD_0),
    (14, 1, 255, END_2),
    (15, 1, 255, END_2),
    (16, 0, 0, BAD_0),
    (16, 1, 254, END_2),
    (17, 0, 253, BAD_0),
    (17, 255, 255, BAD_0),
    (18, 1, 255, END_2),
    (19, 1, 255, END_2),
    (20, 1, 254, END_2),
    (20, 255, 255, BAD_0),
    (21, 0, 2, BAD_0),
    (21, 4, 255, BAD_0),
    (22, 1, 255, BAD_0),
    (23, 0, 2, BAD_0),
    (23, 3, 4, BAD_1),
    (23, 5, 5, BAD_0),
    (23, 7, 255, BAD_0),
    (24, 1, 255, END_2),
    (25, 1, 255, END_2),
    (26, 1, 255, END_2),
    (27, 1, 255, BAD_0),
    (28, 0, 0, END_2),
    (28, 2, 255, END_2),
    (29, 0, 1, END_2),
    (29, 3, 255, END_2),
    (30, 0, 2, END_2),
    (30, 4, 255, END_2),
    (31, 0, 0, BAD_1),
    (31, 2, 255, BAD_1),
    (32, 0, 3, BAD_2),
    (32, 5, 255, BAD_1),
    (33, 1, 255, BAD_1),
    (34, 1, 255, BAD_1),
    (35, 1, 255, BAD_1),
    (36, 0, 254, BAD_1),
    (37, 0, 16, END_2),
    (37, 18, 255, END_2),
    (38, 0, 33, END_2),
    (38, 35, 255, END_2),
    (39, 0, 50, END_2),
    (39, 52, 255, END_2),
    (40, 0, 0, BAD_1),
    (40, 2, 255, BAD_1),
    (41, 1, 255, BAD_1),
    (42, 0, 62, BAD_1),
    (42, 64, 255, BAD_1),
    (43, 0, 16, END_2),
    (43, 18, 255, END_2),
    (44, 0, 33, END_2),
    (44, 35, 255, END_2),
    (45, 0, 50, END_2),
    (45, 52, 255, END_2),
    (46, 0, 1, BAD_1),
    (46, 3, 255, BAD_1),
    (47, 1, 255, BAD_1),
    (48, 0, 30, BAD_1),
    (48, 32, 255, BAD_1),
    (49, 0, 16, END_2),
    (49, 18, 255, END_2),
    (50, 0, 33, END_2),
    (50, 35, 255, END_2),
    (51, 0, 50, END_2),
    (51, 52, 255, END_2),
    (52, 0, 2, BAD_1),
    (52, 4, 255, BAD_1),
    (53, 1, 255, BAD_1),
    (54, 0, 6, BAD_1),
    (54, 8, 255, BAD_1),
    (55, 0, 16, END_2),
    (55, 18, 255, END_2),
    (56, 0, 33, END_2),
    (56, 35, 255, END_2),
    (57, 0, 50, END_2),
    (57, 52, 255, END_2),
    (58, 1, 255, BAD_2),
];

/// Each front of a stream is in a row, and each of the 255 other bytes in each place.
fn assert_whole(rt: &impl Abort, of: &Stream) {
    let length = of.bytes.len();
    let found = (fronts(of.fronts), changes(of.changes));
    let want = (length.saturating_add(1), length.saturating_mul(255));
    same(rt, of.name, &found, &want);
}

/// How many fronts the rows are of.
fn fronts(rows: &[Front]) -> usize {
    let mut count: usize = 0;
    for (from, to, _) in rows {
        count = count
            .saturating_add(to.saturating_sub(*from))
            .saturating_add(1);
    }
    count
}

/// How many changes they are of.
fn changes(rows: &[Change]) -> usize {
    let mut count: usize = 0;
    for (_, from, to, _) in rows {
        count = count
            .saturating_add(to.saturating_sub(*from) as usize)
            .saturating_add(1);
    }
    count
}

fn assert_fronts(rt: &impl Abort, alloc: Global, of: &Stream) {
    for row in of.fronts {
        assert_front(rt, alloc, of, row);
    }
}

/// Fronts of these lengths play so.
fn assert_front(rt: &impl Abort, alloc: Global, of: &Stream, row: &Front) {
    let (from, to, course) = *row;
    for length in from..=to {
        let front = of.bytes.get(..length).expect(rt, "so many bytes");
        let found = (length, played(rt, alloc, front));
        same(rt, of.name, &found, &(length, course));
    }
}

fn assert_changes(rt: &impl Abort, alloc: Global, of: &Stream) {
    for row in of.changes {
        let mut copy = of.bytes.to_vec(alloc).expect(rt, "memory");
        assert_change(rt, alloc, of.name, &mut copy, row);
    }
}

/// A copy of the stream plays so with each of these bytes in this place.
fn assert_change(rt: &impl Abort, alloc: Global, name: &str, copy: &mut [u8], row: &Change) {
    let (at, from, to, course) = *row;
    for byte in from..=to {
        *copy.get_mut(at).expect(rt, "a place") = byte;
        let found = (at, byte, played(rt, alloc, copy));
        same(rt, name, &found, &(at, byte, course));
    }
}

/// What bytes play.
fn played(rt: &impl Abort, alloc: Global, bytes: &[u8]) -> Course {
    let Some(mut player) = Player::new(bytes) else {
        return None;
    };
    let (width, height) = player.size();
    let mut frame = black(rt, alloc, width, height);
    Some(play(&mut player, &mut frame))
}

/// Plays to the end, and at most 100 pictures.
fn play(player: &mut Player<'_>, frame: &mut [u32]) -> (u32, Played)
    requires { IsPicture player.old.width player.old.height frame.old }
{
    for pictures in 0..100 {
        let now = player.next(frame);
        if now != Played::Frame {
            return (pictures, now);
        }
    }
    (100, Played::Frame)
}

/// A black picture.
pub fn black(rt: &impl Abort, alloc: Global, w: u32, h: u32) -> Vec<u32>
    requires { IsPictureSize w h }
    ensures { IsPicture w h result.items }
{
    repeated(rt, alloc, 0, (w * h) as usize)
}
