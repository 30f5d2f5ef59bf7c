//! The rounds of scripts, turn by turn.

use crate::checks::{must, same};
use nit_rounds::{Turn, Turns};
use nit_script::{Client, parse_client, parse_input};
use std::alloc::Global;
use std::process::Abort;

#[test]
fn rounds(rt: HostRuntime) {
    for round in &ROUNDS {
        assert_round(&rt, rt.alloc(), round);
    }
}

static ROUNDS: [Round; 4] = [
    (
        "one actor in each phase",
        &[
            "buffer 4 2\nfill 0 0 4 2 FF0000\nview\nplace 1 0 0 4 2\nphase\nphase\nphase\n",
            "phase\nbuffer 4 2\nfill 0 0 4 2 0000FF\nview\nplace 1 0 0 4 2\nphase\nphase\n\
             place 1 4 2 4 2\n",
        ],
        "phase\nphase\nshot\nphase\n",
        &[
            (0, 0),
            (1, 0),
            (USER, 0),
            (0, 1),
            (0, 2),
            (0, 3),
            (0, 4),
            (0, 5),
            (1, 1),
            (USER, 1),
            (1, 2),
            (1, 3),
            (1, 4),
            (1, 5),
            (0, 6),
            (1, 6),
            (USER, 2),
            (USER, 3),
            (1, 7),
        ],
    ),
    (
        "the first to end a phase wait",
        &["view\nview\nphase\nview\n", "phase\nview\nview\nview\n"],
        "phase\nmotion 1 1\n",
        &[
            (0, 0),
            (1, 0),
            (USER, 0),
            (0, 1),
            (0, 2),
            (0, 3),
            (1, 1),
            (USER, 1),
            (1, 2),
            (1, 3),
        ],
    ),
    (
        "a last phase without lines",
        &["phase\ntake\n", "view\nphase\n"],
        "phase\n",
        &[(0, 0), (1, 0), (USER, 0), (1, 1), (0, 1)],
    ),
    ("no lines", &[""], "", &[]),
];

/// A round: what is special about it, the scripts of clients and of the user, and the turns that
/// come: whose line it is, and its number.
type Round = (
    &'static str,
    &'static [&'static str],
    &'static str,
    &'static [(u32, usize)],
);

const USER: u32 = 99;

fn assert_round(rt: &impl Abort, alloc: Global, round: &Round) {
    let (case, scripts, user, want) = *round;
    let clients = clients(rt, alloc, scripts);
    let input = parse_input(alloc, user.as_bytes()).expect(rt, "an input");
    must(rt, case, clients.len() <= 16);
    assert_turns(rt, &mut Turns::new(&clients, &input), case, want);
}

/// These turns come, and then none any more.
fn assert_turns(rt: &impl Abort, turns: &mut Turns, case: &str, want: &[(u32, usize)]) {
    for (who, line) in want {
        same(rt, case, &turns.next(), &Some(turn(*who, *line)));
    }
    same(rt, case, &(turns.next(), turns.next()), &(None, None));
}

/// The turn of a client's line, or of the user's.
fn turn(who: u32, line: usize) -> Turn {
    if who == USER {
        Turn::User { line }
    } else {
        Turn::Client { sid: who, line }
    }
}

fn clients(rt: &impl Abort, alloc: Global, texts: &[&str]) -> Vec<Client> {
    let mut all = Vec::new(alloc);
    for text in texts {
        let client = parse_client(alloc, text.as_bytes()).expect(rt, "a script");
        all.push(client).expect(rt, "memory");
    }
    all
}
