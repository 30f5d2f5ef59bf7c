//! The commands `run` and `clip`, with each client on a thread of its own, at gates that see which
//! thread has come how far.

use crate::cases::assert_case;
use crate::cases::rules::titles;
use crate::cases::table::{Case, lines_of};
use crate::checks::{must, same};
use nit_actor::Gate;
use std::alloc::Global;
use std::process::Abort;
use std::sync::Wait;
use std::sync::atomic::{AtomicBool, AtomicU32, Ordering};
use std::thread::Threads;

#[test]
fn both_clients_at_once(rt: HostRuntime) {
    for title in titles(&rt, rt.alloc(), MEETING).iter() {
        assert_meets(&rt, rt.alloc(), title);
    }
}

#[test]
fn strokes_wait_for_their_phase(rt: HostRuntime) {
    for title in titles(&rt, rt.alloc(), PHASES).iter() {
        assert_waits(&rt, rt.alloc(), title);
    }
}

#[test]
fn each_line_passes_the_gate(rt: HostRuntime) {
    for title in titles(&rt, rt.alloc(), ROUNDS).iter() {
        assert_rounds(&rt, rt.alloc(), title);
    }
}

const MEETING: &str = r#"

case each of two clients waits at its first line for the other
words run, two.toml
file two.toml CONFIG
file a.nit =view\n
file b.nit =view\n
file two.in =
ends 0 =nitpicker: clients 2 entries 3 frames 1\n
asked =two.toml a.nit b.nit two.in final.ppm events-a.txt events-b.txt journal.txt
there =two.toml a.nit b.nit two.in final.ppm events-a.txt events-b.txt journal.txt

"#;

const PHASES: &str = r#"

case a stroke waits for its phase
words run, one.toml
file one.toml ONE
file a.nit =phase\nfill 0 0 1 1 FF0000\n
file one.in =phase\n
ends 0 =nitpicker: clients 1 entries 1 frames 1\n
asked =one.toml a.nit one.in final.ppm events-a.txt journal.txt
there =one.toml a.nit one.in final.ppm events-a.txt journal.txt

case a stroke waits for its phase beside clip scripts
words clip, one.toml
file one.toml ONE
file a.nit =phase\nfill 0 0 1 1 FF0000\n
file one.in =phase\n
file a.nit.clip =phase\n
ends 0 =nitpicker: clients 1 entries 1 frames 1\n
asked =one.toml a.nit one.in a.nit.clip final.ppm events-a.txt journal.txt clip.txt
there =one.toml a.nit one.in a.nit.clip final.ppm events-a.txt journal.txt clip.txt

text ONE
| [screen]
| width = 8
| height = 4
|
| [input]
| script = "one.in"
|
| [[client]]
| label = "a"
| donation = 65536
| script = "a.nit"

"#;

const ROUNDS: &str = r#"

base five
file two.toml CONFIG
file a.nit =view\nphase\nbuffer 1 1\nfill 0 0 1 1 FF0000\nfill 0 0 1 1 FF0000\n
file b.nit =view\nphase\ntake\nview\nfill 0 0 1 1 0000FF\n
file two.in =motion 1 1\nphase\nshot\nmotion 2 1\n
ends 0 =nitpicker: clients 2 entries 9 frames 2\n
whole ROUNDS

case each line comes to the gate once
with five
words run, two.toml
asked =two.toml a.nit b.nit two.in shot-1.ppm final.ppm events-a.txt events-b.txt journal.txt
there =two.toml a.nit b.nit two.in shot-1.ppm final.ppm events-a.txt events-b.txt journal.txt

case each line comes to the gate once beside clip scripts
with five
words clip, two.toml
file a.nit.clip =paste\nphase\n
file b.nit.clip =paste\nphase\n
asked CLIPPED_ROUNDS
there CLIPPED_ROUNDS
holds clip.txt =clip 1 0 not-focused < paste\nclip 2 1 not-focused < paste\n

text ROUNDS
| call 0 handle 1 < view
| call 1 handle 1 < view
| input motion 1 1
| call 0 done < buffer 1 1
| call 1 no-event < take
| shot 1
| call 1 handle 2 < view
| input motion 2 1
| final

text CLIPPED_ROUNDS
=two.toml a.nit b.nit two.in a.nit.clip b.nit.clip shot-1.ppm final.ppm events-a.txt events-b.txt
= journal.txt clip.txt

"#;

/// The case of this title of a table comes out so at this gate.
fn assert_at<R: Abort + Threads + Wait + Sync, G: Gate>(
    rt: &R,
    alloc: Global,
    table: &str,
    title: &str,
    gate: &G,
) {
    let lines = lines_of(rt, alloc, table, title);
    let case = Case {
        table,
        title,
        lines: &lines,
    };
    assert_case(rt, alloc, &case, gate);
}

// ---- both clients at once

/// A gate at which each of two clients shows that it has come, and looks for the other.
#[derive(Drop)]
struct Meeting {
    first: Visit,
    second: Visit,
}

/// Whether a client has come to its first line, and whether it has seen the other one there.
#[derive(Drop)]
struct Visit {
    came: AtomicBool,
    met: AtomicBool,
}

impl Visit {
    fn new() -> Visit {
        Visit {
            came: AtomicBool::new(false),
            met: AtomicBool::new(false),
        }
    }

    /// Comes, and looks for the other at most 1,000,000,000 times.
    fn meet(&self, other: &Visit) {
        self.came.store(true, Ordering::SeqCst);
        for _look in 0..1_000_000_000 {
            if other.came.load(Ordering::SeqCst) {
                self.met.store(true, Ordering::SeqCst);
                return;
            }
        }
    }
}

impl Gate for Meeting {
    fn at(&self, actor: u32, line: u32) {
        if line == 1 && actor == 0 {
            self.first.meet(&self.second);
        } else if line == 1 && actor == 1 {
            self.second.meet(&self.first);
        }
    }
}

/// In the case of this title each of two clients waits at its first line until the other has come
/// to its own. Clients that run one after the other do not meet.
fn assert_meets<R: Abort + Threads + Wait + Sync>(rt: &R, alloc: Global, title: &str) {
    let gate = Meeting {
        first: Visit::new(),
        second: Visit::new(),
    };
    assert_at(rt, alloc, MEETING, title, &gate);
    must(rt, title, gate.first.met.load(Ordering::SeqCst));
    must(rt, title, gate.second.met.load(Ordering::SeqCst));
}

// ---- phases

/// A gate at which the user, before its first line, looks for a while whether client 0 has come to
/// its second line. Then it raises a flag. Client 0 sees whether the flag is raised when it comes
/// there.
#[derive(Drop)]
struct Ending {
    came: AtomicBool,
    raised: AtomicBool,
    seen: AtomicBool,
}

impl Gate for Ending {
    fn at(&self, actor: u32, line: u32) {
        if actor == 0 && line == 2 {
            self.came.store(true, Ordering::SeqCst);
            self.seen
                .store(self.raised.load(Ordering::SeqCst), Ordering::SeqCst);
        } else if actor == 1 && line == 1 {
            for _look in 0..1_000_000 {
                if self.came.load(Ordering::SeqCst) {
                    break;
                }
            }
            self.raised.store(true, Ordering::SeqCst);
        }
    }
}

/// In the case of this title the client's stroke waits until the user has ended the phase before.
fn assert_waits<R: Abort + Threads + Wait + Sync>(rt: &R, alloc: Global, title: &str) {
    let gate = Ending {
        came: AtomicBool::new(false),
        raised: AtomicBool::new(false),
        seen: AtomicBool::new(false),
    };
    assert_at(rt, alloc, PHASES, title, &gate);
    must(rt, title, gate.seen.load(Ordering::SeqCst));
}

// ---- each line

/// How many lines the user has. The clients have one more, behind which nobody waits.
const LINES: u32 = 4;

/// A gate at which two clients and the user do their lines by rounds: in each the clients in order,
/// and then the user.
#[derive(Drop)]
struct ByRounds {
    /// To which line each actor has come, from 1.
    came: [AtomicU32; 3],
    /// An actor came to another line than its next one, or waited in vain for its turn.
    astray: AtomicBool,
}

impl ByRounds {
    /// Whether the actor may do this line: those before it have done theirs of this round, so that
    /// they have come to the next one, and those behind it have come to theirs.
    fn has_turn(&self, actor: usize, line: u32) -> bool {
        for (of, came) in self.came.iter().enumerate() {
            let round = if of < actor {
                line.saturating_add(1)
            } else {
                line
            };
            if came.load(Ordering::SeqCst) < round {
                return false;
            }
        }
        true
    }

    /// Looks at most 1,000,000,000 times for the actor's turn.
    fn await_turn(&self, actor: usize, line: u32) {
        for _look in 0..1_000_000_000 {
            if self.has_turn(actor, line) || self.astray.load(Ordering::SeqCst) {
                return;
            }
        }
        self.astray.store(true, Ordering::SeqCst);
    }
}

impl Gate for ByRounds {
    fn at(&self, actor: u32, line: u32) {
        let actor = actor as usize;
        let Some(came) = self.came.get(actor) else {
            return self.astray.store(true, Ordering::SeqCst);
        };
        if came.swap(line, Ordering::SeqCst).saturating_add(1) != line {
            self.astray.store(true, Ordering::SeqCst);
        }
        if line <= LINES {
            self.await_turn(actor, line);
        }
    }
}

/// In the case of this title each line of each actor comes to the gate once, in order, before it is
/// done, and outside the lock: others call while it waits there.
fn assert_rounds<R: Abort + Threads + Wait + Sync>(rt: &R, alloc: Global, title: &str) {
    let gate = ByRounds {
        came: [AtomicU32::new(0), AtomicU32::new(0), AtomicU32::new(0)],
        astray: AtomicBool::new(false),
    };
    assert_at(rt, alloc, ROUNDS, title, &gate);
    must(rt, title, !gate.astray.load(Ordering::SeqCst));
    let [first, second, user] = &gate.came;
    let came = [
        first.load(Ordering::SeqCst),
        second.load(Ordering::SeqCst),
        user.load(Ordering::SeqCst),
    ];
    same(rt, title, &came, &[LINES + 1, LINES + 1, LINES]);
}
