//! Plans of scripts, and what their strokes leave.
ghost use Rattle.std.specs.Prelude.{◌≡◌, None, Some, IfOk};
ghost use Rattle.nit_slots.specs.Account.{IsDonation};
ghost use Rattle.nit_plan.specs.ScriptWords.{words_after, words_left};
ghost use Rattle.nit_plan.specs.Surface.{IsPaintedTo};

use crate::checks::same;
use Expect::{Nothing, Taken};
use nit_events::Reply;
use nit_plan::laws::no_line_done;
use nit_plan::{Expect, Plan, Step, ink_of, plan_of, stroke};
use nit_rect::NoMemory;
use nit_script::{Client, parse_client};
use nit_slots::room;
use nit_word::Inked;
use std::alloc::Global;
use std::process::Abort;

#[test]
fn plans(rt: HostRuntime) {
    for case in PLANS {
        let plan = planned(&rt, rt.alloc(), case);
        assert_plan(&rt, case, &plan);
    }
}

#[test]
fn words(rt: HostRuntime) {
    for case in WORDS {
        let glass = glass_of(&rt, rt.alloc(), case);
        assert_words(&rt, case, glass.words());
    }
}

/// A step with a buffer of w by h after it.
macro_rules! step {
    ($w:expr, $h:expr, $expect:expr) => {
        Step {
            w: $w,
            h: $h,
            expect: $expect,
        }
    };
}

const PLANS: &[PlanCase] = &[
    PlanCase {
        title: "a painter",
        text: "buffer 4 2\nfill 0 0 4 2 FF0000\nview\nplace 1 0 0 4 2\nphase\nphase\nphase\n",
        donation: 65536,
        steps: &[
            step!(4, 2, DONE),
            step!(4, 2, Nothing),
            step!(4, 2, FIRST_VIEW),
            step!(4, 2, DONE),
            step!(4, 2, Nothing),
            step!(4, 2, Nothing),
            step!(4, 2, Nothing),
        ],
        ink: &[0xFF0000],
    },
    PlanCase {
        title: "a session that the user kills",
        text: "buffer 4 4\nfill 0 0 4 4 FF0000\nview\nplace 1 0 0 4 4\n\
         phase\nphase\ntake\nview\nclose\n",
        donation: 65536,
        steps: &[
            step!(4, 4, DONE),
            step!(4, 4, Nothing),
            step!(4, 4, FIRST_VIEW),
            step!(4, 4, DONE),
            step!(4, 4, Nothing),
            step!(4, 4, Nothing),
            step!(4, 4, Taken),
            step!(4, 4, SECOND_VIEW),
            step!(0, 0, DONE),
        ],
        ink: &[0xFF0000],
    },
    PlanCase {
        title: "a take behind a close",
        text: "take\nbuffer 2 1\ncheck 0 0 2 1 000001 000002\nclose\ntake\nview\n",
        donation: 512,
        steps: &[
            step!(0, 0, Taken),
            step!(2, 1, DONE),
            step!(2, 1, Nothing),
            step!(0, 0, DONE),
            step!(0, 0, CLOSED),
            step!(0, 0, CLOSED),
        ],
        ink: &[1, 2],
    },
    PlanCase {
        title: "refusals of a small donation",
        text: "buffer 4 4\nview\nbuffer 8 8\nupgrade 513\nupgrade 512\nbuffer 8 8\n\
         destroy 1\nview\nfront 1\n",
        donation: 512,
        steps: &[
            step!(4, 4, DONE),
            step!(4, 4, FIRST_VIEW),
            step!(
                4,
                4,
                Expect::Reply(Reply::OutOfQuota {
                    need: 512,
                    left: 256
                })
            ),
            step!(
                4,
                4,
                Expect::Reply(Reply::NoReserve {
                    need: 513,
                    left: 512
                })
            ),
            step!(4, 4, DONE),
            step!(8, 8, DONE),
            step!(8, 8, DONE),
            step!(8, 8, SECOND_VIEW),
            step!(8, 8, Expect::Reply(Reply::NoSuchView(1))),
        ],
        ink: &[],
    },
];

const WORDS: &[WordsCase] = &[
    WordsCase {
        title: "the red rectangle",
        text: "buffer 4 2\nfill 0 0 4 2 FF0000\nview\nplace 1 1 1 4 2\n",
        donation: 65536,
        most: 16384,
        first: &[0xFF0000; 8],
    },
    WordsCase {
        title: "an accepted buffer clears its own words alone",
        text: "buffer 2 2\nfill 0 0 2 2 000007\nbuffer 3 1\nfill 1 0 1 1 000009\n",
        donation: 512,
        most: 128,
        first: &[0, 9, 0, 7],
    },
    WordsCase {
        title: "a refused buffer clears nothing, and a stroke after a close has no place",
        text: "buffer 2 2\nfill 0 0 2 2 000007\nbuffer 9 9\nclose\nfill 0 0 2 2 000009\n",
        donation: 512,
        most: 128,
        first: &[7, 7, 7, 7],
    },
];

/// A title, a script, its donation, its steps, and the words that it may draw.
struct PlanCase {
    title: &'static str,
    text: &'static str,
    donation: u32,
    steps: &'static [Step],
    ink: &'static [u32],
}

/// A title, a script, its donation, the most words that it may have, and the first of those that it
/// leaves.
struct WordsCase {
    title: &'static str,
    text: &'static str,
    donation: u32,
    most: usize,
    first: &'static [u32],
}

const DONE: Expect = Expect::Reply(Reply::Done);

const FIRST_VIEW: Expect = Expect::Reply(Reply::Handle(1));

const SECOND_VIEW: Expect = Expect::Reply(Reply::Handle(2));

const CLOSED: Expect = Expect::Reply(Reply::Closed);

/// The plan of the text.
fn planned(rt: &impl Abort, alloc: Global, case: &PlanCase) -> Plan {
    assert_donation(rt, case.donation);
    let client = parse_client(alloc, case.text.as_bytes()).expect(rt, "a script");
    plan_of(alloc, &client, case.donation).expect(rt, "a plan")
}

/// The plan has these steps and this ink.
fn assert_plan(rt: &impl Abort, case: &PlanCase, plan: &Plan) {
    same(rt, case.title, &plan.steps(), &case.steps);
    same(rt, case.title, &plan.ink(), &case.ink);
}

/// A session may open with this donation.
fn assert_donation(rt: &impl Abort, donation: u32)
    ensures { IsDonation donation }
{
    assert!(rt; 256 <= donation && donation <= 8_388_608);
}

/// What the lines of the text leave.
fn glass_of(rt: &impl Abort, alloc: Global, case: &WordsCase) -> Inked {
    assert_donation(rt, case.donation);
    let client = parse_client(alloc, case.text.as_bytes()).expect(rt, "a script");
    strokes(alloc, &client, case.donation).expect(rt, "a glass")
}

/// The first words are these, and all others 0.
fn assert_words(rt: &impl Abort, case: &WordsCase, words: &[u32]) {
    let fits = (case.first.len() <= words.len(), words.len() <= case.most);
    same(rt, case.title, &fits, &(true, true));
    for (k, word) in words.iter().enumerate() {
        let want = case.first.get(k).unwrap_or(&0);
        same(rt, case.title, &(k, word), &(k, want));
    }
}

/// All lines of the script, done one after the other on the words of a new session.
fn strokes(alloc: Global, client: &Client, donation: u32) -> Result<Inked, NoMemory>
    requires { IsDonation donation }
    ensures { IfOk result (λ glass. glass.words ≡ Some (words_left client.now donation)) }
{
    let plan = plan_of(alloc, client, donation)?;
    let ink = ink_of(alloc, client.lines())?;
    let mut glass = Inked::blank(alloc, 0, (room(donation) / 8) as usize, ink)?;
    no_line_done();
    do_lines(&mut glass, client, &plan, donation);
    Ok(glass)
}

/// Does all lines of the script on a glass on which none is done and that knows no stages.
fn do_lines(glass: &mut Inked, client: &Client, plan: &Plan, donation: u32)
    requires told { glass.old.words ≡ Some (words_after client.now donation 0) }
    requires before { IsPaintedTo client.now donation plan.now 0 glass.old }
    requires stages { glass.old.stages ≡ None }
    ensures { glass.new.words ≡ Some (words_left client.now donation) }
{
    for line in 0..client.lines().len() {
        stroke(glass, client, plan, line);
    }
}
