//! Runs through a hall. Clip scripts are served beside clients' scripts: what each clip call is
//! answered is what the clip list has of it at the end. And all lines of an actor are done by one
//! call, on a thread or not.

ghost use Rattle.std.specs.Prelude.{◌≡◌, All};
ghost use Rattle.std.specs.List.{AllZip};
ghost use Rattle.nit_script.specs.Phases.{phases};
ghost use Rattle.nit_clip.specs.ClipGrammar.{clip_phases};
ghost use Rattle.nit_config.specs.ConfigurationRanges.{IsRunConfiguration};
ghost use Rattle.nit_hall.specs.Pass.{Belongs, UserBelongs};
ghost use Rattle.nit_hall.specs.ClipPass.{ClipBelongs};
ghost use Rattle.nit_tests.specs.HallOpening.{IsOpenRoom};

use crate::checks::{fail, must, same};
use crate::scenes::acting::{Way, act, act_clips};
use crate::scenes::actors::{Client, User, clients};
use crate::scenes::hall_opening::{buffers_of, canvases_of, plans_of};
use nit_clip::{ClipEntry, ClipReply, ClipScript, clip_text, parse_clip};
use nit_config::{Config, read_config};
use nit_hall::{ClipOpened, ClipPass, Hall, Name, Opened, Parts, Pass, UserPass, open, open_clips};
use nit_script::{Client as ClientScript, Input, parse_client, parse_input, phases};
use std::alloc::Global;
use std::marker::Brand;
use std::process::Abort;
use std::sync::Wait;
use std::thread::Threads;

#[test]
fn two_clients_through_a_hall(rt: HostRuntime) {
    serve_row(&rt, rt.alloc(), &TWO_CLIENTS, Way::OneByOne);
}

#[test]
fn one_client_through_a_hall(rt: HostRuntime) {
    serve_row(&rt, rt.alloc(), &ONE_CLIENT, Way::OneByOne);
}

#[test]
fn all_clip_calls_of_a_client(rt: HostRuntime) {
    serve_row(&rt, rt.alloc(), &ONE_CLIENT, Way::ClipsHere);
    serve_row(&rt, rt.alloc(), &ONE_CLIENT, Way::ClipsThere);
}

/// Whichever client has a thread, and where none has, it comes out so.
#[test]
fn all_lines_of_an_actor(rt: HostRuntime) {
    serve_row(&rt, rt.alloc(), &IN_TURN, Way::Neither);
    serve_row(&rt, rt.alloc(), &IN_TURN, Way::First);
    serve_row(&rt, rt.alloc(), &IN_TURN, Way::Second);
}

/// The first asks without the focus, and then copies and pastes with it; the second never has it.
static TWO_CLIENTS: Row = Row {
    config: PAIR,
    scripts: &[LEFT, RIGHT],
    input: CLICK,
    clips: &["paste\nphase\nphase\ncopy =hi\npaste\n", LATE],
    wanted: "clip 3 0 not-focused < paste\n\
        clip 9 0 copied < copy =hi\n\
        clip 9 0 pasted =hi < paste\n\
        clip 9 1 not-focused < paste\n",
};

/// A client alone that is focused by a click and only pastes.
static ONE_CLIENT: Row = Row {
    config: ONE,
    scripts: &[LEFT],
    input: CLICK,
    clips: &[LATE],
    wanted: "clip 6 0 empty < paste\n",
};

/// Each phase has the lines of one actor, so there is one journal.
static IN_TURN: Row = Row {
    config: PAIR,
    scripts: &[RED, BLUE],
    input: "phase\nphase\nshot\nphase\n",
    clips: &["phase\nphase\nphase\n", "phase\nphase\nphase\n"],
    wanted: "call 0 done < buffer 4 2\n\
        call 0 handle 1 < view\n\
        call 0 done < place 1 0 0 4 2\n\
        call 1 done < buffer 4 2\n\
        call 1 handle 1 < view\n\
        call 1 done < place 1 0 0 4 2\n\
        shot 1\n\
        call 1 done < place 1 4 2 4 2\n",
};

/// Texts of a run, and the text of its clip list at the end, or of its journal where its lines are
/// not done one by one.
#[derive(Drop)]
struct Row {
    config: &'static str,
    scripts: &'static [&'static str],
    input: &'static str,
    clips: &'static [&'static str],
    wanted: &'static str,
}

/// Both clients of the drag, with a further phase.
const PAIR: &str = "[screen]\nwidth = 8\nheight = 4\n\n[input]\nscript = \"pair.in\"\n\n\
                    [[client]]\nlabel = \"a\"\ndonation = 65536\nscript = \"pa.nit\"\n\n\
                    [[client]]\nlabel = \"b\"\ndonation = 65536\nscript = \"pb.nit\"\n";

/// The first client alone.
const ONE: &str = "[screen]\nwidth = 8\nheight = 4\n\n[input]\nscript = \"one.in\"\n\n\
                   [[client]]\nlabel = \"a\"\ndonation = 65536\nscript = \"pa.nit\"\n";

const LEFT: &str = "buffer 4 4\nfill 0 0 4 4 FF0000\nview\nplace 1 0 0 4 4\nphase\nphase\n";

const RIGHT: &str = "buffer 4 4\nfill 0 0 4 4 0000FF\nview\nplace 1 4 0 4 4\nphase\nphase\n";

const RED: &str = "buffer 4 2\nfill 0 0 4 2 FF0000\nview\nplace 1 0 0 4 2\nphase\nphase\nphase\n";

const BLUE: &str = "phase\nbuffer 4 2\nfill 0 0 4 2 0000FF\nview\nplace 1 0 0 4 2\n\
                    phase\nphase\nplace 1 4 2 4 2\n";

/// A click on the left half.
const CLICK: &str = "phase\nmotion 1 1\npress 272\nrelease 272\nphase\n";

/// Asks once, in the last phase.
const LATE: &str = "phase\nphase\npaste\n";

/// How many phases there are.
const PHASES: u32 = 3;

/// Reads all texts, serves them through a hall, and looks at the clip list that is wanted.
fn serve_row<R: Abort + Threads + Wait + Sync>(rt: &R, alloc: Global, row: &Row, way: Way) {
    let config = read_config(alloc, row.config.as_bytes()).expect(rt, "a configuration");
    let read = Read {
        scripts: scripts_of(rt, alloc, row.scripts),
        input: parse_input(alloc, row.input.as_bytes()).expect(rt, "an input"),
        clips: clip_scripts_of(rt, alloc, row.clips),
    };
    serve_texts(rt, alloc, &config, &read, (way, row.wanted.as_bytes()));
}

fn scripts_of(rt: &impl Abort, alloc: Global, texts: &[&str]) -> Vec<ClientScript> {
    let mut scripts = Vec::new(alloc);
    for text in texts {
        let script = parse_client(alloc, text.as_bytes()).expect(rt, "a script");
        scripts.push(script).expect(rt, "memory for a script");
    }
    scripts
}

fn clip_scripts_of(rt: &impl Abort, alloc: Global, texts: &[&str]) -> Vec<ClipScript> {
    let mut scripts = Vec::new(alloc);
    for text in texts {
        let script = parse_clip(alloc, text.as_bytes()).expect(rt, "a clip script");
        scripts.push(script).expect(rt, "memory for a clip script");
    }
    scripts
}

/// What the texts of a row are.
#[derive(Drop)]
struct Read {
    scripts: Vec<ClientScript>,
    input: Input,
    clips: Vec<ClipScript>,
}

/// Opens a room with these scripts and clip scripts, of which there is one for each client, and
/// does all in this way.
fn serve_texts<R: Abort + Threads + Wait + Sync>(
    rt: &R,
    alloc: Global,
    config: &Config,
    read: &Read,
    wanted: (Way, &[u8]),
)
    requires configured { IsRunConfiguration config.now }
{
    let clients = read.scripts.as_slice();
    let clips = read.clips.as_slice();
    must(rt, "scripts", clients.len() == config.clients.len());
    must(rt, "clip scripts", clips.len() == clients.len());
    must_match(rt, clients, clips);
    let plans = plans_of(alloc, config, clients).expect(rt, "plans");
    let made = buffers_of(alloc, config, clients);
    let (buffers, keys) = made.expect(rt, "buffers");
    let canvases = canvases_of(alloc, &buffers, keys).expect(rt, "canvases");
    let parts = Parts {
        scripts: clients,
        plans: &plans,
        input: &read.input,
    };
    let opened = open(alloc, config, parts, canvases);
    let opened = opened.expect(rt, "a room");
    let opened = open_clips(alloc, opened, clips).expect(rt, "a room with clip scripts");
    serve_all::<Brand, R>(rt, alloc, opened, wanted.0, wanted.1);
}

/// Each clip script has as many phases as the client's script.
fn must_match(rt: &impl Abort, scripts: &[ClientScript], clips: &[ClipScript])
    ensures { AllZip (λ s q. clip_phases q ≡ phases s) scripts.now clips.now }
{
    match (scripts, clips) {
        ([], []) => {}
        ([script, scripts @ ..], [clip, clips @ ..]) => {
            must(
                rt,
                "as many phases",
                phases(clip.lines()) == phases(script.lines()),
            );
            must_match(rt, scripts, clips)
        }
        _ => fail(rt, "as many clip scripts"),
    }
}

/// Does all lines of an opening that `N` names in this way.
fn serve_all<'a, N: Name + Send + Sync, R: Abort + Threads + Wait + Sync>(
    rt: &R,
    alloc: Global,
    opened: ClipOpened<'a>,
    way: Way,
    wanted: &[u8],
)
    requires ready { IsOpenRoom N.parts opened.opened.room opened.opened.passes.items
        opened.opened.user opened.clips.items }
{
    let ClipOpened { opened, clips } = opened;
    let Opened { room, passes, user } = opened;
    let hall: Hall<'a, N> = Hall::new(room);
    match way {
        Way::OneByOne => serve_lines(rt, alloc, hall, (passes, clips, user), wanted),
        Way::ClipsHere | Way::ClipsThere => {
            act_clips(rt, alloc, hall, (passes, clips, user), (way, wanted))
        }
        _ => act(rt, alloc, hall, (passes, user), (way, wanted)),
    }
}

/// Does the lines one by one, in three phases: in each the clients in order, and then the user.
fn serve_lines<'a, N: Name, R: Abort + Wait>(
    rt: &R,
    alloc: Global,
    hall: Hall<'a, N>,
    actors: (Vec<Pass<'a>>, Vec<ClipPass<'a>>, UserPass<'a>),
    wanted: &[u8],
)
    requires passes { All (Belongs N.parts) actors.0.items }
    requires clips { All (ClipBelongs N.parts) actors.1.items }
    requires user { UserBelongs N.parts actors.2 }
{
    let (passes, clips, user) = actors;
    let mut clients: Vec<Client<'a, N>> = clients(rt, alloc, passes, clips);
    let mut user: User<'a, N> = User::new(user);
    let mut answers = Vec::new(alloc);
    for _ in 0..PHASES {
        do_phase(rt, &hall, &mut clients, &mut answers);
        user.do_phase(rt, &hall);
    }
    let room = hall.into_room();
    assert_listed(rt, alloc, answers.as_slice(), room.clip_list(), wanted);
}

/// Does a phase of each client, in order.
fn do_phase<'a, N: Name, R: Abort + Wait>(
    rt: &R,
    hall: &Hall<'a, N>,
    clients: &mut [Client<'a, N>],
    answers: &mut Vec<ClipReply>,
) {
    for client in clients.iter_mut() {
        client.do_phase(rt, hall, answers);
    }
}

/// The clip list has this text, and the answers in it are these.
fn assert_listed(
    rt: &impl Abort,
    alloc: Global,
    answers: &[ClipReply],
    entries: &[ClipEntry],
    wanted: &[u8],
) {
    let text = clip_text(alloc, entries).expect(rt, "memory for a text");
    same(rt, "the clip list", &text.as_slice(), &wanted);
    let mut listed = Vec::new(alloc);
    for entry in entries {
        listed.push(entry.reply).expect(rt, "memory for a reply");
    }
    same(rt, "the answers", &answers, &listed.as_slice());
}
