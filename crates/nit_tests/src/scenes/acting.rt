//! Whole runs through a hall: of each client's lines some are done on a thread, and the others on
//! the calling one, by turns with the user, as where a thread could not be started.

ghost use Rattle.std.specs.Prelude.{◌≡◌, ◌*◌, ◌∷◌, [], All, length, map};
ghost use Rattle.std.specs.List.{AllZip};
ghost use Rattle.nit_report.specs.Picture.{picture_length};
ghost use Rattle.nit_hall.specs.Pass.{Belongs, UserBelongs};
ghost use Rattle.nit_hall.specs.ClipPass.{AreDoneClips, ClipBelongs};
ghost use Rattle.nit_hall.specs.ClipOpening.{AreFirstClipPasses};
ghost use Rattle.nit_actor.specs.ClipRole.{GoTogether, IsPairIn, pair_role_of};

use crate::checks::{must, same};
use crate::words::repeated;
use nit_actor::{
    GatedHall, Open, Pair, UserAndDesk, run_actor, run_clips, run_mine, run_mine_clips,
};
use nit_clip::{ClipEntry, clip_text};
use nit_hall::{ClipPass, Hall, Name, Pass, UserPass};
use nit_report::{journal_text, ppm_len};
use nit_rounds::{Desk, PictureName};
use nit_store::MemoryStore;
use std::alloc::Global;
use std::process::Abort;
use std::sync::Wait;
use std::thread::{Threads, join};

/// How the lines of a run are done: one by one through the hall; or by the calls that do all lines
/// of an actor, with a thread for neither client or for one of the two. By the last two a client
/// alone does its clip calls too, on the calling thread or on its own.
#[derive(Clone, Copy)]
pub enum Way {
    OneByOne,
    Neither,
    First,
    Second,
    ClipsHere,
    ClipsThere,
}

/// The picture of the one shot of the run: the blue view is in front of the red one.
const SHOT: &str = "BBBB....BBBB....................";

/// Does all lines of two passes and of the user, and looks at the picture of the one shot and at
/// the text of the journal.
pub fn act<'a, N: Name + Send + Sync, R: Abort + Threads + Wait + Sync>(
    rt: &R,
    alloc: Global,
    hall: Hall<'a, N>,
    actors: (Vec<Pass<'a>>, UserPass<'a>),
    wanted: (Way, &[u8]),
)
    requires passes { All (Belongs N.parts) actors.0.items }
    requires user { UserBelongs N.parts actors.1 }
{
    let (mut passes, user) = actors;
    let (way, journal) = wanted;
    let mut store = MemoryStore::new(alloc, Vec::new(alloc), Vec::new(alloc));
    let mine = mine(rt, alloc, &hall, user, &mut store);
    run_started(rt, &hall, &mut passes, mine, way);
    assert_picture(rt, alloc, store.files());
    assert_journal(rt, alloc, hall, journal);
}

/// What the calling thread has: the user, and a desk over this store.
fn mine<'a, 's, N: Name>(
    rt: &impl Abort,
    alloc: Global,
    hall: &Hall<'a, N>,
    user: UserPass<'a>,
    store: &'s mut MemoryStore,
) -> UserAndDesk<'a, 's, MemoryStore>
    ensures user { result.user ≡ user.entry }
    ensures frame { length result.desk.frame.items
        ≡ N.parts.config.width * N.parts.config.height }
    ensures text { length result.desk.text.items
        ≡ picture_length N.parts.config.width N.parts.config.height }
{
    let (width, height) = hall.size();
    let text = vec![in alloc; 0; ppm_len(width, height)].expect(rt, "memory for a picture");
    let desk = Desk {
        store,
        frame: repeated(rt, alloc, 0, (width * height) as usize),
        text,
        fault: None,
        tried: PictureName::Final,
    };
    UserAndDesk { user, desk }
}

/// Does all lines and clip calls of one client and of the user, and looks at the text of the clip
/// list.
pub fn act_clips<'a, N: Name + Send + Sync, R: Abort + Threads + Wait + Sync>(
    rt: &R,
    alloc: Global,
    hall: Hall<'a, N>,
    actors: (Vec<Pass<'a>>, Vec<ClipPass<'a>>, UserPass<'a>),
    wanted: (Way, &[u8]),
)
    requires passes { All (Belongs N.parts) actors.0.items }
    requires clips { All (ClipBelongs N.parts) actors.1.items }
    requires together { AllZip GoTogether actors.0.items actors.1.items }
    requires first { AreFirstClipPasses N.parts actors.1.items }
    requires user { UserBelongs N.parts actors.2 }
{
    let (mut passes, mut clips, user) = actors;
    let (way, list) = wanted;
    let mut store = MemoryStore::new(alloc, Vec::new(alloc), Vec::new(alloc));
    let mine = mine(rt, alloc, &hall, user, &mut store);
    if let Way::ClipsThere = way {
        let (passes, clips) = (passes.as_mut_slice(), clips.as_mut_slice());
        run_parted_clips(rt, &hall, passes, clips, mine);
        return assert_list(rt, alloc, hall.into_room().clip_list(), list);
    }
    let mut clips = [run_one_here(rt, &hall, passes, clips, mine)];
    let mut room = hall.into_room();
    assert_list(rt, alloc, room.clips(&mut clips), list);
}

/// The one element of a list, which has no other.
#[tactic(auto, using(crate::proofs::OpeningLemmas::last_alone))]
fn only<T: Drop>(rt: &impl Abort, list: Vec<T>) -> T
    ensures { list.items ≡ result ∷ [] }
{
    let mut list = list;
    must(rt, "one client", list.len() == 1);
    let Some(one) = list.pop() else {
        unreachable!()
    };
    one
}

/// Does all of the one client and of the user on the calling thread.
fn run_one_here<'a, N: Name, R: Abort + Wait>(
    rt: &R,
    hall: &Hall<'a, N>,
    passes: Vec<Pass<'a>>,
    clips: Vec<ClipPass<'a>>,
    mine: UserAndDesk<'a, '_, MemoryStore>,
) -> ClipPass<'a>
    requires passes { All (Belongs N.parts) passes.items }
    requires clips { All (ClipBelongs N.parts) clips.items }
    requires together { AllZip GoTogether passes.items clips.items }
    requires first { AreFirstClipPasses N.parts clips.items }
    requires user { UserBelongs N.parts mine.user }
    requires frame { length mine.desk.frame.items ≡ N.parts.config.width * N.parts.config.height }
    requires text { length mine.desk.text.items
        ≡ picture_length N.parts.config.width N.parts.config.height }
    ensures { AreDoneClips N.parts (result ∷ []) }
{
    let alloc = *passes.allocator();
    let pass = only(rt, passes);
    let clip = only(rt, clips);
    let mut pairs = Vec::from_array(alloc, [Pair { pass, clip }]).expect(rt, "memory");
    run_pairs_here(rt, hall, &mut pairs, mine);
    let Pair { pass: _pass, clip } = only(rt, pairs);
    clip
}

/// Does all of these clients and of the user on the calling thread.
fn run_pairs_here<'a, N: Name, R: Wait>(
    rt: &R,
    hall: &Hall<'a, N>,
    pairs: &mut Vec<Pair<'a>>,
    mine: UserAndDesk<'a, '_, MemoryStore>,
)
    requires pairs { All (λ b. IsPairIn N.parts b.pass b.clip) pairs.old.items }
    requires user { UserBelongs N.parts mine.user }
    requires frame { length mine.desk.frame.items ≡ N.parts.config.width * N.parts.config.height }
    requires text { length mine.desk.text.items
        ≡ picture_length N.parts.config.width N.parts.config.height }
    ensures same { map (λ b. pair_role_of b.pass b.clip) pairs.new.items
        ≡ map (λ b. pair_role_of b.pass b.clip) pairs.old.items }
    ensures done { All (λ b. b.clip.next ≡ length b.clip.script) pairs.new.items }
{
    run_clips_here(rt, hall, pairs, mine);
}

fn assert_list(rt: &impl Abort, alloc: Global, entries: &[ClipEntry], wanted: &[u8]) {
    let text = clip_text(alloc, entries).expect(rt, "memory for a text");
    same(rt, "the clip list", &text.as_slice(), &wanted);
}

/// Does all on the calling thread.
fn run_clips_here<'a, N: Name, R: Wait>(
    rt: &R,
    hall: &Hall<'a, N>,
    pairs: &mut [Pair<'a>],
    mine: UserAndDesk<'a, '_, MemoryStore>,
)
    requires pairs { All (λ b. IsPairIn N.parts b.pass b.clip) pairs.old }
    requires user { UserBelongs N.parts mine.user }
    requires frame { length mine.desk.frame.items ≡ N.parts.config.width * N.parts.config.height }
    requires text { length mine.desk.text.items
        ≡ picture_length N.parts.config.width N.parts.config.height }
    ensures same { map (λ b. pair_role_of b.pass b.clip) pairs.new
        ≡ map (λ b. pair_role_of b.pass b.clip) pairs.old }
    ensures done { All (λ b. b.clip.next ≡ length b.clip.script) pairs.new }
{
    let UserAndDesk { mut user, mut desk } = mine;
    let gated = GatedHall { hall, gate: &Open };
    run_mine_clips(rt, gated, pairs, &mut user, &mut desk);
}

/// Does the lines and clip calls of the client on a thread, and the user's on the calling one.
fn run_parted_clips<'a, N: Name + Send + Sync, R: Threads + Wait + Sync>(
    rt: &R,
    hall: &Hall<'a, N>,
    passes: &mut [Pass<'a>],
    clips: &mut [ClipPass<'a>],
    mine: UserAndDesk<'a, '_, MemoryStore>,
)
    requires passes { All (Belongs N.parts) passes.old }
    requires clips { All (ClipBelongs N.parts) clips.old }
    requires together { AllZip GoTogether passes.old clips.old }
    requires user { UserBelongs N.parts mine.user }
    requires frame { length mine.desk.frame.items ≡ N.parts.config.width * N.parts.config.height }
    requires text { length mine.desk.text.items
        ≡ picture_length N.parts.config.width N.parts.config.height }
{
    join(
        rt,
        || run_first_pair(rt, hall, passes, clips),
        || run_clips_here(rt, hall, &mut [], mine),
    );
}

/// Does the lines and clip calls of the first client, where there is one.
fn run_first_pair<'a, N: Name, R: Wait>(
    rt: &R,
    hall: &Hall<'a, N>,
    passes: &mut [Pass<'a>],
    clips: &mut [ClipPass<'a>],
)
    requires passes { All (Belongs N.parts) passes.old }
    requires clips { All (ClipBelongs N.parts) clips.old }
    requires together { AllZip GoTogether passes.old clips.old }
{
    if let ([pass, ..], [clip, ..]) = (passes, clips) {
        run_clips(rt, GatedHall { hall, gate: &Open }, pass, clip);
    }
}

/// The lines of at most one pass are done on a thread.
fn run_started<'a, N: Name + Send + Sync, R: Abort + Threads + Wait + Sync>(
    rt: &R,
    hall: &Hall<'a, N>,
    passes: &mut [Pass<'a>],
    mine: UserAndDesk<'a, '_, MemoryStore>,
    way: Way,
)
    requires passes { All (Belongs N.parts) passes.old }
    requires user { UserBelongs N.parts mine.user }
    requires frame { length mine.desk.frame.items ≡ N.parts.config.width * N.parts.config.height }
    requires text { length mine.desk.text.items
        ≡ picture_length N.parts.config.width N.parts.config.height }
{
    must(rt, "two passes", passes.len() == 2);
    match way {
        Way::First => {
            let (first, second) = passes.split_at_mut(1);
            run_parted(rt, hall, first, second, mine);
        }
        Way::Second => {
            let (first, second) = passes.split_at_mut(1);
            run_parted(rt, hall, second, first, mine);
        }
        _ => run_parted(rt, hall, &mut [], passes, mine),
    }
}

/// Does the lines of the pass that is `there` on a thread, and all else on the calling one.
fn run_parted<'a, N: Name + Send + Sync, R: Threads + Wait + Sync>(
    rt: &R,
    hall: &Hall<'a, N>,
    there: &mut [Pass<'a>],
    here: &mut [Pass<'a>],
    mine: UserAndDesk<'a, '_, MemoryStore>,
)
    requires there { All (Belongs N.parts) there.old }
    requires here { All (Belongs N.parts) here.old }
    requires user { UserBelongs N.parts mine.user }
    requires frame { length mine.desk.frame.items ≡ N.parts.config.width * N.parts.config.height }
    requires text { length mine.desk.text.items
        ≡ picture_length N.parts.config.width N.parts.config.height }
{
    let UserAndDesk { mut user, mut desk } = mine;
    join(
        rt,
        || run_first(rt, hall, there),
        ||
            requires passes { All (Belongs N.parts) here.now }
            requires user { UserBelongs N.parts user }
            requires frame { length desk.frame.items
                ≡ N.parts.config.width * N.parts.config.height }
            requires text { length desk.text.items
                ≡ picture_length N.parts.config.width N.parts.config.height }
        {
            let gated = GatedHall { hall, gate: &Open };
            run_mine(rt, gated, here, &mut user, &mut desk)
        },
    );
}

/// Does the lines of the first pass, where there is one.
fn run_first<'a, N: Name, R: Wait>(rt: &R, hall: &Hall<'a, N>, passes: &mut [Pass<'a>])
    requires { All (Belongs N.parts) passes.old }
{
    if let [pass, ..] = passes {
        run_actor(rt, GatedHall { hall, gate: &Open }, pass);
    }
}

fn assert_picture(rt: &impl Abort, alloc: Global, files: &[(String, Vec<u8>)]) {
    let mut want = Vec::from_slice(alloc, b"P6\n8 4\n255\n").expect(rt, "memory");
    for letter in SHOT.as_bytes() {
        let blue = if *letter == b'B' { 0xFF } else { 0x20 };
        want.extend_from_slice(&[0, 0, blue]).expect(rt, "memory");
    }
    let [(name, bytes)] = files else {
        panic!(rt; "other files than one");
    };
    let found = (name.as_str(), bytes.as_slice());
    same(rt, "the shot", &found, &("shot-1.ppm", want.as_slice()));
}

fn assert_journal<N: Name>(rt: &impl Abort, alloc: Global, hall: Hall<N>, wanted: &[u8]) {
    let room = hall.into_room();
    let text = journal_text(alloc, room.scene().journal().entries()).expect(rt, "memory");
    same(rt, "the journal", &text.as_slice(), &wanted);
}
