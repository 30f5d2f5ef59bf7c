//! A room that gets clip scripts, before its first entry.

ghost use Rattle.std.specs.Prelude.{◌≡◌, ◌+◌, ◌≤◌, ◌++◌, ℕ, IfOk, Some};
ghost use Rattle.nit_hall.specs.Terms.{AreFirstClipPasses, ClipPassModel, IsUnserved};
ghost use Rattle.nit_hall.specs.Terms.{clip_script_in, entries_in, length, lines_of_clips};
ghost use Rattle.nit_hall.specs.Terms.{most_clips, most_run_sessions, most_shares, replicate};
ghost use Rattle.nit_hall.specs.Terms.{slice_get, with_clip_scripts};

use crate::clip_pass::ClipPass;
use crate::opening::Opened;
use crate::room::Room;
use nit_clip::laws::no_clips;
use nit_clip::{Clip, ClipScript};
use nit_ledger::Book;
use nit_rect::NoMemory;
use std::alloc::Global;

/// A room with its passes, and the clip passes of its clients in order.
#[derive(Drop)]
pub struct ClipOpened<'a> {
    pub opened: Opened<'a>,
    pub clips: Vec<ClipPass<'a>>,
}

/// The room with these clip scripts, one for each client in order, and a clip pass for each, of
/// which no line is done. Nothing was served in the room yet, and it had no clip scripts. The
/// passes are as they were. All memory of the clip list is taken here. After a refusal nothing of
/// what was handed in comes back.
pub fn open_clips<'a>(
    alloc: Global,
    opened: Opened<'a>,
    scripts: &'a [ClipScript],
) -> Result<ClipOpened<'a>, NoMemory>
    requires unserved { IsUnserved opened.room }
    requires each { length scripts.now ≡ length opened.room.parts.scripts }
    ensures room { IfOk result (λ o. o.opened.room
        ≡ with_clip_scripts opened.entry.room scripts.entry.now) }
    ensures passes { IfOk result (λ o. o.opened.passes.items ≡ opened.entry.passes.items) }
    ensures user { IfOk result (λ o. o.opened.user ≡ opened.entry.user) }
    ensures clips { IfOk result (λ o. AreFirstClipPasses o.opened.room.parts o.clips.items) }
{
    no_clips();
    let Opened { room, passes, user } = opened;
    let Room {
        scene,
        mut book,
        parts,
        phase,
        arrived,
        clip: _,
        clips: _,
    } = room;
    let clip = Clip::with_room(alloc, line_count(scripts))?;
    let clips = clip_passes(alloc, scripts, &mut book)?;
    let room = Room {
        scene,
        book,
        parts,
        phase,
        arrived,
        clip,
        clips: scripts,
    };
    Ok(ClipOpened {
        opened: Opened { room, passes, user },
        clips,
    })
}

/// A clip pass for each clip script, in order, of which no line is done. Their shares are new ones
/// of the book.
fn clip_passes<'a>(
    alloc: Global,
    scripts: &'a [ClipScript],
    book: &mut Book,
) -> Result<Vec<ClipPass<'a>>, NoMemory>
    requires { length book.old.counts + length scripts.now ≤ most_shares }
    ensures book { IfOk result (λ v. book.new ≡ record book.old {
      counts = book.old.counts ++ replicate (length scripts.entry.now) 0;
    }) }
    ensures count { IfOk result (λ v. length v.items ≡ length scripts.entry.now) }
    ensures each { IfOk result (λ v. (k : ℕ) (q : ClipPassModel) → slice_get v.items k ≡ Some q
        → q ≡ record {
          sid = k;
          next = 0;
          phase = 0;
          number = length book.old.counts + k;
          name = book.old.name;
          script = clip_script_in scripts.entry.now k;
          seen = entries_in book.old.entries;
        }) }
{
    let mut passes = Vec::with_capacity(alloc, scripts.len())?;
    let mut sid = 0;
    'scripts: for script in scripts {
        let share = book.share();
        passes.push(ClipPass::new(sid, script, share))?;
        sid += 1;
    }
    Ok(passes)
}

/// How many lines all clip scripts have.
fn line_count(scripts: &[ClipScript]) -> usize
    requires { length scripts.now ≤ most_run_sessions }
    ensures count { result ≡ lines_of_clips scripts.now }
    ensures most { result ≤ most_clips }
{
    let mut count = 0;
    for script in scripts {
        count += script.lines().len();
    }
    count
}
