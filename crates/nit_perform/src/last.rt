//! The last picture of a run.

ghost use Rattle.std.specs.Prelude.{◌≡◌, ◌++◌, ◌∷◌, [], All, List, ℕ, length, ◌*◌, map};
ghost use Rattle.nit_perform.specs.Terms.{AreAllDone, AreDoneClips, CanTakeLast, HasEnded};
ghost use Rattle.nit_perform.specs.Terms.{HasPictureRoom, HaveTables, IsClipListText, IsHistory};
ghost use Rattle.nit_perform.specs.Terms.{IsLegal, IsWhole, IsWord, PutsNext, TakesLast};
ghost use Rattle.nit_perform.specs.Terms.{calls_to_make, clips_setup_in, final_name, frame};
ghost use Rattle.nit_perform.specs.Terms.{picture_by, picture_length, put_state_of_desk, raw_words};
ghost use Rattle.nit_perform.specs.Terms.{scenery_of, state_now, user_actions_to_do, words_left_in};
ghost use mathlib.Core.List.{IsPrefix};
ghost use Rattle.nit_events.specs.declared.entry.Entry.TheVariants as entry;

use nit_clip::clip_text;
use nit_hall::{ClipOpened, Opened, Pass, Room, UserPass};
use nit_journal::laws::one_more_entry;
use nit_pixels::Lens;
use nit_rect::NoMemory;
use nit_rounds::{Desk, PictureName};
use nit_scene::Scene;
use nit_store::Store;
use nit_word::Inked;
use std::alloc::Global;

/// Takes the last picture of the scene by the sessions' own glasses, and puts it unless a put was
/// refused before.
pub fn put_last<S: Store>(scene: &mut Scene<Inked>, owns: &mut [Inked], desk: &mut Desk<S>)
    requires can { CanTakeLast scene.old owns.old }
    requires text { length desk.old.text.items
        ≡ picture_length scene.old.config.width scene.old.config.height }
    ensures taken { TakesLast scene.old scene.new }
    ensures put { (tables : ℕ → List ℕ) → HaveTables owns.old tables
        → PutsNext (final_name, picture_by (state_now scene.old) tables)
        (put_state_of_desk (S.shown desk.old.store.now) desk.old.fault desk.old.tried)
        (put_state_of_desk (S.shown desk.new.store.now) desk.new.fault desk.new.tried) }
    ensures same_store { desk.new.store.ghost_name ≡ desk.old.store.ghost_name }
{
    let (width, height) = scene.size();
    take_last(scene, owns);
    desk.put_lent(scene.frame(), width, height, PictureName::Final);
}

/// Takes the last picture of the scene by the sessions' own glasses. It is the frame that the scene
/// shows then.
pub fn take_last(scene: &mut Scene<Inked>, owns: &mut [Inked])
    requires { CanTakeLast scene.old owns.old }
    ensures taken { TakesLast scene.old scene.new }
    ensures frame { (tables : ℕ → List ℕ) → HaveTables owns.old tables
        → frame (scenery_of (state_now scene.new)) scene.new.raw
        ≡ frame (scenery_of (state_now scene.old))
        (raw_words (state_now scene.old) tables) }
{
    one_more_entry();
    scene.load_last(owns);
}

/// Takes the last picture by the passes, and puts it unless a put was refused before. Gives the
/// scene, whose journal is whole.
pub fn last_picture<'a, S: Store>(actors: Opened<'a>, desk: &mut Desk<S>) -> Scene<Lens<'a>>
    requires done { AreAllDone actors.room actors.passes.items actors.user }
    requires desk { HasPictureRoom actors.room.parts.config desk.old }
    ensures { HasEnded S.shown actors.entry.room.parts actors.entry.user.seen
        actors.entry.user.raws result desk.old desk.new }
{
    let Opened {
        mut room,
        mut passes,
        mut user,
    } = actors;
    end_with_picture(&mut room, &mut passes, &mut user, desk);
    room.into_scene()
}

/// Takes the last picture by the passes, and puts it unless a put was refused before. Gives the
/// scene, whose journal is whole, and the text of the clip list, which is whole too; or want of
/// memory for it.
pub fn last_with_clips<'a, S: Store>(
    alloc: Global,
    actors: ClipOpened<'a>,
    desk: &mut Desk<S>,
) -> (Scene<Lens<'a>>, Result<Vec<u8>, NoMemory>)
    requires done { AreAllDone actors.opened.room actors.opened.passes.items actors.opened.user }
    requires clips { AreDoneClips actors.opened.room.parts actors.clips.items }
    requires desk { HasPictureRoom actors.opened.room.parts.config desk.old }
    ensures ended { HasEnded S.shown actors.entry.opened.room.parts actors.entry.opened.user.seen
        actors.entry.opened.user.raws result.0 desk.old desk.new }
    ensures list { IsClipListText (clips_setup_in actors.entry.opened.room.parts)
        result.0.entries result.1 }
{
    let ClipOpened { opened, mut clips } = actors;
    let Opened {
        mut room,
        mut passes,
        mut user,
    } = opened;
    end_with_picture(&mut room, &mut passes, &mut user, desk);
    room.meet_clips(&mut clips);
    let list = clip_text(alloc, room.clip_list());
    (room.into_scene(), list)
}

/// Ends the room by the passes, and puts its last picture unless a put was refused before. Its
/// journal is then whole.
fn end_with_picture<'a, S: Store>(
    room: &mut Room<'a>,
    passes: &mut Vec<Pass<'a>>,
    user: &mut UserPass<'a>,
    desk: &mut Desk<S>,
)
    requires done { AreAllDone room.old passes.old.items user.old }
    requires desk { HasPictureRoom room.old.parts.config desk.old }
    ensures parts { room.new.parts ≡ room.old.parts }
    ensures ended { HasEnded S.shown room.old.parts user.old.seen user.old.raws room.new.scene
        desk.old desk.new }
{
    one_more_entry();
    let (width, height) = room.scene().size();
    let _known = user.next();
    end_room(room, passes, user, &mut desk.frame);
    desk.put_copied(width, height, PictureName::Final);
}

/// Ends the room, and sets `out` to its last picture.
fn end_room<'a>(
    room: &mut Room<'a>,
    passes: &mut Vec<Pass<'a>>,
    user: &mut UserPass<'a>,
    out: &mut Vec<u32>,
)
    requires done { AreAllDone room.old passes.old.items user.old }
    requires out { length out.old.items
        ≡ room.old.parts.config.width * room.old.parts.config.height }
    ensures parts { room.new.parts ≡ room.old.parts }
    ensures whole { IsWhole (map calls_to_make room.old.parts.scripts)
        (user_actions_to_do room.old.parts.input) room.new.scene.entries }
    ensures legal { IsLegal room.old.parts.config room.new.scene.entries }
    ensures recorded { room.new.scene.entries ≡ room.old.scene.entries ++ entry.Final ∷ [] }
    ensures config { room.new.scene.config ≡ room.old.scene.config }
    ensures frame { let s = state_now room.old.scene in out.new.items ≡ frame (scenery_of s)
        (words_left_in room.old.parts.config room.old.parts.scripts s) }
    ensures words { All IsWord out.new.items }
    ensures size { length out.new.items ≡ length out.old.items }
    ensures user_before { IsPrefix user.old.seen room.old.scene.entries }
    ensures raws_before { IsPrefix user.old.raws room.old.raws }
    ensures history { IsHistory room.old.parts.config room.old.scene.entries room.old.raws }
{
    room.finish(passes, user, out)
}
