//! Where the pictures of a run are put.

ghost use Rattle.std.specs.Prelude.{◌≡◌, ◌*◌, ◌≤◌, All, length, take};
ghost use Rattle.nit_rounds.specs.Terms.{IsWord, KeepsFrame, PutsFile, PutsNext, most_height};
ghost use Rattle.nit_rounds.specs.Terms.{most_width, picture, picture_length, picture_name};
ghost use Rattle.nit_rounds.specs.Terms.{put_state_of_desk, shot_name, unrefused};
ghost use Rattle.nit_rounds.specs.declared.desk.PictureName.TheVariants as name;

use crate::viewer::Viewer;
use nit_report::ppm_into;
use nit_report::write::{number, text};
use nit_scene::Scene;
use nit_store::{PutError, Store, name_of};
use nit_word::Inked;

/// The most bytes that the name of a shot's picture has.
pub const SHOT_NAME_BYTES: usize = 19;

/// The name of a picture of a run.
#[derive(Clone, Copy, Debug)]
pub enum PictureName {
    /// That of the shot of this number, from 1.
    Shot(u32),
    /// That of the last picture.
    Final,
}

/// The store of a run, with the room for its pictures: `text` has a byte for each of a picture, and
/// `frame`, for frames that are copied before they are put, a word for each pixel of the screen. It
/// may be empty where each is put as it is lent. Once a put was refused, `fault` keeps the refusal,
/// and nothing more is put. The picture that was tried last has the name `tried`, so after a
/// refusal that is the refused one.
#[derive(Drop)]
pub struct Desk<'a, S> {
    pub store: &'a mut S,
    pub frame: Vec<u32>,
    pub text: Vec<u8>,
    pub fault: Option<PutError>,
    pub tried: PictureName,
}

impl<S: Store> Desk<'_, S> {
    /// Puts the picture of the frame that was copied, under this name, unless a put was refused
    /// before.
    pub fn put_copied(&mut self, width: u32, height: u32, name: PictureName)
        requires screen { (width ≤ most_width) × (height ≤ most_height) }
        requires frame { length self.old.frame.items ≡ width * height }
        requires text { length self.old.text.items ≡ picture_length width height }
        requires words { All IsWord self.old.frame.items }
        ensures put { PutsNext (picture_name name, picture width height self.old.frame.items)
            (put_state_of_desk (S.shown self.old.store.now) self.old.fault self.old.tried)
            (put_state_of_desk (S.shown self.new.store.now) self.new.fault self.new.tried) }
        ensures kept { KeepsFrame self.old self.new }
    {
        if self.fault.is_none() {
            ppm_into(&mut self.text, width, height, &self.frame);
            self.put_text(name);
        }
    }

    /// Puts the picture of a frame that is lent, under this name, unless a put was refused before.
    pub fn put_lent(&mut self, frame: &[u32], width: u32, height: u32, name: PictureName)
        requires screen { (width ≤ most_width) × (height ≤ most_height) }
        requires frame { length frame.now ≡ width * height }
        requires text { length self.old.text.items ≡ picture_length width height }
        requires words { All IsWord frame.now }
        ensures put { PutsNext (picture_name name, picture width height frame.now)
            (put_state_of_desk (S.shown self.old.store.now) self.old.fault self.old.tried)
            (put_state_of_desk (S.shown self.new.store.now) self.new.fault self.new.tried) }
        ensures kept { KeepsFrame self.old self.new }
    {
        if self.fault.is_none() {
            ppm_into(&mut self.text, width, height, frame);
            self.put_text(name);
        }
    }

    /// Puts the bytes of `text` under this name, and keeps the name and a refusal.
    fn put_text(&mut self, name: PictureName)
        ensures put { PutsFile (picture_name name, self.old.text.items)
            (unrefused (S.shown self.old.store.now))
            (put_state_of_desk (S.shown self.new.store.now) self.new.fault self.new.tried) }
        ensures frame { self.new.frame.items ≡ self.old.frame.items }
        ensures text { self.new.text.items ≡ self.old.text.items }
        ensures same_store { self.new.store.ghost_name ≡ self.old.store.ghost_name }
    {
        self.fault = match name {
            PictureName::Shot(number) => put_shot(self.store, number, &self.text),
            PictureName::Final => self.store.put("final.ppm", &self.text).err(),
        };
        self.tried = name;
    }
}

/// Shots go to a desk as pictures, until a put is refused.
impl<S: Store> Viewer for Desk<'_, S> {
    ghost use Rattle.std.specs.Prelude.{◌≡◌, ◌*◌, length};
    ghost use Rattle.nit_report.specs.Picture.{picture_length};
    ghost use Rattle.nit_rounds.specs.Desks.{IsSameDesk};
    ghost use Rattle.nit_rounds.specs.RoundsRun.{put_state_of_desk};
    ghost use Rattle.nit_rounds.specs.ShotFrames.{shot_file};
    ghost use Rattle.nit_store.specs.Puts.{PutsNext};

    ghost fits = { λ width height desk. length desk.text.items ≡ picture_length width height };

    ghost shows = { λ f before after'.
        PutsNext (shot_file f)
        (put_state_of_desk (S.shown before.store.now) before.fault before.tried)
        (put_state_of_desk (S.shown after'.store.now) after'.fault after'.tried)
        × IsSameDesk before after' };

    fn shoot(&mut self, scene: &mut Scene<Inked>) {
        let (width, height) = scene.size();
        let name = PictureName::Shot(scene.record_shot());
        self.put_lent(scene.frame(), width, height, name);
    }
}

/// Puts these bytes as the picture of the shot of this number. Gives the refusal, where there is
/// one.
fn put_shot<S: Store>(store: &mut S, number: u32, bytes: &[u8]) -> Option<PutError>
    ensures { PutsFile (shot_name number, bytes.now) (unrefused (S.shown store.old))
        (put_state_of_desk (S.shown store.new) result (name.Shot number)) }
{
    let mut name = [0; SHOT_NAME_BYTES];
    let end = shot_name_into(&mut name, number);
    store.put(name_of(&name[..end]), bytes).err()
}

/// Writes the name of the picture of the shot of this number to the front of `out`, which has 19
/// bytes, and answers where it ends.
pub fn shot_name_into(out: &mut [u8], shot: u32) -> usize
    requires { length out.old ≡ 19 }
    ensures end { result ≤ length out.new }
    ensures name { take result out.new ≡ shot_name shot }
{
    let at = text(out, 0, b"shot-");
    let at = number(out, at, shot);
    text(out, at, b".ppm")
}
