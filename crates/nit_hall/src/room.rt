//! The room: one event is one call of it.

mod actions;
mod agreeing;
mod calls;
mod clip_opening;
mod clips;
mod entry_laws;
mod last;
mod phases;
mod served;
mod shown;

ghost use Rattle.std.specs.Prelude.{◌≡◌, ◌+◌, ◌*◌, ◌≤◌, ◌==◌, [], length, replicate};
ghost use Rattle.nit_hall.specs.Terms.{AreNear, AreWatching, Belongs, HasAdmitted, HasMet};
ghost use Rattle.nit_hall.specs.Terms.{HaveInks, IsLegal, IsRoom, UserBelongs, UserHasMet};
ghost use Rattle.nit_hall.specs.Terms.{bare_word, buffers_of, lines_of_all, most_height};
ghost use Rattle.nit_hall.specs.Terms.{most_run_sessions, most_width};

use crate::parts::Parts;
use crate::pass::Pass;
use crate::user::UserPass;
use agreeing::agree_on_stretch;
pub(crate) use agreeing::{LineOf, agree_first};
pub use clip_opening::{ClipOpened, open_clips};
use nit_clip::laws::no_clips;
use nit_clip::{Clip, ClipScript};
use nit_ledger::Book;
use nit_pixels::Lens;
use nit_scene::Scene;
pub(crate) use served::Served;
use std::marker::Model;

/// All sessions on one screen, and which lines of which scripts were served. Contracts see its
/// scene, what it was opened with, the counts of its book, the phase that is served, and how many
/// actors have ended it; its clip list, and how many clip calls were served for each client.
#[derive(Drop)]
pub struct Room<'a> {
    scene: Scene<Lens<'a>>,
    book: Book,
    parts: Parts<'a>,
    phase: u32,
    arrived: u32,
    clip: Clip,
    clips: &'a [ClipScript],
}

impl<'a> Model for Room<'a> {
    ghost use Rattle.std.specs.Prelude.{◌≡◌, ◌+◌, drop, length, take};
    ghost use Rattle.nit_hall.specs.Opening.{buffers_of};
    ghost use Rattle.nit_ledger.specs.Book.{entries_in, raws_in};
    ghost use Rattle.nit_hall.specs.Room.{RoomModel, IsRoom, without_final};

    ghost Value = { RoomModel };

    ghost view = { λ r. record {
      parts = record {
        name = r.book.name;
        config = r.scene.config;
        scripts = r.parts.scripts.now;
        plans = r.parts.plans.now;
        buffers = buffers_of r.scene.glasses;
        input = r.parts.input.now;
        clips = r.clips.now;
      };
      scene = r.scene;
      counts = take (length r.parts.scripts.now + 1) r.book.counts;
      phase = r.phase;
      arrived = r.arrived;
      clips = r.clip;
      clip_counts = drop (length r.parts.scripts.now + 1) r.book.counts;
      raws = raws_in r.book.entries;
    } };

    ghost invariant = { λ r. IsRoom (record {
      parts = record {
        name = r.book.name;
        config = r.scene.config;
        scripts = r.parts.scripts.now;
        plans = r.parts.plans.now;
        buffers = buffers_of r.scene.glasses;
        input = r.parts.input.now;
        clips = r.clips.now;
      };
      scene = r.scene;
      counts = take (length r.parts.scripts.now + 1) r.book.counts;
      phase = r.phase;
      arrived = r.arrived;
      clips = r.clip;
      clip_counts = drop (length r.parts.scripts.now + 1) r.book.counts;
      raws = raws_in r.book.entries;
    }) × (entries_in r.book.entries ≡ without_final r.scene.entries) };
}

impl<'a> Room<'a> {
    /// The room of a scene without an entry, and of a book without an entry, with a share for each
    /// client in order and one for the user, which have counted nothing. It has no clip scripts,
    /// and the clip list has no room.
    pub(crate) fn new(scene: Scene<Lens<'a>>, book: Book, parts: Parts<'a>, clip: Clip) -> Room<'a>
        requires clients { (length parts.scripts.now ≡ length scene.config.clients)
            × (length parts.scripts.now ≤ most_run_sessions) }
        requires entries { (scene.entries ≡ []) × (book.entries ≡ []) }
        requires room { scene.spare ≡ lines_of_all parts.scripts.now parts.input.now + 1 }
        requires raw { scene.raw ≡ replicate (scene.config.width * scene.config.height) bare_word }
        requires inks { HaveInks scene.config parts.scripts.now scene.glasses }
        requires watching { AreWatching parts.scripts.now scene.config [] (λ t. 0) scene.glasses }
        requires counts { book.counts ≡ replicate (length parts.scripts.now + 1) 0 }
        requires clip { clip ≡ record { entries = []; spare = 0 } }
        ensures { result ≡ record {
          parts = record {
            name = book.name;
            config = scene.entry.config;
            scripts = parts.entry.scripts.now;
            plans = parts.entry.plans.now;
            buffers = buffers_of scene.entry.glasses;
            input = parts.entry.input.now;
            clips = [];
          };
          scene = scene.entry;
          counts = book.counts;
          phase = 0;
          arrived = 0;
          clips = clip;
          clip_counts = [];
          raws = [];
        } }
    {
        no_clips();
        Room {
            scene,
            book,
            parts,
            phase: 0,
            arrived: 0,
            clip,
            clips: &[],
        }
    }

    /// Whether the pass is in the phase that is served.
    pub fn ready(&self, pass: &Pass<'a>) -> bool
        ensures { result ≡ (pass.now.phase == self.now.phase) }
    {
        pass.phase == self.phase
    }

    /// Lets the pass find its phase served: it may make the strokes of this phase then, up to its
    /// next line that the room serves. On these the pass and the room's end of its words agree. The
    /// pass is ready.
    pub fn admit(&mut self, pass: &mut Pass<'a>)
        requires belongs { Belongs self.old.parts pass.old }
        requires ready { pass.old.phase ≡ self.old.phase }
        ensures { HasAdmitted self.old pass.old self.new pass.new }
    {
        self.meet(pass);
        let at = pass.at_line();
        agree_on_stretch(&mut self.scene, &at, &mut pass.canvas, &mut pass.spare);
        pass.met = self.served();
    }

    /// Whether the user is in the phase that is served.
    pub fn ready_user(&self, user: &UserPass<'a>) -> bool
        ensures { result ≡ (user.now.phase == self.now.phase) }
    {
        user.phase == self.phase
    }

    /// The width and the height of the screen in pixels.
    pub(crate) fn size(&self) -> (u32, u32)
        ensures size { result ≡ (self.now.parts.config.width, self.now.parts.config.height) }
        ensures screen { (result.0 ≤ most_width) × (result.1 ≤ most_height) }
    {
        self.scene.size()
    }

    /// How many clients there are.
    pub(crate) fn clients(&self) -> u32
        ensures { result ≡ length self.now.parts.scripts }
    {
        self.parts.scripts.len() as u32
    }

    /// The scene. Its journal is legal and follows the scripts, and each pixel's raw word is one
    /// that the journal allows.
    pub fn scene(&self) -> &Scene<Lens<'a>>
        ensures scene { result.now ≡ self.now.scene }
        ensures config { self.now.scene.config ≡ self.now.parts.config }
        ensures legal { IsLegal self.now.parts.config self.now.scene.entries }
        ensures near { AreNear self.now.parts.config self.now.parts.scripts self.now.parts.input
            self.now.scene.entries self.now.scene.raw }
        ensures kept { IsRoom self.now }
    {
        &self.scene
    }

    /// The scene.
    pub fn into_scene(self) -> Scene<Lens<'a>>
        ensures { result ≡ self.entry.scene }
    {
        let Room {
            scene,
            book: _,
            parts: _,
            phase: _,
            arrived: _,
            clip: _,
            clips: _,
        } = self;
        scene
    }

    /// Shows the pass what is in the book. Its share is the book's at its number.
    fn meet(&mut self, pass: &mut Pass<'a>)
        requires { Belongs self.old.parts pass.old }
        ensures { HasMet self.old pass.old self.new pass.new }
    {
        self.book.meet(&mut pass.share);
    }

    /// Shows the user's pass what is in the book. Its share is the book's at its number.
    fn meet_user(&mut self, user: &mut UserPass<'a>)
        requires { UserBelongs self.old.parts user.old }
        ensures { UserHasMet self.old user.old self.new user.new }
    {
        self.book.meet(&mut user.share);
    }
}
