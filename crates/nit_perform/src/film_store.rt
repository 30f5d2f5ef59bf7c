//! A store that films the pictures that are put through it.

ghost use Rattle.std.specs.Prelude.{◌≡◌};
ghost use Rattle.nit_perform.specs.Below.{with_last};
ghost use Rattle.nit_perform.specs.FilmStore.{IsFilmOf, picture_names};

use crate::film::Film;
use crate::filmed::{is_picture_name, is_shot_name, put_filmed};
use nit_store::{PutError, ReadError, Store};
use std::marker::{Brand, PhantomData};

/// The most shots that a run has.
const MOST_SHOTS: u32 = 65_536;

/// Which film it is: the capture that it began with, and the name of the reference to the store
/// behind it. Contracts alone know it, and a run picks it once.
pub trait Filming {
    ghost use Rattle.std.specs.Borrow.{GName};
    ghost use Rattle.nit_capture.specs.Capture.{CaptureModel};

    ghost begun: { CaptureModel };

    ghost name: { GName };
}

impl Filming for Brand {
    ghost use Rattle.std.specs.Prelude.{pos};
    ghost use Rattle.nit_rect.specs.Rectangle.{rectangle};
    ghost use Rattle.nit_capture.specs.Capture.{first_capture};

    ghost begun = { first_capture 0 0 (rectangle (pos 0) (pos 0) 0 0) };

    ghost name = { 0 };
}

/// The film of the pictures that were put into a store.
#[derive(Drop)]
pub struct Reel {
    pub film: Film,
    /// How many shots are in the film.
    pub count: u32,
    /// Whether the last picture is in it.
    pub ended: bool,
    /// Whether all pictures came in their order, and none was refused.
    pub whole: bool,
}

/// A store in front of another one. What is put goes on to that one, and the pictures of the shots
/// and the last picture are also added to a film.
#[derive(Drop)]
pub struct FilmStore<'s, S: Store, F: Filming> {
    pub store: &'s mut S,
    pub reel: Reel,
    pub of: PhantomData<F>,
    ghost same: { store.ghost_name ≡ F.name },
    ghost screen: { reel.film.capture ≡ with_last F.begun reel.film.capture.before },
    ghost tie: { IsFilmOf reel.whole F.begun reel.film.capture
        (picture_names reel.count reel.ended) (S.shown store.now).files reel.film.bytes.items },
}

impl<S: Store, F: Filming> FilmStore<'_, S, F> {
    ghost use Rattle.std.specs.Prelude.{true, ◌≡◌, ◌+◌};
    ghost use Rattle.nit_perform.specs.FilmStore.{CanFilm};
    ghost use Rattle.nit_store.specs.StoreAnswers.{AfterPut};
    ghost use Rattle.nit_rounds.specs.RoundsRun.{final_name, shot_name};

    /// Whether these bytes can be the film's next picture: it is whole and not ended, and they have
    /// enough bytes.
    fn takes(&self, bytes: &[u8]) -> bool
        ensures { result ≡ true → CanFilm self.now.reel bytes.now }
    {
        self.reel.whole
            && !self.reel.ended
            && self.reel.count < MOST_SHOTS
            && self.reel.film.fits(bytes)
    }

    /// Puts the picture of the next shot, and adds it to the film.
    fn put_shot(&mut self, name: &str, bytes: &[u8]) -> Result<(), PutError>
        requires name { name.now ≡ shot_name (self.old.reel.count + 1) }
        requires can { CanFilm self.old.reel bytes.now }
        ensures { AfterPut (S.shown self.old.store.now) name.now bytes.now
            (S.shown self.new.store.now) result }
    {
        self.reel.whole = false;
        put_filmed(self.store, &mut self.reel.film, name, bytes)?;
        self.reel.count += 1;
        self.reel.whole = true;
        Ok(())
    }

    /// Puts the last picture, and adds it to the film.
    fn put_final(&mut self, name: &str, bytes: &[u8]) -> Result<(), PutError>
        requires name { name.now ≡ final_name }
        requires can { CanFilm self.old.reel bytes.now }
        ensures { AfterPut (S.shown self.old.store.now) name.now bytes.now
            (S.shown self.new.store.now) result }
    {
        self.reel.whole = false;
        put_filmed(self.store, &mut self.reel.film, name, bytes)?;
        self.reel.ended = true;
        self.reel.whole = true;
        Ok(())
    }
}

impl<S: Store, F: Filming> Store for FilmStore<'_, S, F> {
    ghost shown = { λ f. S.shown f.store.now };

    fn read(&mut self, name: &str, max: usize) -> Result<Vec<u8>, ReadError> {
        self.store.read(name, max)
    }

    fn put(&mut self, name: &str, bytes: &[u8]) -> Result<(), PutError> {
        if !is_picture_name(name) {
            return self.store.put(name, bytes);
        }
        if self.takes(bytes) && is_shot_name(name, self.reel.count + 1) {
            return self.put_shot(name, bytes);
        }
        if self.takes(bytes) && name == "final.ppm" {
            return self.put_final(name, bytes);
        }
        self.reel.whole = false;
        self.store.put(name, bytes)
    }

    fn say(&mut self, bytes: &[u8]) -> Result<(), PutError> {
        self.store.say(bytes)
    }
}
