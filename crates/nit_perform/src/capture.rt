//! A run that is filmed.

ghost use Rattle.std.specs.Prelude.{◌≡◌, ◌+◌, false, true, ◌≤◌};
ghost use Rattle.nit_perform.specs.Terms.{IsFilmOf, IsRunnable, Region, Runs, RunsFilmed, begun_of};
ghost use Rattle.nit_perform.specs.Terms.{film_header, picture_names, setup_of};

use crate::added::end_film;
use crate::beside::run_beside;
use crate::film::Film;
use crate::film_store::{FilmStore, Filming, Reel};
use crate::host::ThreadHost;
use crate::ran::Ran;
use nit_actor::Gate;
use nit_config::Config;
use nit_rect::NoMemory;
use nit_run::{Region, Scripts};
use nit_store::Store;
use std::marker::{Brand, PhantomData};
use std::sync::Wait;
use std::thread::Threads;

/// Runs a setup through a store that adds its pictures to this film, and puts the film last.
pub fn run_filmed<R: Threads + Wait + Sync, S: Store, G: Gate>(
    host: &ThreadHost<R, G>,
    config: &Config,
    scripts: &Scripts,
    film: Film,
    store: &mut S,
) -> Result<Ran, NoMemory>
    requires runnable { IsRunnable
        (setup_of config.now scripts.now.clients.items scripts.now.input true true) }
    requires header { film.bytes.items ≡ film_header film.capture.rect.w film.capture.rect.h }
    ensures { (region : Region) → film.capture ≡ begun_of region config.now
        → RunsFilmed region (S.shown store.old)
        (setup_of config.now scripts.now.clients.items scripts.now.input true true)
        (S.shown store.new) result }
{
    let reel = Reel {
        film,
        count: 0,
        ended: false,
        whole: true,
    };
    let Reeled { store, reel, ran } = film_named::<Brand, R, S, G>(
        host, config, scripts, store, reel,
    );
    let Ok(ran) = ran else {
        return Err(NoMemory);
    };
    let whole = has_all(&reel, ran.frames);
    Ok(end_film(store, reel.film, whole, ran))
}

/// What a run through the store of a film leaves.
#[derive(Drop)]
struct Reeled<'s, S> {
    store: &'s mut S,
    reel: Reel,
    ran: Result<Ran, NoMemory>,
}

/// Runs a setup through the store of a film, which F names.
fn film_named<'s, F: Filming, R: Threads + Wait + Sync, S: Store, G: Gate>(
    host: &ThreadHost<R, G>,
    config: &Config,
    scripts: &Scripts,
    store: &'s mut S,
    reel: Reel,
) -> Reeled<'s, S>
    requires runnable { IsRunnable
        (setup_of config.now scripts.now.clients.items scripts.now.input true true) }
    requires begun { reel.film.capture ≡ F.begun }
    requires name { store.ghost_name ≡ F.name }
    requires header { reel.film.bytes.items ≡ film_header F.begun.rect.w F.begun.rect.h }
    requires fresh { (reel.count ≡ 0) × (reel.ended ≡ false) }
    ensures same_store { result.store.ghost_name ≡ store.entry.ghost_name }
    ensures ran { Runs (S.shown store.entry.now)
        (setup_of config.now scripts.now.clients.items scripts.now.input true true)
        (S.shown result.store.now) result.ran }
    ensures film { let r = result.reel in IsFilmOf r.whole F.begun r.film.capture
        (picture_names r.count r.ended) (S.shown result.store.now).files r.film.bytes.items }
{
    let mut front: FilmStore<'s, S, F> = FilmStore {
        store,
        reel,
        of: PhantomData,
    };
    let clients = scripts.clients.as_slice();
    let ran = run_beside(host, config, clients, &scripts.input, &mut front);
    let FilmStore { store, reel, of: _ } = front;
    Reeled { store, reel, ran }
}

/// Whether a film is whole and has so many pictures, the last one among them.
fn has_all(reel: &Reel, pictures: usize) -> bool
    ensures whole { result ≡ true → reel.now.whole ≡ true }
    ensures ended { result ≡ true → reel.now.ended ≡ true }
    ensures pictures { result ≡ true → reel.now.count + 1 ≡ pictures }
    ensures few { reel.now.count ≤ 4294967295 }
{
    let taken = reel.count as usize + 1;
    reel.whole && reel.ended && taken == pictures
}
