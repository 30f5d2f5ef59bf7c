//! A thread for each pass, whatever a pass is, and what the calling thread does meanwhile.
//!
//! A closure whose result names a lifetime says nothing of its result. So what starts threads is
//! generic in the type of a pass, and what is known of a pass that comes back is its role alone.

ghost use Rattle.std.specs.Prelude.{◌≡◌, All, map, vec_len};
ghost use Rattle.nit_actor.specs.Terms.{CrewCanRun, CrewHasRun, HasPlaceFor, IsSameCrew, IsStarted};

use crate::actor::Actor;
use std::marker::PhantomData;
use std::snapshot::Snapshot;
use std::sync::Wait;
use std::sync::atomic::{AtomicBool, Ordering};
use std::thread::{Promise, PromisedHandle, Scope, Threads};
use std::{mem, thread};

/// What the calling thread has of its own, and goes on with while the others run. No other thread
/// has it, so what it stands on need not be sent.
pub(crate) trait CallerThread<P: Actor<W>, W> {
    ghost use Rattle.std.specs.Prelude.{◌≡◌, All, map};

    ghost ready: { Self → Type 0 };

    ghost kept: { Self → Self → Type 0 };

    /// Runs the passes whose threads could not be started, by turns with what is the caller's own.
    fn run_mine<R: Wait>(self, rt: &R, shared: &W, passes: &mut [P]) -> Self
        requires fits { All (λ p. P.fits (P.role p)) passes.old }
        requires ready { ready self }
        ensures same { map P.role passes.new ≡ map P.role passes.old }
        ensures done { All (λ p. P.left p ≡ None) passes.new }
        ensures kept { kept self result };

    /// Behind one run there may be another, and what each of the two keeps, both together keep.
    fn kept_twice()
        ensures ready { (own after' : Self) → ready own → kept own after' → ready after' }
        ensures kept { (own between after' : Self)
            → kept own between → kept between after' → kept own after' };
}

/// The pass that comes back has the role of the one that went.
pub(crate) struct Same<P: Actor<W>, W> {
    was: Snapshot<P>,
    of: PhantomData<W>,
}

impl<P: Actor<W>, W> Drop for Same<P, W> {
    fn drop(self) {
        let Self { was: _, of: _ } = self;
    }
}

impl<P: Actor<W>, W> Promise<P> for Same<P, W> {
    ghost use Rattle.std.specs.Prelude.{◌≡◌};

    ghost kept_by = { λ s r. P.role r ≡ P.role s.was.value };
}

/// A pass that went to a thread, or that is still here.
pub(crate) enum Started<P: Actor<W>, W> {
    There(PromisedHandle<P, Same<P, W>>),
    Here(P),
}

/// What there is for passes whose threads could not be started: a flag for each pass of the run,
/// which is raised then, and the place where such passes wait.
#[derive(Drop)]
pub struct Unstarted<'r, P> {
    pub raised: &'r [AtomicBool],
    pub waiting: Vec<P>,
}

/// Starts the thread of one pass, which runs it unless its flag is raised. Where no thread can be
/// started the closure comes back; called under the raised flag, it hands the pass back as it went.
fn start<'s, E, P: Actor<W> + Send + Drop + 's, W: Sync, R: Threads + Wait + Sync>(
    scope: &Scope<'s, E>,
    rt: &'s R,
    shared: &'s W,
    raised: &'s AtomicBool,
    pass: P,
) -> Started<P, W>
    requires { P.fits (P.role pass) }
    ensures { IsStarted P.role pass result }
{
    let promise: Same<P, W> = Same {
        was: Snapshot::of(&pass),
        of: PhantomData,
    };
    match scope.spawn_with(
        promise,
        move || -> P
            requires { P.fits (P.role pass) }
            ensures { P.role result ≡ P.role pass }
        {
            let mut pass = pass;
            if !raised.load(Ordering::SeqCst) {
                pass.run(rt, shared);
            }
            pass
        },
    ) {
        Ok(child) => Started::There(child),
        Err(refused) => {
            raised.store(true, Ordering::SeqCst);
            Started::Here((refused.value)())
        }
    }
}

/// The passes whose threads are to be started, and what there is for those whose threads cannot be.
#[derive(Drop)]
struct Crew<'r, P> {
    passes: Vec<P>,
    unstarted: Unstarted<'r, P>,
}

/// Starts the thread of each pass, from the last to the first, then runs what is here, and waits
/// for the threads. Each pass comes back at its place. There is room for those whose threads could
/// not be started.
fn run_rest<
    's,
    'r: 's,
    E,
    P: Actor<W> + Send + Drop + 's,
    U: CallerThread<P, W>,
    W: Sync,
    R: Threads + Wait + Sync,
>(scope: &Scope<'s, E>, rt: &'s R, shared: &'s W, crew: &mut Crew<'r, P>, own: U) -> U
    requires { CrewCanRun P.fits P.role U.ready crew.old own }
    ensures same { IsSameCrew P.role crew.old crew.new }
    ensures kept { U.kept own result }
{
    let Some(pass) = crew.passes.pop() else {
        return own.run_mine(rt, shared, crew.unstarted.waiting.as_mut_slice());
    };
    let flag = &crew.unstarted.raised[crew.passes.len()];
    match start::<E, P, W, R>(scope, rt, shared, flag, pass) {
        Started::There(child) => {
            let own = run_rest(scope, rt, shared, crew, own);
            crew.passes.push_reserved(child.join(rt));
            own
        }
        Started::Here(pass) => {
            crew.unstarted.waiting.push_reserved(pass);
            let own = run_rest(scope, rt, shared, crew, own);
            let Some(pass) = crew.unstarted.waiting.pop() else {
                unreachable!()
            };
            crew.passes.push_reserved(pass);
            own
        }
    }
}

/// Runs each pass on a thread of its own, or here where none can be started. The passes come back
/// in order, and what is the caller's own beside them.
fn run_all<
    P: Actor<W> + Send + Drop,
    U: CallerThread<P, W> + Drop,
    W: Sync,
    R: Threads + Wait + Sync,
>(rt: &R, shared: &W, crew: Crew<'_, P>, own: U) -> (Vec<P>, U)
    requires { CrewCanRun P.fits P.role U.ready crew own }
    ensures { CrewHasRun P.role U.kept crew.entry.passes.items own result.0.items result.1 }
{
    thread::scope(
        thread::scope_env(),
        rt,
        |scope| -> (Vec<P>, U)
            requires { CrewCanRun P.fits P.role U.ready crew own }
            ensures { CrewHasRun P.role U.kept crew.entry.passes.items own result.0.items result.1 }
        {
            let mut crew = crew;
            let own = run_rest(scope, rt, shared, &mut crew, own);
            let Crew {
                passes,
                unstarted: _unstarted,
            } = crew;
            (passes, own)
        },
    )
}

/// Runs each pass on a thread of its own, and then what the threads left over on this one. The
/// passes are lent, and the result is what is the caller's own alone: a store that it lends keeps
/// its last value only so.
pub(crate) fn run_crew<
    P: Actor<W> + Send + Drop,
    U: CallerThread<P, W> + Drop,
    W: Sync,
    R: Threads + Wait + Sync,
>(rt: &R, shared: &W, unstarted: Unstarted<'_, P>, passes: &mut Vec<P>, own: U) -> U
    requires fits { All (λ p. P.fits (P.role p)) passes.old.items }
    requires place { HasPlaceFor (vec_len passes.old) unstarted }
    requires ready { U.ready own }
    ensures ran { CrewHasRun P.role U.kept passes.old.items own passes.new.items result }
    ensures done { All (λ p. P.left p ≡ None) passes.new.items }
{
    let none = Vec::new(*passes.allocator());
    let crew = Crew {
        passes: mem::replace(passes, none),
        unstarted,
    };
    let (ran, own) = run_all(rt, shared, crew, own);
    *passes = ran;
    U::kept_twice();
    own.run_mine(rt, shared, passes)
}
