//! The top call.

ghost use Rattle.std.specs.Prelude.{false, ◌≡◌};
ghost use Rattle.nit_top.specs.Terms.{Answer, Ends, Finished, IsAloneInRange, IsBesideInRange};
ghost use Rattle.nit_top.specs.Terms.{NoCommand, StoreModel, asks_alone, asks_beside, command};
ghost use Rattle.nit_top.specs.Terms.{command_of, starts_threads, texts};

use crate::audit::audited;
use crate::laws::names_differ;
use crate::report::finish::{Done, Worked, ended_before_run, status};
use crate::report::say::tell;
use crate::run::capture::capture;
use crate::run::clips::clip;
use crate::run::nested::nested;
use crate::run::perform;
use nit_actor::Gate;
use nit_perform::ThreadHost;
use nit_run::laws::generated_runs_count;
use nit_setup::{
    Asked, AskedAlone, AskedBeside, End, nowhere, parse_alone, parse_beside, parse_words,
};
use nit_store::Store;
use std::alloc::Global;
use std::sync::Wait;
use std::thread::Threads;

/// Does what the words of the command line ask for, over this store: reads, puts files, and says a
/// line. The words are those behind the program's name. Each actor passes the gate before each of
/// its lines where the command starts threads; it is not passed else.
pub fn nitpicker<R: Threads + Wait + Sync, S: Store, G: Gate>(
    rt: &R,
    alloc: Global,
    words: &[String],
    store: &mut S,
    gate: &G,
) -> Done
    ensures { Answer (S.shown store.old) (texts words.now)
        (S.shown store.new) result.status result.journal.items }
{
    generated_runs_count();
    names_differ();
    let asked = parse_words(words);
    let worked = match asked {
        Some(Asked::Alone(command)) => work_alone(alloc, store, command),
        Some(Asked::Beside(command)) => {
            work_beside(&ThreadHost { rt, alloc, gate }, store, command)
        }
        None => no_command(alloc),
    };
    finish(store, asked, worked)
}

/// Does what the words of the command line ask for, over this store, where they start no thread. It
/// waits for nobody, and returns.
pub fn nitpicker_alone<S: Store>(alloc: Global, words: &[String], store: &mut S) -> Done
    requires { starts_threads (command (texts words.now)) ≡ false }
    ensures { Answer (S.shown store.old) (texts words.now)
        (S.shown store.new) result.status result.journal.items }
{
    generated_runs_count();
    names_differ();
    let Some(command) = parse_alone(words) else {
        return finish(store, None, no_command(alloc));
    };
    let worked = work_alone(alloc, store, command);
    finish(store, Some(Asked::Alone(command)), worked)
}

/// Whether the words ask for a command that starts threads, which is `run`, `gen`, `clip`,
/// `capture` or `nested`.
pub fn starts_threads(words: &[String]) -> bool
    ensures { result ≡ starts_threads (command (texts words.now)) }
{
    parse_beside(words).is_some()
}

/// Does the work of a command on the calling thread.
fn work_alone<S: Store>(alloc: Global, store: &mut S, asked: AskedAlone) -> Worked
    requires { IsAloneInRange asked }
    ensures { Ends (asks_alone asked.entry) (S.shown store.old) (S.shown store.new) result }
{
    match asked {
        AskedAlone::Still {
            width,
            height,
            script,
        } => perform::still(alloc, store, width, height, script),
        AskedAlone::Turns { config } => perform::turns(alloc, store, config),
        AskedAlone::Audit { config, journal } => audited(alloc, store, config, journal),
    }
}

/// Does the work of a command that starts threads.
fn work_beside<R: Threads + Wait + Sync, S: Store, G: Gate>(
    host: &ThreadHost<R, G>,
    store: &mut S,
    asked: AskedBeside,
) -> Worked
    requires { IsBesideInRange asked }
    ensures { Ends (asks_beside asked.entry) (S.shown store.old) (S.shown store.new) result }
{
    match asked {
        AskedBeside::Run { config } => perform::run_command(host, store, config),
        AskedBeside::Gen { number } => perform::generated(host, store, number),
        AskedBeside::Clip { config } => clip(host, store, config),
        AskedBeside::Capture { config, region } => capture(host, store, config, region),
        AskedBeside::Nested { outer, inner } => nested(host, store, outer, inner),
    }
}

/// What is left where the words are no command, over any store: nothing is done.
fn no_command(alloc: Global) -> Worked
    ensures { (shown : StoreModel) → Ends NoCommand shown shown result }
{
    ended_before_run(alloc, nowhere(End::Usage))
}

/// Says how the work that the words ask for came to its end.
fn finish<S: Store>(store: &mut S, asked: Option<Asked>, worked: Worked) -> Done
    ensures said { Finished (command_of asked.entry) (S.shown store.old) worked
        (S.shown store.new) result.status }
    ensures journal { result.journal.items ≡ worked.journal.items }
{
    let said = tell(store, asked, &worked);
    Done {
        status: status(worked.stop.end, said),
        journal: worked.journal,
    }
}
