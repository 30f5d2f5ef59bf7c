//! The files that a command adds behind those of its run: a clip list, a film, or an inner journal.

ghost use Rattle.std.specs.Prelude.{◌≡◌, [], ℕ, List, IfOk, false, true, ◌++◌, ◌∷◌};
ghost use Rattle.nit_perform.specs.Terms.{IsSameRun, PutsNext, clips_name, film_name};
ghost use Rattle.nit_perform.specs.Terms.{inner_journal_name, journal_text, put_state_of_run};

use crate::film::Film;
use crate::puts::put_made;
use crate::ran::{PutFault, Ran};
use nit_events::Entry;
use nit_rect::NoMemory;
use nit_report::journal_text;
use nit_run::Output;
use nit_store::Store;
use std::alloc::Global;

/// Puts the clip list behind the files of a run, unless a put was refused before. Want of memory
/// for its text counts as a put that is refused.
pub fn put_clips<S: Store>(store: &mut S, ran: Ran, list: Result<Vec<u8>, NoMemory>) -> Ran
    ensures same { IsSameRun ran result }
    ensures puts { (text : List ℕ) → IfOk list (λ v. v.items ≡ text)
        → PutsNext (clips_name, text) (put_state_of_run (S.shown store.old) ran.fault)
        (put_state_of_run (S.shown store.new) result.fault) }
{
    let fault = put_made(store, ran.fault, Output::Clips, list);
    ran.with_fault(fault)
}

/// Puts a film behind the files of a run, unless a put was refused before. One that is not whole is
/// not put, and counts as want of memory.
pub fn end_film<S: Store>(store: &mut S, film: Film, whole: bool, ran: Ran) -> Ran
    ensures same { IsSameRun ran result }
    ensures whole { whole ≡ true → PutsNext (film_name, film.bytes.items ++ 0 ∷ [])
        (put_state_of_run (S.shown store.old) ran.fault)
        (put_state_of_run (S.shown store.new) result.fault) }
    ensures not_whole { whole ≡ false → (bytes : List ℕ) → PutsNext (film_name, bytes)
        (put_state_of_run (S.shown store.old) ran.fault)
        (put_state_of_run (S.shown store.new) result.fault) }
{
    let fault = put_film(store, film, whole, ran.fault);
    ran.with_fault(fault)
}

/// Puts a film, unless a put was refused before. Gives the put that was refused, if there is one. A
/// film that is not whole is not put, and counts as want of memory.
fn put_film<S: Store>(
    store: &mut S,
    film: Film,
    whole: bool,
    fault: Option<PutFault>,
) -> Option<PutFault>
    ensures whole { whole ≡ true → PutsNext (film_name, film.bytes.items ++ 0 ∷ [])
        (put_state_of_run (S.shown store.old) fault) (put_state_of_run (S.shown store.new) result) }
    ensures not_whole { whole ≡ false → (bytes : List ℕ) → PutsNext (film_name, bytes)
        (put_state_of_run (S.shown store.old) fault) (put_state_of_run (S.shown store.new) result) }
{
    if fault.is_some() {
        return fault;
    }
    if whole {
        put_made(store, fault, Output::Film, film.into_stream())
    } else {
        put_made(store, fault, Output::Film, Err(NoMemory))
    }
}

/// Puts the journal of an inner run, unless a put was refused before. Gives the put that was
/// refused, if there is one. Want of memory for the text counts as a put that is refused.
pub fn put_inner_journal<S: Store>(
    alloc: Global,
    store: &mut S,
    fault: Option<PutFault>,
    journal: &[Entry],
) -> Option<PutFault>
    ensures { PutsNext (inner_journal_name, journal_text journal.now)
        (put_state_of_run (S.shown store.old) fault) (put_state_of_run (S.shown store.new) result) }
{
    if fault.is_some() {
        return fault;
    }
    let text = journal_text(alloc, journal);
    put_made(store, fault, Output::InnerJournal, text)
}
