//! The texts that a run puts behind its pictures: the events of each client, and the journal.

ghost use Rattle.std.specs.Prelude.{◌≡◌, ◌+◌, ◌++◌, ◌∷◌, [], ◌<◌, length};
ghost use Rattle.nit_perform.specs.Terms.{PutsAll, PutsFile, PutsNext, ending_of, events_files};
ghost use Rattle.nit_perform.specs.Terms.{events_name, events_text, journal_file, put_state_of_run};
ghost use Rattle.nit_perform.specs.Terms.{session, shots, state_now, unrefused};

use crate::puts::put_made;
use crate::ran::{PutFault, Ran, left};
use nit_config::Member;
use nit_events::Entry;
use nit_glyph::Label;
use nit_report::{Ending, events_text, journal_text};
use nit_run::{LabelBytes, Output};
use nit_scene::Scene;
use nit_store::Store;
use nit_store::laws::puts_go_on;
use nit_word::Glass;
use std::alloc::Global;

/// What a run leaves that ended with this scene, and puts its texts.
pub fn leave_texts<S: Store, G: Glass + Drop>(
    alloc: Global,
    store: &mut S,
    fault: Option<PutFault>,
    clients: &[Member],
    scene: Scene<G>,
) -> Ran
    requires { clients.now ≡ scene.config.clients }
    ensures journal { result.journal.items ≡ scene.entries }
    ensures frames { result.frames ≡ shots scene.entries + 1 }
    ensures puts { PutsAll (events_files scene.config scene.entries ++ journal_file scene.entries
        ∷ [])
        (put_state_of_run (S.shown store.old) fault)
        (put_state_of_run (S.shown store.new) result.fault) }
{
    puts_go_on();
    let fault = put_events(alloc, store, fault, clients, &scene);
    let journal = scene.into_journal().into_entries();
    let fault = put_journal(alloc, store, fault, &journal);
    left(journal, fault)
}

/// Puts the events of each client of the scene, in order, until a put is refused. Gives that put,
/// if there is one. Want of memory for a text counts as a put that is refused.
pub fn put_events<S: Store, G: Glass + Drop>(
    alloc: Global,
    store: &mut S,
    fault: Option<PutFault>,
    clients: &[Member],
    scene: &Scene<G>,
) -> Option<PutFault>
    requires { clients.now ≡ scene.now.config.clients }
    ensures { PutsAll (events_files scene.now.config scene.now.entries)
        (put_state_of_run (S.shown store.old) fault) (put_state_of_run (S.shown store.new) result) }
{
    // so the clients are at most 64
    let _ = scene.size();
    let mut fault = fault;
    for (sid, client) in clients.iter().enumerate() {
        if fault.is_none() {
            fault = put_events_of(alloc, store, &client.label, scene, sid as u32);
        }
    }
    fault
}

/// Puts the events of one client, which has this label. Gives the put, where it is refused.
fn put_events_of<S: Store, G: Glass + Drop>(
    alloc: Global,
    store: &mut S,
    label: &Label,
    scene: &Scene<G>,
    sid: u32,
) -> Option<PutFault>
    requires { sid < length scene.now.config.clients }
    ensures { let end = ending_of (session (state_now scene.now) sid) in
        PutsFile (events_name label.now, events_text scene.now.entries sid end)
        (unrefused (S.shown store.old)) (put_state_of_run (S.shown store.new) result) }
{
    let file = Output::Events(LabelBytes::new(label));
    let entries = scene.journal().entries();
    let text = events_text(alloc, entries, sid, &ending(scene, sid));
    put_made(store, None, file, text)
}

/// How the session `sid` has ended, or stands.
fn ending<G: Glass + Drop>(scene: &Scene<G>, sid: u32) -> Ending
    requires { sid < length scene.now.config.clients }
    ensures { result ≡ ending_of (session (state_now scene.now) sid) }
{
    Ending {
        lost: scene.lost(sid),
        left: scene.left(sid),
        status: scene.status(sid),
    }
}

/// Puts the journal, unless a put was refused before. Gives the put that was refused, if there is
/// one. Want of memory for the text counts as a put that is refused.
pub fn put_journal<S: Store>(
    alloc: Global,
    store: &mut S,
    fault: Option<PutFault>,
    journal: &[Entry],
) -> Option<PutFault>
    ensures { PutsNext (journal_file journal.now)
        (put_state_of_run (S.shown store.old) fault) (put_state_of_run (S.shown store.new) result) }
{
    if fault.is_some() {
        return fault;
    }
    let text = journal_text(alloc, journal);
    put_made(store, fault, Output::Journal, text)
}
