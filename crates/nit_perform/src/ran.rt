//! What a run leaves.

ghost use Rattle.std.specs.Prelude.{◌≡◌, ◌+◌, ◌≤◌, length};
ghost use Rattle.nit_perform.specs.Terms.{IsRunOf, StoreModel, is_shot_entry, put_state_at};
ghost use Rattle.nit_perform.specs.Terms.{put_state_of_desk, put_state_of_run, shots};

use nit_events::Entry;
use nit_rounds::{Desk, PictureName};
use nit_run::Output;
use nit_store::{PutError, Store};

/// A put that was refused.
#[derive(Clone, Copy, Debug)]
pub struct PutFault {
    pub file: Output,
    pub error: PutError,
}

impl PutFault {
    /// The put that a desk met as refused, if there is one, at the picture that it tried last.
    pub fn of_picture(refused: Option<PutError>, tried: PictureName) -> Option<PutFault>
        ensures { (shown : StoreModel)
            → put_state_of_run shown result ≡ put_state_of_desk shown refused tried }
    {
        let error = refused?;
        Some(PutFault {
            file: Output::Picture(tried),
            error,
        })
    }
}

/// What is left of a desk: its store, and the put that was refused, if there is one.
#[derive(Drop)]
pub struct LeftDesk<'a, S> {
    pub store: &'a mut S,
    pub fault: Option<PutFault>,
}

/// Takes a desk apart, which puts no more pictures.
pub fn leave_desk<'a, S: Store>(desk: Desk<'a, S>) -> LeftDesk<'a, S>
    ensures puts { put_state_of_run (S.shown result.store.now) result.fault
        ≡ put_state_at S.shown desk.entry }
    ensures same_store { result.store.ghost_name ≡ desk.entry.store.ghost_name }
{
    let Desk {
        store,
        frame: _frame,
        text: _text,
        fault,
        tried,
    } = desk;
    let fault = PutFault::of_picture(fault, tried);
    LeftDesk { store, fault }
}

/// What a run leaves.
#[derive(Drop)]
pub struct Ran {
    /// The whole journal.
    pub journal: Vec<Entry>,
    /// How many pictures were taken, the last one counted.
    pub frames: usize,
    /// The put that was refused, if there is one. No later one is tried.
    pub fault: Option<PutFault>,
}

impl Ran {
    /// What the run leaves once a file was put behind its own, with the put that was refused, if
    /// there is one.
    pub fn with_fault(self, fault: Option<PutFault>) -> Ran
        ensures journal { result.journal.items ≡ self.journal.items }
        ensures frames { result.frames ≡ self.frames }
        ensures fault { result.fault ≡ fault }
    {
        Ran {
            journal: self.journal,
            frames: self.frames,
            fault,
        }
    }
}

/// What a run leaves that has this journal.
pub fn left(journal: Vec<Entry>, fault: Option<PutFault>) -> Ran
    ensures { IsRunOf journal.items fault result }
{
    Ran {
        frames: shot_count(&journal) + 1,
        journal,
        fault,
    }
}

/// What a run leaves that has this journal and puts nothing behind its pictures: the store stays as
/// it is.
pub fn leave_pictures<S: Store>(_store: &mut S, journal: Vec<Entry>, fault: Option<PutFault>) -> Ran
    ensures stays { S.shown _store.new ≡ S.shown _store.old }
    ensures ran { IsRunOf journal.items fault result }
{
    left(journal, fault)
}

/// How many shots were taken.
#[tactic(auto, using(crate::proofs::RunLemmas::shots_counted))]
fn shot_count(entries: &[Entry]) -> usize
    ensures count { result ≡ shots entries.now }
    ensures most { result ≤ length entries.now }
{
    entries.iter().filter(|entry| is_shot(entry)).count()
}

fn is_shot(entry: &Entry) -> bool
    ensures { result ≡ is_shot_entry entry.now }
{
    matches!(entry, Entry::Shot { .. })
}
