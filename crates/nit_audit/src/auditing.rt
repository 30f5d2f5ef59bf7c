//! The audit.

ghost use Rattle.std.specs.Prelude.{◌≡◌, ◌≢◌, ℕ, ◌<◌, ◌≤◌, ◌↔◌, ◌⊎◌, ◌+◌, [], length, map};
ghost use Rattle.nit_audit.specs.Terms.{CanAudit, CanReplay, Does, IfOk, IsConfiguration, IsDevice};
ghost use Rattle.nit_audit.specs.Terms.{IsFollowing, IsGone, IsGood, IsLegal, IsNext};
ghost use Rattle.nit_audit.specs.Terms.{IsNothingLeft, IsReplay, IsTrue, IsVerdict, IsWhole, Ok};
ghost use Rattle.nit_audit.specs.Terms.{Shoots, alone, audited, calls_to_make, donation_of};
ghost use Rattle.nit_audit.specs.Terms.{first_audited, left, most_read, next_phase, projection};
ghost use Rattle.nit_audit.specs.Terms.{replies_to, slice_set, to_do, user_actions_to_do};
ghost use Rattle.nit_events.specs.declared.entry.Entry.TheVariants as entry;

use crate::client_course::ClientCourse;
use crate::laws::{yes_is_legal_and_whole, yes_is_served_alone};
use crate::replay::Replay;
use crate::user_course::UserCourse;
use nit_config::Config;
use nit_events::{Call, Device, Entry, Reply, Routed};
use nit_rect::NoMemory;
use nit_script::{Client, Input};
use std::alloc::Global;
use std::marker::Model;

/// Whether the entries are those of a run.
#[derive(Clone, Copy, Debug, PartialEq, Eq)]
pub enum Verdict {
    /// They are good, and the last one is the last picture.
    Yes,
    /// The first entry, counted from 1, with which they are not good. Where they are good and the
    /// last picture is lacking, it is the place after them.
    No { entry: u32 },
}

/// Whether these entries are those of a run by this configuration and these scripts. There is a
/// script for each client, in order, and at most 2^27 entries.
pub fn audit(
    alloc: Global,
    config: &Config,
    scripts: &[Client],
    input: &Input,
    entries: &[Entry],
) -> Result<Verdict, NoMemory>
    requires configured { IsConfiguration config.now }
    requires scripts { length scripts.now ≡ length config.now.clients }
    requires few { length entries.now ≤ most_read }

    // The verdict is the one on these entries.
    ensures verdict { IfOk result
        (IsVerdict (IsGood config.now scripts.now input.now) entries.now) }
    // No other is, so each comes exactly where it is the one.
    ensures only { IfOk result (λ v. (other : Verdict)
        → IsVerdict (IsGood config.now scripts.now input.now) entries.now other → v ≡ other) }
    // It is `Yes` exactly where they are a legal journal that is whole for the scripts.
    ensures whole { IfOk result (λ v. (v ≡ Verdict.Yes) ↔ (IsLegal config.now entries.now
        × IsWhole (map calls_to_make scripts.now) (user_actions_to_do input.now) entries.now)) }
    // After `Yes` each client got the replies of a machine that serves it alone.
    ensures alone { result ≡ Ok Verdict.Yes → (s : ℕ) → s < length config.now.clients
        → replies_to s entries.now
        ≡ alone (donation_of config.now s) (projection s entries.now) }
{
    yes_is_legal_and_whole();
    yes_is_served_alone();
    judged(alloc, config, scripts, input, entries)
}

/// The verdict.
fn judged(
    alloc: Global,
    config: &Config,
    scripts: &[Client],
    input: &Input,
    entries: &[Entry],
) -> Result<Verdict, NoMemory>
    requires { CanAudit config.now scripts.now entries.now }
    ensures { IfOk result (IsVerdict (IsGood config.now scripts.now input.now) entries.now) }
{
    let mut underway = Underway::new(alloc, config, scripts, input)?;
    'entries: for (i, e) in entries.iter().enumerate() {
        if let Entry::Final = *e {
            return Ok(underway.ended(entries, i));
        }
        if !underway.follow(config, e)? {
            return Ok(Verdict::No {
                entry: i as u32 + 1,
            });
        }
    }
    Ok(Verdict::No {
        entry: entries.len() as u32 + 1,
    })
}

/// An audit under way: the replay, what is left of the scripts, and the phase of what was done
/// last.
#[derive(Drop)]
struct Underway<'a> {
    replay: Replay,
    clients: Vec<ClientCourse<'a>>,
    user: UserCourse<'a>,
    phase: u32,
}

impl<'a> Model for Underway<'a> {
    ghost use Rattle.nit_audit.specs.AuditReplay.{UnderwayModel};

    ghost Value = { UnderwayModel };

    ghost view = { λ a. record {
      replay = a.replay;
      clients = a.clients.items;
      user = a.user;
      phase = a.phase;
    } };
}

impl<'a> Underway<'a> {
    /// Before the first entry.
    fn new(
        alloc: Global,
        config: &Config,
        scripts: &'a [Client],
        input: &'a Input,
    ) -> Result<Underway<'a>, NoMemory>
        requires { IsConfiguration config.now }
        ensures kept { IfOk result (λ a. IsReplay config.now a.replay) }
        ensures none { IfOk result (λ a. a.replay.count ≡ 0) }
        ensures first { IfOk result (λ a. audited config.now a
            ≡ first_audited config.now (map calls_to_make scripts.now)
            (user_actions_to_do input.now)) }
    {
        Ok(Underway {
            replay: Replay::new(alloc, config)?,
            clients: courses_of(alloc, scripts)?,
            user: UserCourse::new(input),
            phase: 0,
        })
    }

    /// Whether the entry may come next; it is not the last picture. Where it may, the audit goes
    /// on.
    fn follow(&mut self, config: &Config, e: &Entry) -> Result<bool, NoMemory>
        requires going { CanReplay config.now self.old.replay }
        requires open { e.now ≢ entry.Final }
        ensures { IfOk result (IsFollowing config.now e.now self.old self.new) }
    {
        match *e {
            Entry::Call { sid, call, reply } => self.call(config, sid, &call, &reply),
            Entry::Input { dev, routed } => Ok(self.input(config, dev, &routed)),
            Entry::Shot { number } => Ok(self.shot(config, number)),
            Entry::Final => Ok(false),
        }
    }

    /// A session's call, with its reply.
    fn call(
        &mut self,
        config: &Config,
        sid: u32,
        call: &Call,
        reply: &Reply,
    ) -> Result<bool, NoMemory>
        requires { CanReplay config.now self.old.replay }
        ensures { IfOk result
            (IsFollowing config.now (entry.Call sid call.now reply.now) self.old self.new) }
    {
        if !self.make(sid, call) {
            return Ok(false);
        }
        self.replay.call(config, sid, call, reply)
    }

    /// A device event, with its deliveries.
    fn input(&mut self, config: &Config, dev: Device, routed: &Routed) -> bool
        requires { CanReplay config.now self.old.replay }
        ensures { IsFollowing config.now (entry.Input dev routed.now) self.old self.new result }
    {
        if !self.act(dev) {
            return false;
        }
        self.replay.input(config, dev, routed)
    }

    /// A shot, with its number.
    fn shot(&mut self, config: &Config, number: u32) -> bool
        requires { CanReplay config.now self.old.replay }
        ensures { IsFollowing config.now (entry.Shot number) self.old self.new result }
    {
        if !self.shoot() {
            return false;
        }
        self.replay.shot(config, number)
    }

    /// Whether the client makes this call next. Where it does, what is left to do goes on.
    fn make(&mut self, sid: u32, call: &Call) -> bool
        ensures { let todo = to_do self.old.clients sid in
            IsGone (IsNext self.old.phase call.now todo) (record self.old {
              clients = slice_set self.old.clients sid (left todo);
              phase = next_phase todo;
            }) self.new result }
    {
        let Some(client) = self.clients.get_mut(sid as usize) else {
            return false;
        };
        let Some(phase) = client.make(self.phase, call) else {
            return false;
        };
        self.phase = phase;
        true
    }

    /// Whether the user does this next. Where it is so, what is left to do goes on.
    fn act(&mut self, dev: Device) -> bool
        ensures gone { IsGone (IsNext self.old.phase (Does dev) self.old.user)
            (record self.old { user = left self.old.user; phase = next_phase self.old.user })
            self.new result }
        ensures range { IsTrue result → IsDevice dev }
    {
        let Some(phase) = self.user.act(self.phase, dev) else {
            return false;
        };
        self.phase = phase;
        true
    }

    /// Whether a picture is taken next. Where it is so, what is left to do goes on.
    fn shoot(&mut self) -> bool
        ensures { IsGone (IsNext self.old.phase Shoots self.old.user)
            (record self.old { user = left self.old.user; phase = next_phase self.old.user })
            self.new result }
    {
        let Some(phase) = self.user.shoot(self.phase) else {
            return false;
        };
        self.phase = phase;
        true
    }

    /// The verdict at the last picture, which stands at place `i`.
    fn ended(&self, entries: &[Entry], i: usize) -> Verdict
        requires few { length entries.now ≤ most_read }
        requires place { i < length entries.now }
        ensures { let Nothing = IsNothingLeft self.now.clients self.now.user in
            ((Nothing → ⊥) × (result ≡ Verdict.No (i + 1)))
            ⊎ (Nothing × (i + 1 ≡ length entries.now) × (result ≡ Verdict.Yes))
            ⊎ (Nothing × (i + 1 < length entries.now) × (result ≡ Verdict.No (i + 2))) }
    {
        if !self.is_done() {
            return Verdict::No {
                entry: i as u32 + 1,
            };
        }
        if i + 1 == entries.len() {
            Verdict::Yes
        } else {
            Verdict::No {
                entry: i as u32 + 2,
            }
        }
    }

    /// Whether nothing is left to do.
    fn is_done(&self) -> bool
        ensures { IsTrue result ↔ IsNothingLeft self.now.clients self.now.user }
    {
        self.user.is_done() && are_done(self.clients.as_slice())
    }
}

/// Whether no call is left of any client.
fn are_done(clients: &[ClientCourse<'_>]) -> bool
    ensures { IsTrue result ↔ ((sid : ℕ) → sid < length clients.now → to_do clients.now sid ≡ []) }
{
    for client in clients {
        if !client.is_done() {
            return false;
        }
    }
    true
}

/// All of each client's script.
fn courses_of<'a>(alloc: Global, scripts: &'a [Client]) -> Result<Vec<ClientCourse<'a>>, NoMemory>
    ensures { IfOk result (λ v. v.items ≡ map calls_to_make scripts.now) }
{
    let mut courses = Vec::with_capacity(alloc, scripts.len())?;
    for script in scripts {
        courses.push(ClientCourse::new(script))?;
    }
    Ok(courses)
}
