//! What the user's thread holds.

ghost use Rattle.std.specs.Prelude.{◌≡◌, ◌<◌, ◌≤◌, ◌==◌, [], length, IfNone, slice_get, take};
ghost use Rattle.nit_hall.specs.Terms.{IsAtDevice, IsDevice, entries_in, input_phases_before};
ghost use Rattle.nit_hall.specs.Terms.{most_lines, next_device, raws_in, user_actions_in};
ghost use Rattle.nit_hall.specs.Terms.{user_actions_of};

use nit_events::Device;
use nit_ledger::Share;
use nit_script::{Input, InputLine};
use std::marker::Model;

/// The user's place in the input script, with its share of the room's book. It can be sent to
/// another thread.
#[derive(Drop)]
pub struct UserPass<'a> {
    pub(crate) next: u32,
    pub(crate) phase: u32,
    pub(crate) input: &'a Input,
    pub(crate) share: Share,
}

impl<'a> Model for UserPass<'a> {
    ghost use Rattle.nit_ledger.specs.Book.{entries_in, raws_in};
    ghost use Rattle.nit_hall.specs.Pass.{UserPassModel, IsUserPass};

    ghost Value = { UserPassModel };

    ghost view = { λ u. record {
      number = u.share.number;
      next = u.next;
      phase = u.phase;
      name = u.share.name;
      input = u.input.now;
      seen = entries_in u.share.seen;
      raws = raws_in u.share.seen;
    } };

    ghost invariant = { λ u. IsUserPass (record {
      number = u.share.number;
      next = u.next;
      phase = u.phase;
      name = u.share.name;
      input = u.input.now;
      seen = entries_in u.share.seen;
      raws = raws_in u.share.seen;
    }) u.share };
}

impl<'a> UserPass<'a> {
    /// The user's pass, of which no line is done. The share has counted and seen nothing.
    pub(crate) fn new(input: &'a Input, share: Share) -> UserPass<'a>
        requires { (share.count ≡ 0) × (share.seen ≡ []) }
        ensures { result ≡ record {
          number = share.number;
          next = 0;
          phase = 0;
          name = share.name;
          input = input.entry.now;
          seen = entries_in share.seen;
          raws = raws_in share.seen;
        } }
    {
        UserPass {
            next: 0,
            phase: 0,
            input,
            share,
        }
    }

    /// How many lines of the input script are done.
    pub fn line(&self) -> u32
        ensures line { result ≡ self.now.next }
        ensures few { result ≤ most_lines }
    {
        let _few = self.input.lines().len();
        self.next
    }

    /// How many phases of it are ended: as many as its done lines end.
    pub fn phase(&self) -> u32
        ensures phase { result ≡ self.now.phase }
        ensures ended { self.now.phase ≡ input_phases_before self.now.input self.now.next }
    {
        self.phase
    }

    /// Whether every line of the input script is done.
    pub fn done(&self) -> bool
        ensures done { result ≡ (self.now.next == length self.now.input) }
        ensures within { self.now.next ≤ length self.now.input }
    {
        self.next as usize == self.input.lines().len()
    }

    /// The next line, or `None` where the pass is done. The user's entries that the pass knows are
    /// those of its done lines.
    pub fn next(&self) -> Option<InputLine>
        ensures line { result ≡ slice_get self.now.input self.now.next }
        ensures end { IfNone result (self.now.next ≡ length self.now.input) }
        ensures known { user_actions_of self.now.seen
            ≡ user_actions_in (take self.now.next self.now.input) }
    {
        self.input.lines().get(self.next as usize).copied()
    }

    /// The next line, which is of a device.
    #[tactic(auto, using(crate::proofs::LineLemmas::device_fits))]
    pub(crate) fn next_device(&self) -> Device
        requires { IsAtDevice self.now }
        ensures device { result ≡ next_device self.now }
        ensures fits { IsDevice result }
        ensures few { self.now.next < most_lines }
    {
        let InputLine::Device(dev) = self.input.lines()[self.next as usize] else {
            unreachable!()
        };
        dev
    }
}
