//! A client's place in its clip script.

ghost use Rattle.std.specs.Prelude.{◌≡◌, ◌+◌, ◌≤◌, ◌<◌, ◌==◌, length, IfNone, slice_get};
ghost use Rattle.nit_hall.specs.Terms.{IsAtClip, IsAtClipPhase, clip_phases_before, entries_in};
ghost use Rattle.nit_hall.specs.Terms.{most_lines, next_clip};

use crate::pass::Pass;
use nit_clip::laws::calls_of_a_clip_script;
use nit_clip::{ClipCall, ClipLine, ClipScript};
use nit_ledger::Share;
use std::marker::Model;

/// A client's place in its clip script, with a share of the room's book. It stands beside the
/// client's [`Pass`], and can be sent to another thread.
#[derive(Drop)]
pub struct ClipPass<'a> {
    pub(crate) sid: u32,
    pub(crate) next: u32,
    pub(crate) phase: u32,
    pub(crate) script: &'a ClipScript,
    pub(crate) share: Share,
}

impl<'a> Model for ClipPass<'a> {
    ghost use Rattle.nit_ledger.specs.Book.{entries_in};
    ghost use Rattle.nit_hall.specs.ClipPass.{ClipPassModel, IsClipPass};

    ghost Value = { ClipPassModel };

    ghost view = { λ q. record {
      sid = q.sid;
      next = q.next;
      phase = q.phase;
      number = q.share.number;
      name = q.share.name;
      script = q.script.now;
      seen = entries_in q.share.seen;
    } };

    ghost invariant = { λ q. IsClipPass (record {
      sid = q.sid;
      next = q.next;
      phase = q.phase;
      number = q.share.number;
      name = q.share.name;
      script = q.script.now;
      seen = entries_in q.share.seen;
    }) q.share };
}

impl<'a> ClipPass<'a> {
    /// The clip pass of this client, of which no line is done. The share has counted nothing.
    pub(crate) fn new(sid: u32, script: &'a ClipScript, share: Share) -> ClipPass<'a>
        requires { share.count ≡ 0 }
        ensures { result ≡ record {
          sid = sid;
          next = 0;
          phase = 0;
          number = share.number;
          name = share.name;
          script = script.entry.now;
          seen = entries_in share.seen;
        } }
    {
        ClipPass {
            sid,
            next: 0,
            phase: 0,
            script,
            share,
        }
    }

    /// The client's number, from 0.
    pub fn sid(&self) -> u32
        ensures { result ≡ self.now.sid }
    {
        self.sid
    }

    /// How many phases of its clip script are ended: as many as its done lines end.
    pub fn phase(&self) -> u32
        ensures phase { result ≡ self.now.phase }
        ensures ended { self.now.phase ≡ clip_phases_before self.now.script self.now.next }
    {
        self.phase
    }

    /// Whether every line of its clip script is done.
    pub fn done(&self) -> bool
        ensures done { result ≡ (self.now.next == length self.now.script) }
        ensures within { self.now.next ≤ length self.now.script }
    {
        self.next as usize == self.script.lines().len()
    }

    /// The next line, or `None` where the clip pass is done.
    pub fn next(&self) -> Option<ClipLine>
        ensures line { result ≡ slice_get self.now.script self.now.next }
        ensures end { IfNone result (self.now.next ≡ length self.now.script) }
    {
        self.script.lines().get(self.next as usize).copied()
    }

    /// Ends a phase of the clip script, whose next line is `phase`. The client's pass is one phase
    /// ahead.
    pub fn turn(&mut self, pass: &Pass<'a>)
        requires next { IsAtClipPhase self.old }
        requires ahead { pass.now.phase ≡ self.old.phase + 1 }
        ensures { self.new
            ≡ record self.old { next = self.old.next + 1; phase = self.old.phase + 1 } }
    {
        calls_of_a_clip_script();
        let _few = self.script.lines().len();
        self.next += 1;
        self.phase = pass.phase;
    }

    /// The next line, which is a clip call.
    pub(crate) fn next_clip(&self) -> ClipCall
        requires { IsAtClip self.now }
        ensures call { result ≡ next_clip self.now }
        ensures few { self.now.next < most_lines }
    {
        let ClipLine::Call(call) = self.script.lines()[self.next as usize] else {
            unreachable!()
        };
        call
    }
}
