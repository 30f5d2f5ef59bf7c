//! The clip list as the server keeps it. Its room is taken at the start; a call takes no memory.

ghost use Rattle.std.specs.Prelude.{◌≡◌, ◌-◌, ◌≤◌, ◌++◌, ◌∷◌, [], IfOk};
ghost use Rattle.nit_clip.specs.Terms.{AreAnswered, NeverFall, clip_answer, clipboard_after};
ghost use Rattle.nit_clip.specs.Terms.{clipboard_of, has_focus, last_at, most_clips, pasted};

use crate::call::{ClipCall, ClipEntry, ClipReply};
use nit_events::Text;
use nit_rect::NoMemory;
use std::alloc::Global;
use std::marker::Model;

/// The entries so far, and for how many more there is room. Contracts see both. Each entry has the
/// answer by its focus and the entries before it, and the places never fall.
#[derive(Drop)]
pub struct Clip {
    entries: Vec<ClipEntry>,
    spare: usize,
    clipboard: Option<Text>,
    last: u32,
}

impl Model for Clip {
    ghost use Rattle.std.specs.Prelude.{vec_len, vec_capacity};
    ghost use Rattle.nit_clip.specs.Clip.{ClipModel, IsClip};

    ghost Value = { ClipModel };

    ghost view = { λ c. record { entries = c.entries.items; spare = c.spare } };

    ghost invariant = { λ c.
        IsClip c.entries.items (vec_len c.entries) c.spare (vec_capacity c.entries)
        c.clipboard c.last };
}

impl Clip {
    /// An empty clip list with room for `n` entries, of which there are at most 1,048,576.
    pub fn with_room(alloc: Global, n: usize) -> Result<Clip, NoMemory>
        requires { n ≤ most_clips }
        ensures { IfOk result (λ c. c ≡ record { entries = []; spare = n }) }
    {
        Ok(Clip {
            entries: Vec::with_capacity(alloc, n)?,
            spare: n,
            clipboard: None,
            last: 0,
        })
    }

    /// Answers the call of a session, where so many entries of the journal stand before it and this
    /// session has the focus. What was asked and answered is the last entry. It takes no memory.
    pub fn serve(&mut self, at: u32, sid: u32, focus: Option<u32>, call: &ClipCall) -> ClipReply
        requires room { 1 ≤ self.old.spare }
        requires place { last_at 0 self.old.entries ≤ at }
        ensures reply { result ≡ clip_answer (clipboard_of self.old.entries) focus sid call.now }
        ensures recorded { self.new ≡ record {
          entries = self.old.entries
              ++ record { at = at; sid = sid; focus = focus; call = call.now; reply = result } ∷ [];
          spare = self.old.spare - 1;
        } }
    {
        let reply = reply_to(&self.clipboard, focus, sid, call);
        self.clipboard = clipboard_after(&self.clipboard, call, &reply);
        self.last = at;
        self.spare -= 1;
        self.entries.push_reserved(ClipEntry {
            at,
            sid,
            focus,
            call: *call,
            reply,
        });
        reply
    }

    /// All entries, in order: each with the answer by its focus and the entries before it, and with
    /// a place that is not below the one before.
    pub fn entries(&self) -> &[ClipEntry]
        ensures value { result.now ≡ self.now.entries }
        ensures answered { AreAnswered result.now }
        ensures ordered { NeverFall 0 result.now }
    {
        self.entries.as_slice()
    }
}

/// The answer to a call, by what the clipboard holds.
fn reply_to(clipboard: &Option<Text>, focus: Option<u32>, sid: u32, call: &ClipCall) -> ClipReply
    ensures { result ≡ clip_answer clipboard.now focus sid call.now }
{
    if !has_focus(focus, sid) {
        return ClipReply::NotFocused;
    }
    match call {
        ClipCall::Copy(_) => ClipReply::Copied,
        ClipCall::Paste => pasted(clipboard),
    }
}

fn pasted(clipboard: &Option<Text>) -> ClipReply
    ensures { result ≡ pasted clipboard.now }
{
    match clipboard {
        Some(text) => ClipReply::Pasted(*text),
        None => ClipReply::Empty,
    }
}

/// What the clipboard holds after a call that was answered so.
fn clipboard_after(clipboard: &Option<Text>, call: &ClipCall, reply: &ClipReply) -> Option<Text>
    ensures { result ≡ clipboard_after clipboard.now call.now reply.now }
{
    let ClipReply::Copied = reply else {
        return *clipboard;
    };
    match call {
        ClipCall::Copy(text) => Some(*text),
        ClipCall::Paste => *clipboard,
    }
}

/// Whether the session has the focus.
fn has_focus(focus: Option<u32>, sid: u32) -> bool
    ensures { result ≡ has_focus focus sid }
{
    match focus {
        Some(session) => session == sid,
        None => false,
    }
}
