//! The lines of a clip script, each read from its first word to its last, and written.

ghost use Rattle.std.specs.Prelude.{◌≡◌, ◌++◌, OnOk};
ghost use Rattle.nit_clip.specs.Terms.{Gives, clip_call_at, clip_front_at, clip_line_at};
ghost use Rattle.nit_clip.specs.Terms.{clip_line_spelling, clip_phase_at, copy_at, paste_at};

use crate::call::ClipCall;
use crate::line::ClipLine;
use crate::text::{put_bytes, put_call};
use nit_rect::NoMemory;
use nit_script::{ScriptLine, take_byte, take_word, text_field};
use std::alloc::Global;

impl ScriptLine for ClipLine {
    ghost use Rattle.nit_clip.specs.ClipSpelling.{FitsClipLine, clip_line_spelling};
    ghost use Rattle.nit_clip.specs.ClipGrammar.{is_clip_phase};

    ghost Fits = { FitsClipLine };

    ghost spelling = { clip_line_spelling };

    ghost ends_phase = { is_clip_phase };

    fn take(bytes: &[u8]) -> Option<(ClipLine, &[u8])> {
        take_line(bytes)
    }

    fn put(&self, _alloc: Global, out: &mut Vec<u8>) -> Result<(), NoMemory> {
        put_line(out, self)
    }

    fn ends_phase(&self) -> bool {
        matches!(self, ClipLine::Phase)
    }

    fn one_in_front() {}
}

fn put_line(out: &mut Vec<u8>, line: &ClipLine) -> Result<(), NoMemory>
    ensures { OnOk result (out.new.items ≡ out.old.items ++ clip_line_spelling line.now) }
{
    match line {
        ClipLine::Call(call) => put_call(out, call),
        ClipLine::Phase => put_bytes(out, b"phase"),
    }
}

/// The line of a clip script in front, with its line feed, and what follows it.
#[tactic(auto, unfolding(crate::specs::ClipReaders::clip_line_at))]
fn take_line(bytes: &[u8]) -> Option<(ClipLine, &[u8])>
    ensures { Gives (λ x. (x.0, x.1.now)) result (clip_line_at bytes.now) }
{
    let Some((line, rest)) = take_front(bytes) else {
        return None;
    };
    Some((line, take_byte(rest, b'\n')?))
}

/// The line of a clip script in front, without its line feed, and what follows it.
#[tactic(auto, unfolding(crate::specs::ClipReaders::clip_front_at))]
fn take_front(bytes: &[u8]) -> Option<(ClipLine, &[u8])>
    ensures { Gives (λ x. (x.0, x.1.now)) result (clip_front_at bytes.now) }
{
    if let Some((call, rest)) = take_call(bytes) {
        return Some((ClipLine::Call(call), rest));
    }
    take_phase(bytes)
}

#[tactic(auto, unfolding(crate::specs::ClipReaders::clip_phase_at))]
fn take_phase(bytes: &[u8]) -> Option<(ClipLine, &[u8])>
    ensures { Gives (λ x. (x.0, x.1.now)) result (clip_phase_at bytes.now) }
{
    let rest = take_word(bytes, b"phase")?;
    Some((ClipLine::Phase, rest))
}

/// The call in front.
#[tactic(auto, unfolding(crate::specs::ClipReaders::clip_call_at))]
fn take_call(bytes: &[u8]) -> Option<(ClipCall, &[u8])>
    ensures { Gives (λ x. (x.0, x.1.now)) result (clip_call_at bytes.now) }
{
    if let Some(found) = take_copy(bytes) {
        return Some(found);
    }
    take_paste(bytes)
}

#[tactic(auto, unfolding(crate::specs::ClipReaders::copy_at))]
fn take_copy(bytes: &[u8]) -> Option<(ClipCall, &[u8])>
    ensures { Gives (λ x. (x.0, x.1.now)) result (copy_at bytes.now) }
{
    let rest = take_word(bytes, b"copy")?;
    let Some((text, rest)) = text_field(rest) else {
        return None;
    };
    Some((ClipCall::Copy(text), rest))
}

#[tactic(auto, unfolding(crate::specs::ClipReaders::paste_at))]
fn take_paste(bytes: &[u8]) -> Option<(ClipCall, &[u8])>
    ensures { Gives (λ x. (x.0, x.1.now)) result (paste_at bytes.now) }
{
    let rest = take_word(bytes, b"paste")?;
    Some((ClipCall::Paste, rest))
}
