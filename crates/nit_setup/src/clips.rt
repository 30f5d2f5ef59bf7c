//! Reading clip scripts, and judging them.

ghost use Rattle.std.specs.Prelude.{map, ◌≡◌, ◌≤◌, length, All, None, IfOk, string_bytes};
ghost use Rattle.nit_setup.specs.Terms.{FileJudged, IsClipFault, IsClipScript, IsNameOf};
ghost use Rattle.nit_setup.specs.Terms.{IsRunMember, LoadedClips, clip_name, most_file_name};
ghost use Rattle.nit_setup.specs.Terms.{wrong_clip};

use crate::load::load_lines;
use crate::stop::{End, ScriptName, Stop, StopName};
use nit_clip::ClipScript;
use nit_config::Member;
use nit_rect::NoMemory;
use nit_store::Store;
use std::alloc::Global;

/// Reads the clip scripts of these clients in order, and judges each as it is read: it is to have
/// so many phases, where a number is given.
pub fn load_clips<S: Store>(
    alloc: Global,
    store: &mut S,
    clients: &[Member],
    wanted: Option<usize>,
) -> Result<Vec<ClipScript>, Stop>
    requires { All IsRunMember clients.now }
    ensures { LoadedClips wanted (S.shown store.old) (map (λ m. m.script) clients.now)
        (S.shown store.new) result }
{
    let mut clips = Vec::new(alloc);
    for client in clients {
        let script = client.script.as_str();
        let clip = match load_clip(alloc, store, script, wanted) {
            Ok(clip) => clip,
            Err(end) => return Err(at_clips_of(end, script)),
        };
        if clips.reserve(1).is_err() {
            return Err(at_clips_of(End::NoMemory, script));
        }
        clips.push_reserved(clip);
    }
    Ok(clips)
}

/// Reads the clip script of the client with the script of this name, and judges it: it is to have
/// so many phases, where a number is given.
fn load_clip<S: Store>(
    alloc: Global,
    store: &mut S,
    script: &str,
    wanted: Option<usize>,
) -> Result<ClipScript, End>
    ensures loaded { FileJudged (IsClipScript wanted) (IsClipFault wanted) (S.shown store.old)
        (clip_name script.now) (S.shown store.new) result }
    ensures right { IfOk result (λ lines. wrong_clip wanted lines ≡ None) }
{
    let Ok(name) = clip_name(alloc, script) else {
        return Err(End::NoMemory);
    };
    match load_lines(alloc, store, name.as_str(), wanted) {
        Ok(lines) => Ok(ClipScript { lines }),
        Err(end) => Err(end),
    }
}

/// The work ended at the clip script of the client with the script of this name.
fn at_clips_of(end: End, script: &str) -> Stop
    requires { length script.now ≤ most_file_name }
    ensures { (result.end ≡ end) × IsNameOf result.name (clip_name script.now) }
{
    Stop {
        end,
        name: StopName::ClipsOf(ScriptName::new(script)),
    }
}

/// The name of the clip script of the client with the script of this name.
fn clip_name(alloc: Global, script: &str) -> Result<String, NoMemory>
    ensures { IfOk result (λ name. string_bytes name ≡ clip_name script.now) }
{
    let mut name = String::from_str(alloc, script)?;
    name.push_str(".clip")?;
    Ok(name)
}
