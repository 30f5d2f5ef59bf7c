//! The memory of a run whose clients are beside each other, all of which is taken before the first
//! thread.

ghost use Rattle.std.specs.Prelude.{IfOk, vec_len, ◌≡◌, map};
ghost use Rattle.nit_perform.specs.Terms.{AreBuffers, AreScriptsOf, IsMemory, IsRunConfiguration};

use crate::opening::{blank_frame, blank_text};
use nit_config::Config;
use nit_pixels::{Canvas, Key, PixelBuffer};
use nit_rect::NoMemory;
use nit_script::Client;
use std::alloc::Global;
use std::sync::atomic::AtomicBool;

/// What a run needs besides its opening: a flag for each client, which is raised where its thread
/// could not be started; the place where what such threads were to be given waits, with room for
/// all; and the room for a picture, as a frame and as the bytes of a file.
#[derive(Drop)]
pub struct Memory<T> {
    pub raised: Vec<AtomicBool>,
    pub waiting: Vec<T>,
    pub frame: Vec<u32>,
    pub text: Vec<u8>,
}

impl<T: Drop> Memory<T> {
    /// Takes what a run of this configuration needs besides its opening.
    pub fn new(alloc: Global, config: &Config) -> Result<Memory<T>, NoMemory>
        requires { IsRunConfiguration config.now }
        ensures { IfOk result (λ m. IsMemory config.now m) }
    {
        let clients = config.clients.len();
        Ok(Memory {
            raised: flags(alloc, clients)?,
            waiting: Vec::with_capacity(alloc, clients)?,
            frame: blank_frame(alloc, config)?,
            text: blank_text(alloc, config)?,
        })
    }
}

/// So many flags, none of which is raised. Tests with gates show the latter, and no clause does: an
/// atomic has no value in contracts.
pub fn flags(alloc: Global, count: usize) -> Result<Vec<AtomicBool>, NoMemory>
    ensures { IfOk result (λ v. vec_len v ≡ count) }
{
    let mut flags = Vec::new(alloc);
    for _i in 0..count {
        flags.push(AtomicBool::new(false))?;
    }
    Ok(flags)
}

/// A buffer for each client, in order, with a word for each place of its table, all 0, and its key.
pub fn buffers_of(
    alloc: Global,
    config: &Config,
    scripts: &[Client],
) -> Result<(Vec<PixelBuffer>, Vec<Key>), NoMemory>
    requires { AreScriptsOf config.now scripts.now }
    ensures { IfOk result
        (λ made. AreBuffers config.now scripts.now made.0.items made.1.items) }
{
    let clients = config.clients.as_slice();
    let mut buffers = Vec::new(alloc);
    let mut keys = Vec::new(alloc);
    for (sid, script) in scripts.iter().enumerate() {
        let donation = clients[sid].donation;
        let (buffer, key) = PixelBuffer::new(alloc, sid as u32, script, donation)?;
        buffers.push(buffer)?;
        keys.push(key)?;
    }
    Ok((buffers, keys))
}

/// The owner's end of each buffer.
pub fn canvases_of<'a>(
    alloc: Global,
    buffers: &'a [PixelBuffer],
    keys: Vec<Key>,
) -> Result<Vec<Canvas<'a>>, NoMemory>
    requires own { map (λ key. key.stand.buffer) keys.items ≡ buffers.now }
    ensures { IfOk result (λ canvases. canvases.items ≡ keys.items) }
{
    let mut canvases = Vec::new(alloc);
    let mut sid = 0usize;
    for key in keys {
        canvases.push(buffers[sid].canvas(key))?;
        sid += 1;
    }
    Ok(canvases)
}
