//! What a room is opened with, for a configuration and its scripts.

ghost use Rattle.std.specs.Prelude.{◌≡◌, All, IfOk, length, map};
ghost use Rattle.nit_word.specs.Inks.{IsWord};
ghost use Rattle.nit_config.specs.ConfigurationRanges.{IsRunConfiguration};
ghost use Rattle.nit_hall.specs.Opening.{AreBlank, IsSetting};

use nit_config::Config;
use nit_pixels::{Canvas, Key, PixelBuffer};
use nit_plan::{Plan, plan_of};
use nit_rect::NoMemory;
use nit_script::Client;
use std::alloc::Global;

/// The plan of each client's script.
pub fn plans_of(alloc: Global, config: &Config, scripts: &[Client]) -> Result<Vec<Plan>, NoMemory>
    requires configured { IsRunConfiguration config.now }
    requires each { length scripts.now ≡ length config.now.clients }
    ensures setting { IfOk result (λ v. IsSetting config.now scripts.now v.items) }
    ensures each { IfOk result (λ v. length v.items ≡ length config.now.clients) }
    ensures words { IfOk result (λ v. All (λ p. All IsWord p.ink) v.items) }
{
    let clients = config.clients.as_slice();
    let mut plans = Vec::new(alloc);
    for (sid, script) in scripts.iter().enumerate() {
        plans.push(plan_of(alloc, script, clients[sid].donation)?)?;
    }
    Ok(plans)
}

/// A buffer for each client, in order, with a word for each place of its table, and its key.
pub fn buffers_of(
    alloc: Global,
    config: &Config,
    scripts: &[Client],
) -> Result<(Vec<PixelBuffer>, Vec<Key>), NoMemory>
    requires configured { IsRunConfiguration config.now }
    requires each { length scripts.now ≡ length config.now.clients }
    ensures own { IfOk result
        (λ made. map (λ key. key.stand.buffer) made.1.items ≡ made.0.items) }
    ensures blank { IfOk result (λ made. AreBlank config.now scripts.now made.1.items) }
{
    let clients = config.clients.as_slice();
    let mut buffers = Vec::new(alloc);
    let mut keys = Vec::new(alloc);
    for (sid, script) in scripts.iter().enumerate() {
        let donation = clients[sid].donation;
        let (buffer, key) = PixelBuffer::new(alloc, sid as u32, script, donation)?;
        buffers.push(buffer)?;
        keys.push(key)?;
    }
    Ok((buffers, keys))
}

/// The owner's end of each buffer.
pub fn canvases_of<'a>(
    alloc: Global,
    buffers: &'a [PixelBuffer],
    keys: Vec<Key>,
) -> Result<Vec<Canvas<'a>>, NoMemory>
    requires own { map (λ key. key.stand.buffer) keys.items ≡ buffers.now }
    ensures { IfOk result (λ canvases. canvases.items ≡ keys.items) }
{
    let mut canvases = Vec::new(alloc);
    let mut sid = 0usize;
    for key in keys {
        canvases.push(buffers[sid].canvas(key))?;
        sid += 1;
    }
    Ok(canvases)
}
