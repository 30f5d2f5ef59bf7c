//! A server before its first entry.

ghost use Rattle.std.specs.Prelude.{◌≡◌, ◌+◌, ◌-◌, ◌<◌, ◌≤◌, IfOk, length, All, IsTrue, map, []};
ghost use Rattle.std.specs.Prelude.{if◌then◌else◌};
ghost use Rattle.nit_server.specs.Terms.{IsConfiguration, IsLettering, IsMember};
ghost use Rattle.nit_server.specs.Terms.{first_kept_session, first_stack, first_state, lettered};
ghost use Rattle.nit_server.specs.Terms.{most_sessions, most_slots, picture_height, slots_of_all};
ghost use Rattle.nit_server.specs.Terms.{state_of, view_slots};
ghost use Rattle.nit_events.specs.declared.entry.Entry.TheVariants as entry;

use crate::member::KeptSession;
use crate::server::Server;
use crate::server::copy::copied;
use crate::server::input::opened_focus;
use nit_config::Config;
use nit_glyph::{Lettering, text_size};
use nit_rect::NoMemory;
use nit_slots::{Slots, view_slots};
use nit_stack::Stack;
use std::alloc::Global;

impl Server {
    /// A server of this configuration with its texts drawn so, before its first entry. All memory
    /// that it will ever use is taken here.
    pub fn new(alloc: Global, config: &Config, lettering: Lettering) -> Result<Server, NoMemory>
        requires { IsConfiguration (lettered lettering config.now) }
        ensures { IfOk result (λ s. state_of s ≡ first_state (lettered lettering config.now)) }
    {
        let clients = config.clients.as_slice();
        let slots = Slots::new(alloc, slots_of_all(clients))?;
        let stack = opened_stack(alloc, config, lettering)?;
        let members = opened_members(alloc, clients)?;
        let focus = opened_focus(config);
        let config = copied(alloc, config)?;
        Ok(Server {
            config,
            lettering,
            stack,
            members,
            slots,
            focus,
        })
    }
}

/// The slots that all clients together may ever need.
pub(crate) fn slots_of_all(clients: &[nit_config::Member]) -> u32
    requires few { length clients.now ≤ most_sessions }
    requires clients { All IsMember clients.now }
    ensures sum { result ≡ slots_of_all clients.now }
    ensures most { result ≤ most_slots }
{
    let mut count = 0;
    for client in clients {
        count += view_slots(client.donation);
    }
    count
}

/// Each client's session as it opens.
fn opened_members(
    alloc: Global,
    clients: &[nit_config::Member],
) -> Result<Vec<KeptSession>, NoMemory>
    requires { All IsMember clients.now }
    ensures { IfOk result (λ v. v.items ≡ map first_kept_session clients.now) }
{
    let mut members = Vec::new(alloc);
    for client in clients {
        members.push(KeptSession::new(alloc, client.donation)?)?;
    }
    Ok(members)
}

/// A stack of no view on the configuration's screen, with a layer for each client.
fn opened_stack(alloc: Global, config: &Config, lettering: Lettering) -> Result<Stack, NoMemory>
    requires { IsConfiguration (lettered lettering config.now) }
    ensures { IfOk result (λ s. s ≡ first_stack (lettered lettering config.now)) }
{
    let clients = config.clients.as_slice();
    let most = slots_of_all(clients);
    let mut stack = Stack::new(
        alloc,
        config.width,
        config.height,
        clients.len() as u32,
        most,
    )?;
    set_layers(&mut stack, clients);
    stack.set_bar(bar_rows(config.bar, lettering));
    Ok(stack)
}

/// Gives each client's session its layer.
fn set_layers(stack: &mut Stack, clients: &[nit_config::Member])
    requires few { length clients.now ≤ most_sessions }
    requires empty { stack.old.views ≡ [] }
    requires sizes { length stack.old.sizes ≡ length clients.now }
    requires layers { length stack.old.layers ≡ length clients.now }
    requires clients { All IsMember clients.now }
    ensures { stack.new ≡ record stack.old { layers = map (λ m. m.layer) clients.now } }
{
    for (sid, client) in clients.iter().enumerate() {
        stack.set_layer(sid as u32, client.layer);
    }
}

/// The rows of the status bar, where there is to be one.
fn bar_rows(bar: bool, lettering: Lettering) -> u32
    requires { IsLettering lettering }
    ensures { result ≡ if bar then picture_height lettering else 0 }
{
    if !bar {
        return 0;
    }
    let (_, rows) = text_size(lettering, 1);
    rows
}
