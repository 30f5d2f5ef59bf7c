//! A copy of a configuration.

ghost use Rattle.std.specs.Prelude.{◌≡◌, ◌-◌, ◌<◌, IfOk, All, IsTrue};
ghost use Rattle.nit_server.specs.Terms.{IsMember, is_file_name};

use nit_config::{Config, FileName, Member};
use nit_rect::NoMemory;
use std::alloc::Global;

/// A configuration of the same values, in memory of its own.
pub(crate) fn copied(alloc: Global, config: &Config) -> Result<Config, NoMemory>
    requires input { IsTrue (is_file_name config.now.input) }
    requires clients { All IsMember config.now.clients }
    ensures { IfOk result (λ c. c ≡ config.now) }
{
    let input = copied_name(alloc, &config.input)?;
    let clients = copied_clients(alloc, config.clients.as_slice())?;
    Ok(Config {
        width: config.width,
        height: config.height,
        bar: config.bar,
        input,
        clients,
    })
}

/// A list of equal clients in the same order, in memory of its own.
fn copied_clients(alloc: Global, clients: &[Member]) -> Result<Vec<Member>, NoMemory>
    requires { All IsMember clients.now }
    ensures { IfOk result (λ v. v.items ≡ clients.now) }
{
    let mut copies = Vec::new(alloc);
    for client in clients {
        copies.push(copied_client(alloc, client)?)?;
    }
    Ok(copies)
}

/// A client of the same values, in memory of its own.
fn copied_client(alloc: Global, client: &Member) -> Result<Member, NoMemory>
    requires { IsTrue (is_file_name client.now.script) }
    ensures { IfOk result (λ c. c ≡ client.now) }
{
    let script = copied_name(alloc, &client.script)?;
    Ok(Member {
        label: client.label,
        donation: client.donation,
        script,
        layer: client.layer,
        clicks: client.clicks,
    })
}

/// A file name of the same bytes, in memory of its own.
fn copied_name(alloc: Global, name: &FileName) -> Result<FileName, NoMemory>
    requires { IsTrue (is_file_name name.now) }
    ensures { IfOk result (λ n. n ≡ name.now) }
{
    FileName::new(alloc, name.as_str().as_bytes())
}
