//! Reading the scripts of a configuration.

ghost use Rattle.std.specs.Prelude.{true, All, Bool, IfOk, map, ◌≡◌};
ghost use Rattle.nit_setup.specs.Terms.{IsRunConfiguration, IsRunMember, IsRunnable, LoadedAll};
ghost use Rattle.nit_setup.specs.Terms.{ReadScripts, phases, setup_of, wanted_by};

use crate::load::{load_client, load_input};
use crate::stop::{End, Stop, at};
use nit_config::{Config, Member};
use nit_run::Scripts;
use nit_script::{Client, phases};
use nit_store::Store;
use std::alloc::Global;

/// Reads the scripts of a configuration, and judges each as it is read.
pub fn read_scripts<S: Store>(
    alloc: Global,
    store: &mut S,
    config: &Config,
) -> Result<Scripts, Stop>
    requires { IsRunConfiguration config.now }
    ensures read { ReadScripts config.now (S.shown store.old) (S.shown store.new) result }
    ensures runnable { IfOk result (λ s. (beside : Bool)
        → IsRunnable (setup_of config.now s.clients.items s.input true beside)) }
{
    let clients = match load_scripts(alloc, store, &config.clients) {
        Ok(clients) => clients,
        Err(stop) => return Err(stop),
    };
    let name = config.input.as_str();
    match load_input(alloc, store, name, wanted_by(&clients)) {
        Ok(input) => Ok(Scripts { clients, input }),
        Err(end) => Err(at(end, name)),
    }
}

// ---- the scripts of all clients

/// Reads the scripts of these clients in order, and judges each as it is read.
pub fn load_scripts<S: Store>(
    alloc: Global,
    store: &mut S,
    clients: &[Member],
) -> Result<Vec<Client>, Stop>
    requires { All IsRunMember clients.now }
    ensures { LoadedAll (S.shown store.old) (map (λ m. m.script) clients.now)
        (S.shown store.new) result }
{
    let mut scripts = Vec::new(alloc);
    for client in clients {
        let name = client.script.as_str();
        let script = match load_client(alloc, store, name, wanted_by(&scripts)) {
            Ok(script) => script,
            Err(end) => return Err(at(end, name)),
        };
        if scripts.reserve(1).is_err() {
            return Err(at(End::NoMemory, name));
        }
        scripts.push_reserved(script);
    }
    Ok(scripts)
}

/// How many phases the scripts behind these are to have: as many as the first.
pub fn wanted_by(scripts: &[Client]) -> Option<usize>
    ensures { result ≡ wanted_by scripts.now }
{
    let first = scripts.first()?;
    Some(phases(first.lines()))
}
