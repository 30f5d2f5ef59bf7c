//! Reading the scripts of a configuration whose first client is to show frames.

ghost use Rattle.std.specs.Prelude.{None, All, IfOk, map, ◌≡◌};
ghost use Rattle.nit_setup.specs.Terms.{AreLines, FileJudged, FitsLine, IsOuter, IsOuterFault};
ghost use Rattle.nit_setup.specs.Terms.{IsOuterScript, IsRunConfiguration, IsRunMember};
ghost use Rattle.nit_setup.specs.Terms.{OuterLoaded, ReadOuter, run_files, wrong_outer};

use crate::load::{load_client, load_input};
use crate::stop::{End, Fault, Stop, at};
use nit_config::{Config, Member};
use nit_nested::find_forbidden;
use nit_run::Scripts;
use nit_script::Client;
use nit_store::Store;
use std::alloc::Global;

/// Reads the scripts of a configuration whose first client is to show frames, and judges each as it
/// is read. The first client's is to hold no line that may not stand there. Phases are not
/// compared.
pub fn read_outer<S: Store>(alloc: Global, store: &mut S, config: &Config) -> Result<Scripts, Stop>
    requires { IsRunConfiguration config.now }
    ensures read { ReadOuter config.now (S.shown store.old) (S.shown store.new) result }
    ensures outer { IfOk result (λ s. IsOuter
        (run_files config.now s.clients.items s.input)) }
{
    let clients = match load_outer(alloc, store, &config.clients) {
        Ok(clients) => clients,
        Err(stop) => return Err(stop),
    };
    let name = config.input.as_str();
    match load_input(alloc, store, name, None) {
        Ok(input) => Ok(Scripts { clients, input }),
        Err(end) => Err(at(end, name)),
    }
}

/// Reads the scripts of these clients in order, and judges each as it is read.
fn load_outer<S: Store>(
    alloc: Global,
    store: &mut S,
    clients: &[Member],
) -> Result<Vec<Client>, Stop>
    requires { All IsRunMember clients.now }
    ensures { OuterLoaded (S.shown store.old) (map (λ m. m.script) clients.now)
        (S.shown store.new) result }
{
    let mut scripts = Vec::new(alloc);
    for client in clients {
        let name = client.script.as_str();
        let script = match load_outer_client(alloc, store, name, &scripts) {
            Ok(script) => script,
            Err(end) => return Err(at(end, name)),
        };
        if scripts.reserve(1).is_err() {
            return Err(at(End::NoMemory, name));
        }
        scripts.push_reserved(script);
    }
    Ok(scripts)
}

/// Reads the script of the client behind these, and judges it.
fn load_outer_client<S: Store>(
    alloc: Global,
    store: &mut S,
    name: &str,
    before: &[Client],
) -> Result<Client, End>
    ensures loaded { FileJudged (IsOuterScript before.now) (IsOuterFault before.now)
        (S.shown store.old) name.now (S.shown store.new) result }
    ensures lines { IfOk result (AreLines FitsLine) }
    ensures right { IfOk result (λ lines. wrong_outer before.now lines ≡ None) }
{
    let script = match load_client(alloc, store, name, None) {
        Ok(script) => script,
        Err(end) => return Err(end),
    };
    match wrong_outer(before, &script) {
        Some(fault) => Err(End::Refused(fault)),
        None => Ok(script),
    }
}

/// What is wrong with the script of the client behind these: the first line that may not stand in
/// the first client's.
fn wrong_outer(before: &[Client], script: &Client) -> Option<Fault>
    ensures { result ≡ wrong_outer before.now script.now }
{
    match before {
        [] => {
            let line = find_forbidden(script.lines())?;
            Some(Fault::BadLine(line))
        }
        [_, ..] => None,
    }
}
