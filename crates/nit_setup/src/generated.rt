//! The scripts of a generated run, read from the bytes of its files.

ghost use Rattle.std.specs.Prelude.{◌≡◌, ◌<◌, map, ℕ, IfOk};
ghost use Rattle.nit_setup.specs.Terms.{ReadsClient, ReadsInput, client_script, client_text};
ghost use Rattle.nit_setup.specs.Terms.{generated, range_with_len, user_script};

use nit_rect::NoMemory;
use nit_report::{Files, generated_client_counts, generated_user_counts};
use nit_run::Scripts;
use nit_script::{
    Client, Input, InputLine, Line, ScriptError, first_bad_is_one, parse_client, parse_input,
    reading_is_one, reading_is_whole,
};
use std::alloc::Global;

/// How many clients a generated run has.
const CLIENTS: u32 = 8;

/// The scripts of the generated run of this number, read from the bytes of its files.
pub fn read_files(alloc: Global, number: u32, files: &Files) -> Result<Scripts, NoMemory>
    requires files { files.now ≡ generated number }
    requires clients { (c : ℕ) → c < 8
        → ReadsClient (client_text number c) (client_script number c) }
    requires input { ReadsInput files.now.input (user_script number) }
    ensures clients { IfOk result (λ s.
        s.clients.items ≡ map (client_script number) (range_with_len 0 8)) }
    ensures input { IfOk result (λ s. s.input ≡ user_script number) }
{
    let clients = read_clients(alloc, number, &files.clients)?;
    let input = read_input(alloc, number, &files.input)?;
    Ok(Scripts { clients, input })
}

/// The scripts of the clients, read from these bytes.
fn read_clients(alloc: Global, number: u32, texts: &[Vec<u8>]) -> Result<Vec<Client>, NoMemory>
    requires texts { map (λ v. v.items) texts.now ≡ map (client_text number) (range_with_len 0 8) }
    requires reads { (c : ℕ) → c < 8 → ReadsClient (client_text number c) (client_script number c) }
    ensures { IfOk result (λ v. v.items ≡ map (client_script number) (range_with_len 0 8)) }
{
    let mut scripts = Vec::new(alloc);
    'clients: for client in 0..CLIENTS {
        scripts.push(read_client(alloc, number, client, &texts[client as usize])?)?;
    }
    Ok(scripts)
}

/// The script of one client, read from these bytes.
fn read_client(alloc: Global, number: u32, client: u32, bytes: &[u8]) -> Result<Client, NoMemory>
    requires { ReadsClient bytes.now (client_script number client) }
    ensures { IfOk result (λ script. script ≡ client_script number client) }
{
    generated_client_counts();
    reading_is_one::<Line>();
    reading_is_whole::<Line>();
    first_bad_is_one::<Line>();
    match parse_client(alloc, bytes) {
        Ok(script) => Ok(script),
        Err(ScriptError::NoMemory) => Err(NoMemory),
        Err(_) => unreachable!(),
    }
}

/// The input script, read from these bytes.
fn read_input(alloc: Global, number: u32, bytes: &[u8]) -> Result<Input, NoMemory>
    requires { ReadsInput bytes.now (user_script number) }
    ensures { IfOk result (λ script. script ≡ user_script number) }
{
    generated_user_counts();
    reading_is_one::<InputLine>();
    reading_is_whole::<InputLine>();
    first_bad_is_one::<InputLine>();
    match parse_input(alloc, bytes) {
        Ok(script) => Ok(script),
        Err(ScriptError::NoMemory) => Err(NoMemory),
        Err(_) => unreachable!(),
    }
}
