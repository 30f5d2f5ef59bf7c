//! The files of a generated run.

ghost use Rattle.std.specs.Prelude.{◌≡◌, ◌≤◌, map, IfOk};
ghost use Rattle.nit_report.specs.Terms.{AllZip, ReadsClient, ReadsInput, client_script};
ghost use Rattle.nit_report.specs.Terms.{client_text, generated, range_with_len, user_script};
ghost use Rattle.nit_report.specs.Terms.{user_text};

use crate::generated_client::client_script;
use crate::generated_config::{CLIENTS, config_text};
use crate::generated_user::user_script;
use nit_rect::NoMemory;
use nit_script::{print_client, print_input};
use std::alloc::Global;
use std::marker::Model;

/// The files of a generated run, seen as lists of bytes.
#[derive(Drop)]
pub struct Files {
    /// The configuration.
    pub config: Vec<u8>,
    /// The scripts of the clients, in order.
    pub clients: Vec<Vec<u8>>,
    /// The user's script.
    pub input: Vec<u8>,
}

impl Model for Files {
    ghost use Rattle.std.specs.Prelude.{map};
    ghost use Rattle.nit_report.specs.Files.{FilesModel};

    ghost Value = { FilesModel };

    ghost view = { λ f. record {
      config = f.config.items;
      clients = map (λ v. v.items) f.clients.items;
      input = f.input.items;
    } };
}

/// The files of the generated run of number n. It can be refused for want of memory alone.
pub fn generate(alloc: Global, n: u32) -> Result<Files, NoMemory>
    // Each file byte for byte.
    ensures files { IfOk result (λ f. f ≡ generated n) }

    // Each script spells its lines.
    ensures reads { IfOk result (λ f.
        AllZip ReadsClient f.clients (map (client_script n) (range_with_len 0 8))) }
    ensures user_reads { IfOk result (λ f. ReadsInput f.input (user_script n)) }
{
    let config = config_text(alloc)?;
    let clients = client_texts(alloc, n)?;
    let input = user_text(alloc, n)?;
    Ok(Files {
        config,
        clients,
        input,
    })
}

fn client_texts(alloc: Global, n: u32) -> Result<Vec<Vec<u8>>, NoMemory>
    ensures { IfOk result (λ vs.
        map (λ v. v.items) vs.items ≡ map (client_text n) (range_with_len 0 8)) }
{
    let mut texts = Vec::with_capacity(alloc, CLIENTS as usize)?;
    for client in 0..CLIENTS {
        texts.push(client_text(alloc, n, client)?)?;
    }
    Ok(texts)
}

fn client_text(alloc: Global, n: u32, client: u32) -> Result<Vec<u8>, NoMemory>
    requires { client ≤ 7 }
    ensures { IfOk result (λ v. v.items ≡ client_text n client) }
{
    let script = client_script(alloc, n, client)?;
    print_client(alloc, &script)
}

fn user_text(alloc: Global, n: u32) -> Result<Vec<u8>, NoMemory>
    ensures { IfOk result (λ v. v.items ≡ user_text n) }
{
    let script = user_script(alloc, n)?;
    print_input(alloc, &script)
}
