//! The configuration of a generated run, as a value and as a text.

ghost use Rattle.std.specs.Prelude.{◌≡◌, ◌+◌, ◌≤◌, [], ◌∷◌, ◌++◌, IsTrue, IfOk, OnOk};
ghost use Rattle.nit_report.specs.Terms.{IsRunConfiguration, client_block, client_label};
ghost use Rattle.nit_report.specs.Terms.{config_text, decimal, generated_configuration};
ghost use Rattle.nit_report.specs.Terms.{generated_member, is_label, script_name};

use crate::spelling::put_text;
use nit_config::{Config, FileName, Member};
use nit_glyph::Label;
use nit_rect::NoMemory;
use std::alloc::Global;

/// How many clients there are.
pub const CLIENTS: u32 = 8;

/// What each client donates, in units.
const DONATION: u32 = 262_144;

/// The configuration of every generated run. It can be refused for want of memory alone.
#[tactic(auto, unfolding(crate::specs::Generator::generated_configuration))]
pub fn gen_config(alloc: Global) -> Result<Config, NoMemory>
    ensures config { IfOk result (λ config. config ≡ generated_configuration) }
    ensures configured { IfOk result (λ config. IsRunConfiguration config) }
{
    let mut clients = Vec::with_capacity(alloc, CLIENTS as usize)?;
    for client in 0..CLIENTS {
        clients.push(member(alloc, client)?)?;
    }
    Ok(Config {
        width: 320,
        height: 240,
        bar: false,
        input: FileName::new(alloc, b"gen.in")?,
        clients,
    })
}

fn member(alloc: Global, client: u32) -> Result<Member, NoMemory>
    requires { client ≤ 7 }
    ensures { IfOk result (λ m. m ≡ generated_member client) }
{
    Ok(Member {
        label: label(client),
        donation: DONATION,
        script: FileName::new(alloc, &script_name(client))?,
        layer: 0,
        clicks: true,
    })
}

/// The label of a client.
fn label(client: u32) -> Label
    requires { client ≤ 7 }
    ensures { result ≡ client_label client }
{
    Label::of(&label_text(client))
}

fn label_text(client: u32) -> [u8; 2]
    requires { client ≤ 7 }
    ensures text { result ≡ client_label client }
    ensures label { IsTrue (is_label result) }
{
    [b'g', digit(client)]
}

/// The name of the script of a client of a generated run, 0..=7: `g0.nit` and so on.
pub fn script_name(client: u32) -> [u8; 6]
    requires { client ≤ 7 }
    ensures { result ≡ script_name client }
{
    [b'g', digit(client), b'.', b'n', b'i', b't']
}

#[tactic(auto, using(std::proofs::lemmas::Fmt::decimal_digit))]
fn digit(client: u32) -> u8
    requires { client ≤ 7 }
    ensures value { result ≡ 48 + client }
    ensures spelled { decimal client ≡ result ∷ [] }
{
    b'0' + client as u8
}

/// The text of the configuration.
#[tactic(auto, unfolding(crate::specs::Generator::config_text))]
pub fn config_text(alloc: Global) -> Result<Vec<u8>, NoMemory>
    ensures { IfOk result (λ v. v.items ≡ config_text) }
{
    let mut out = Vec::new(alloc);
    put_text(
        &mut out,
        b"[screen]\nwidth = 320\nheight = 240\n\n[input]\nscript = \"gen.in\"\n",
    )?;
    for client in 0..CLIENTS {
        put_block(&mut out, client)?;
    }
    Ok(out)
}

/// Writes a client, after an empty line.
fn put_block(out: &mut Vec<u8>, client: u32) -> Result<(), NoMemory>
    requires { client ≤ 7 }
    ensures { OnOk result (out.new.items ≡ out.old.items ++ client_block client) }
{
    put_text(out, b"\n[[client]]\nlabel = \"")?;
    put_text(out, &label_text(client))?;
    put_text(out, b"\"\ndonation = 262144\nscript = \"")?;
    put_text(out, &script_name(client))?;
    put_text(out, b"\"\n")?;
    Ok(())
}
