//! A configuration, made of a table that no refusal applies to.

ghost use Rattle.std.specs.Prelude.{◌≡◌, ◌≤◌, ℕ, length, Some, None, [], false, pos, map, codes};
ghost use Rattle.nit_config.specs.Terms.{AllZip, HoldsClient, HoldsTable, IfOk, first_refusal};
ghost use Rattle.nit_config.specs.Terms.{get_member, has_bad_label, has_bad_script, has_bad_value};
ghost use Rattle.nit_config.specs.Terms.{integer, integer_at, is_outside, list_any, members_of};
ghost use Rattle.nit_config.specs.Terms.{most_run_units, no_members, string, string_at, table_view};
ghost use Rattle.nit_config.specs.Terms.{view};

use crate::config::{Config, Member};
use crate::name::FileName;
use crate::tree::{boolean_at, elements_of, integer_at, string_at, table_at, table_of};
use nit_glyph::Label;
use nit_rect::NoMemory;
use std::alloc::Global;
use toml::{Table, Value};

/// The integer at a key, or another. It is in the widest of the ranges, 0 to 8,388,608.
fn number_at(table: &Table, key: &str, other: u32) -> u32
    requires { is_outside (pos 0) (pos most_run_units)
        (integer_at key.now (pos other) (table_view table.now))
        ≡ false }
    ensures { pos result ≡ integer_at key.now (pos other) (table_view table.now) }
{
    integer_at(table, key, i64::from(other)) as u32
}

/// The integer at a key that is not 0, and so is there.
fn required_at(table: &Table, key: &str) -> u32
    requires { is_outside (pos 1) (pos most_run_units)
        (integer_at key.now (pos 0) (table_view table.now))
        ≡ false }
    ensures { get_member key.now (table_view table.now) ≡ Some (integer (pos result)) }
{
    number_at(table, key, 0)
}

/// The string at a key that is not empty, and so is there.
fn text_at<'a>(table: &'a Table, key: &str) -> &'a str
    requires { 1 ≤ length (string_at key.now [] (table_view table.now)) }
    ensures there { get_member key.now (table_view table.now) ≡ Some (string result.now) }
    ensures same { result.now ≡ string_at key.now [] (table_view table.now) }
{
    string_at(table, key, "")
}

fn script_of(alloc: Global, table: &Table) -> Result<FileName, NoMemory>
    requires { has_bad_script (table_view table.now) ≡ false }
    ensures { IfOk result
        (λ name. get_member (codes "script") (table_view table.now) ≡ Some (string name)) }
{
    FileName::new(alloc, text_at(table, "script").as_bytes())
}

fn label_in(client: &Table) -> Label
    requires { has_bad_label (table_view client.now) ≡ false }
    ensures { get_member (codes "label") (table_view client.now) ≡ Some (string result) }
{
    Label::of(text_at(client, "label").as_bytes())
}

#[tactic(auto, unfolding(crate::specs::Ranges::has_bad_value))]
fn member(alloc: Global, client: &Table) -> Result<Member, NoMemory>
    requires value { has_bad_value (table_view client.now) ≡ false }
    requires label { has_bad_label (table_view client.now) ≡ false }
    ensures { IfOk result (λ m. HoldsClient (table_view client.now) m) }
{
    let donation = required_at(client, "donation");
    let layer = number_at(client, "layer", 0);
    let script = script_of(alloc, client)?;
    Ok(Member {
        label: label_in(client),
        donation,
        script,
        layer,
        clicks: string_at(client, "focus", "click") == "click",
    })
}

fn members(alloc: Global, clients: &[Value], empty: &Table) -> Result<Vec<Member>, NoMemory>
    requires empty { table_view empty.now ≡ no_members }
    requires values { list_any (λ v. has_bad_value (members_of (view v))) clients.now ≡ false }
    requires labels { list_any (λ v. has_bad_label (members_of (view v))) clients.now ≡ false }
    ensures { IfOk result
        (λ ms. AllZip HoldsClient (map (λ v. members_of (view v)) clients.now) ms.items) }
{
    let mut members = Vec::new(alloc);
    'clients: for i in 0..clients.len() {
        let client = table_of(&clients[i], empty);
        members.push(member(alloc, client)?)?;
    }
    Ok(members)
}

/// The configuration of a table.
pub(crate) fn configuration(alloc: Global, top: &Table, empty: &Table) -> Result<Config, NoMemory>
    requires empty { table_view empty.now ≡ no_members }
    requires accepted { first_refusal (table_view top.now) ≡ None }
    ensures { IfOk result (λ config. HoldsTable (table_view top.now) config) }
{
    let screen = table_at(top, "screen", empty);
    let width = required_at(screen, "width");
    let height = required_at(screen, "height");
    let bar = boolean_at(screen, "bar", false);
    let input = script_of(alloc, table_at(top, "input", empty))?;
    let clients = members(alloc, elements_of(top), empty)?;
    Ok(Config {
        width,
        height,
        bar,
        input,
        clients,
    })
}
