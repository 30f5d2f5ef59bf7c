//! The refusals of a table, in their order over the whole file.

ghost use Rattle.std.specs.Prelude.{◌≡◌, length, map, bytes_eq};
ghost use Rattle.nit_config.specs.Terms.{client_rows, client_tables, elements_of, first_refusal};
ghost use Rattle.nit_config.specs.Terms.{has_bad_label, has_bad_range, has_bad_value, has_fault};
ghost use Rattle.nit_config.specs.Terms.{has_label_twice, is_somewhere, label_of_table, list_any};
ghost use Rattle.nit_config.specs.Terms.{members_of, no_members, place_rows, stands_twice};
ghost use Rattle.nit_config.specs.Terms.{table_view, view};

use crate::error::ConfigError;
use crate::keys::{TablePlace, has_other_kind, has_unknown_key, lacks_key};
use crate::ranges::{has_bad_label, has_bad_script, has_bad_size, has_bad_value, label_of};
use crate::tree::{elements_of, table_at, table_of};
use nit_rect::MOST_RUN_SESSIONS;
use toml::{Table, Value};

/// What a table may have wrong by its keys.
#[derive(Clone, Copy)]
pub(crate) enum KeyFault {
    OtherKind,
    Lacking,
    Unknown,
}

fn has_fault(fault: KeyFault, place: TablePlace, table: &Table) -> bool
    ensures { result ≡ has_fault fault (place_rows place) (table_view table.now) }
{
    match fault {
        KeyFault::OtherKind => has_other_kind(place, table),
        KeyFault::Lacking => lacks_key(place, table),
        KeyFault::Unknown => has_unknown_key(place, table),
    }
}

fn some_has_fault(fault: KeyFault, clients: &[Value], empty: &Table) -> bool
    requires { table_view empty.now ≡ no_members }
    ensures { result
        ≡ list_any (λ v. has_fault fault client_rows (members_of (view v))) clients.now }
{
    clients.iter().any(|client| has_fault(fault, TablePlace::Client, table_of(client, empty)))
}

fn some_has_bad_value(clients: &[Value], empty: &Table) -> bool
    requires { table_view empty.now ≡ no_members }
    ensures { result ≡ list_any (λ v. has_bad_value (members_of (view v))) clients.now }
{
    clients
        .iter()
        .any(|client| has_bad_value(table_of(client, empty)))
}

fn some_has_bad_label(clients: &[Value], empty: &Table) -> bool
    requires { table_view empty.now ≡ no_members }
    ensures { result ≡ list_any (λ v. has_bad_label (members_of (view v))) clients.now }
{
    clients
        .iter()
        .any(|client| has_bad_label(table_of(client, empty)))
}

fn some_has_label_of(first: &Value, clients: &[Value], empty: &Table) -> bool
    requires { table_view empty.now ≡ no_members }
    ensures { result ≡ list_any (λ v. bytes_eq (label_of_table (members_of (view first.now)))
        (label_of_table (members_of (view v)))) clients.now }
{
    let label = label_of(table_of(first, empty));
    clients
        .iter()
        .any(|client| label == label_of(table_of(client, empty)))
}

fn stands_twice(clients: &[Value], empty: &Table) -> bool
    requires { table_view empty.now ≡ no_members }
    ensures { result ≡ stands_twice (map (λ v. label_of_table (members_of (view v))) clients.now) }
{
    'clients: for i in 0..clients.len() {
        if some_has_label_of(&clients[i], &clients[i + 1..], empty) {
            return true;
        }
    }
    false
}

fn count(top: &Table) -> usize
    ensures { result ≡ length (elements_of (table_view top.now)) }
{
    elements_of(top).len()
}

fn client_has_fault(fault: KeyFault, top: &Table, empty: &Table) -> bool
    requires { table_view empty.now ≡ no_members }
    ensures { result ≡ list_any (has_fault fault client_rows) (client_tables (table_view top.now)) }
{
    some_has_fault(fault, elements_of(top), empty)
}

fn client_has_bad_value(top: &Table, empty: &Table) -> bool
    requires { table_view empty.now ≡ no_members }
    ensures { result ≡ list_any has_bad_value (client_tables (table_view top.now)) }
{
    some_has_bad_value(elements_of(top), empty)
}

fn client_has_bad_label(top: &Table, empty: &Table) -> bool
    requires { table_view empty.now ≡ no_members }
    ensures { result ≡ list_any has_bad_label (client_tables (table_view top.now)) }
{
    some_has_bad_label(elements_of(top), empty)
}

fn has_label_twice(top: &Table, empty: &Table) -> bool
    requires { table_view empty.now ≡ no_members }
    ensures { result ≡ has_label_twice (table_view top.now) }
{
    stands_twice(elements_of(top), empty)
}

#[tactic(auto, unfolding(crate::specs::Refusals::is_somewhere))]
fn is_somewhere(fault: KeyFault, top: &Table, empty: &Table) -> bool
    requires { table_view empty.now ≡ no_members }
    ensures { result ≡ is_somewhere fault (table_view top.now) }
{
    has_fault(fault, TablePlace::Top, top)
        || has_fault(fault, TablePlace::Screen, table_at(top, "screen", empty))
        || has_fault(fault, TablePlace::Input, table_at(top, "input", empty))
        || client_has_fault(fault, top, empty)
}

#[tactic(auto, unfolding(crate::specs::Refusals::has_bad_range))]
fn has_bad_range(top: &Table, empty: &Table) -> bool
    requires { table_view empty.now ≡ no_members }
    ensures { result ≡ has_bad_range (table_view top.now) }
{
    has_bad_size(table_at(top, "screen", empty))
        || has_bad_script(table_at(top, "input", empty))
        || client_has_bad_value(top, empty)
}

/// The first refusal that applies to a table, or none.
#[tactic(auto, unfolding(crate::specs::Refusals::first_refusal))]
pub(crate) fn refusal(top: &Table, empty: &Table) -> Option<ConfigError>
    requires { table_view empty.now ≡ no_members }
    ensures { result ≡ first_refusal (table_view top.now) }
{
    if is_somewhere(KeyFault::OtherKind, top, empty) {
        return Some(ConfigError::Kind);
    }
    if is_somewhere(KeyFault::Lacking, top, empty) {
        return Some(ConfigError::Missing);
    }
    if count(top) < 1 {
        return Some(ConfigError::Missing);
    }
    if is_somewhere(KeyFault::Unknown, top, empty) {
        return Some(ConfigError::Unknown);
    }
    if MOST_RUN_SESSIONS < count(top) {
        return Some(ConfigError::TooMany);
    }
    if has_bad_range(top, empty) {
        return Some(ConfigError::Range);
    }
    if client_has_bad_label(top, empty) {
        return Some(ConfigError::Label);
    }
    if has_label_twice(top, empty) {
        return Some(ConfigError::Twice);
    }
    None
}
