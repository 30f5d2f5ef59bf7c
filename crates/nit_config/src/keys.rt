//! The keys of a configuration, and what a table may have wrong by them.

ghost use Rattle.std.specs.Prelude.{◌≡◌, is_some, not, bytes_eq, string_bytes};
ghost use Rattle.nit_config.specs.Terms.{as_table, has_other_kind, has_unknown_key, is_known_key};
ghost use Rattle.nit_config.specs.Terms.{is_lacking, is_of_kind, is_of_other_kind, keys, lacks_key};
ghost use Rattle.nit_config.specs.Terms.{list_all, list_any, place_rows, row_of, rows_of};
ghost use Rattle.nit_config.specs.Terms.{table_view, view};

use crate::tree::find;
use toml::{Table, Value};

/// What a value has to be.
#[derive(Clone, Copy)]
pub(crate) enum Kind {
    Integer,
    Boolean,
    Text,
    Table,
    /// An array of tables.
    Tables,
}

/// A key, what its value has to be, and whether it has to be there.
pub(crate) struct TableKey {
    name: &'static str,
    kind: Kind,
    is_required: bool,
}

const TOP: [TableKey; 3] = [
    TableKey {
        name: "screen",
        kind: Kind::Table,
        is_required: true,
    },
    TableKey {
        name: "input",
        kind: Kind::Table,
        is_required: true,
    },
    TableKey {
        name: "client",
        kind: Kind::Tables,
        is_required: true,
    },
];

const SCREEN: [TableKey; 3] = [
    TableKey {
        name: "width",
        kind: Kind::Integer,
        is_required: true,
    },
    TableKey {
        name: "height",
        kind: Kind::Integer,
        is_required: true,
    },
    TableKey {
        name: "bar",
        kind: Kind::Boolean,
        is_required: false,
    },
];

const INPUT: [TableKey; 1] = [TableKey {
    name: "script",
    kind: Kind::Text,
    is_required: true,
}];

const CLIENT: [TableKey; 5] = [
    TableKey {
        name: "label",
        kind: Kind::Text,
        is_required: true,
    },
    TableKey {
        name: "donation",
        kind: Kind::Integer,
        is_required: true,
    },
    TableKey {
        name: "script",
        kind: Kind::Text,
        is_required: true,
    },
    TableKey {
        name: "layer",
        kind: Kind::Integer,
        is_required: false,
    },
    TableKey {
        name: "focus",
        kind: Kind::Text,
        is_required: false,
    },
];

/// A place of a configuration that has keys.
#[derive(Clone, Copy)]
pub(crate) enum TablePlace {
    Top,
    Screen,
    Input,
    Client,
}

impl TablePlace {
    /// The keys that this place may have.
    fn keys(self) -> &'static [TableKey]
        ensures { rows_of result.now ≡ place_rows self }
    {
        match self {
            TablePlace::Top => &TOP,
            TablePlace::Screen => &SCREEN,
            TablePlace::Input => &INPUT,
            TablePlace::Client => &CLIENT,
        }
    }
}

#[tactic(auto, using(crate::proofs::Elements::all_tables))]
fn is_of_kind(kind: Kind, value: &Value) -> bool
    ensures { result ≡ is_of_kind kind (view value.now) }
{
    match kind {
        Kind::Integer => value.is_integer(),
        Kind::Boolean => value.is_bool(),
        Kind::Text => value.is_str(),
        Kind::Table => value.is_table(),
        Kind::Tables => match value.as_array() {
            Some(values) => are_tables(values.as_slice()),
            None => false,
        },
    }
}

fn are_tables(values: &[Value]) -> bool
    ensures { result ≡ list_all (λ v. is_some (as_table (view v))) values.now }
{
    values.iter().all(|value| value.is_table())
}

fn is_of_other_kind(key: &TableKey, table: &Table) -> bool
    ensures { result ≡ is_of_other_kind (row_of key.now) (table_view table.now) }
{
    match find(table, key.name) {
        Some(value) => !is_of_kind(key.kind, value),
        None => false,
    }
}

fn some_has_other_kind(keys: &[TableKey], table: &Table) -> bool
    ensures { result ≡ list_any (λ k. is_of_other_kind (row_of k) (table_view table.now)) keys.now }
{
    keys.iter().any(|key| is_of_other_kind(key, table))
}

/// Whether a key of the place is there and its value is of another kind.
pub(crate) fn has_other_kind(place: TablePlace, table: &Table) -> bool
    ensures { result ≡ has_other_kind (place_rows place) (table_view table.now) }
{
    some_has_other_kind(place.keys(), table)
}

fn is_lacking(key: &TableKey, table: &Table) -> bool
    ensures { result ≡ is_lacking (row_of key.now) (table_view table.now) }
{
    key.is_required && find(table, key.name).is_none()
}

fn some_is_lacking(keys: &[TableKey], table: &Table) -> bool
    ensures { result ≡ list_any (λ k. is_lacking (row_of k) (table_view table.now)) keys.now }
{
    keys.iter().any(|key| is_lacking(key, table))
}

/// Whether a required key of the place is not there.
pub(crate) fn lacks_key(place: TablePlace, table: &Table) -> bool
    ensures { result ≡ lacks_key (place_rows place) (table_view table.now) }
{
    some_is_lacking(place.keys(), table)
}

fn some_has_name(keys: &[TableKey], name: &str) -> bool
    ensures { result ≡ list_any (λ k. bytes_eq (row_of k).name name.now) keys.now }
{
    keys.iter().any(|key| key.name == name)
}

fn is_named(place: TablePlace, name: &str) -> bool
    ensures { result ≡ is_known_key (place_rows place) name.now }
{
    some_has_name(place.keys(), name)
}

fn some_is_unknown(place: TablePlace, table: &Table) -> bool
    ensures { result
        ≡ list_any (λ k. not (is_known_key (place_rows place) (string_bytes k))) (keys table.now) }
{
    table.keys().any(|name| !is_named(place, name.as_str()))
}

/// Whether a key is there that the place does not have.
pub(crate) fn has_unknown_key(place: TablePlace, table: &Table) -> bool
    ensures { result ≡ has_unknown_key (place_rows place) (table_view table.now) }
{
    some_is_unknown(place, table)
}
