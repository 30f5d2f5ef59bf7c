//! What stands at a key of a table.

ghost use Rattle.std.specs.Prelude.{◌≡◌, map, option_map};
ghost use Rattle.nit_config.specs.Terms.{boolean_at, elements_at, elements_of, get_member};
ghost use Rattle.nit_config.specs.Terms.{integer_at, members_at, members_of, no_members, string_at};
ghost use Rattle.nit_config.specs.Terms.{table_view, view};

use toml::{Table, Value};

/// The value at a key.
pub(crate) fn find<'a>(table: &'a Table, key: &str) -> Option<&'a Value>
    ensures { option_map (λ v. view v.now) result ≡ get_member key.now (table_view table.now) }
{
    table.get(key)
}

/// The integer at a key, or another.
pub(crate) fn integer_at(table: &Table, key: &str, other: i64) -> i64
    ensures { result ≡ integer_at key.now other (table_view table.now) }
{
    match find(table, key) {
        Some(value) => value.as_integer().unwrap_or(other),
        None => other,
    }
}

/// The string at a key, or another.
pub(crate) fn string_at<'a>(table: &'a Table, key: &str, other: &'a str) -> &'a str
    ensures { result.now ≡ string_at key.now other.now (table_view table.now) }
{
    match find(table, key) {
        Some(value) => value.as_str().unwrap_or(other),
        None => other,
    }
}

/// The boolean at a key, or another.
pub(crate) fn boolean_at(table: &Table, key: &str, other: bool) -> bool
    ensures { result ≡ boolean_at key.now other (table_view table.now) }
{
    match find(table, key) {
        Some(value) => value.as_bool().unwrap_or(other),
        None => other,
    }
}

/// The table that a value is, or one with no keys.
pub(crate) fn table_of<'a>(value: &'a Value, empty: &'a Table) -> &'a Table
    requires { table_view empty.now ≡ no_members }
    ensures { table_view result.now ≡ members_of (view value.now) }
{
    value.as_table().unwrap_or(empty)
}

/// The table at a key, or one with no keys.
pub(crate) fn table_at<'a>(table: &'a Table, key: &str, empty: &'a Table) -> &'a Table
    requires { table_view empty.now ≡ no_members }
    ensures { table_view result.now ≡ members_at key.now (table_view table.now) }
{
    match find(table, key) {
        Some(value) => value.as_table().unwrap_or(empty),
        None => empty,
    }
}

/// The elements of the array at a key, or none.
#[tactic(auto, using(crate::proofs::Elements::list_of_items))]
fn elements_at<'a>(table: &'a Table, key: &str) -> &'a [Value]
    ensures { map view result.now ≡ elements_at key.now (table_view table.now) }
{
    match find(table, key) {
        Some(value) => match value.as_array() {
            Some(values) => values.as_slice(),
            None => &[],
        },
        None => &[],
    }
}

/// The elements of `client`.
pub(crate) fn elements_of(top: &Table) -> &[Value]
    ensures { map view result.now ≡ elements_of (table_view top.now) }
{
    elements_at(top, "client")
}
