//! The ranges of the values.

ghost use Rattle.std.specs.Prelude.{◌≡◌, ◌&&◌, nat_le};
ghost use Rattle.nit_config.specs.Terms.{first_printable, has_bad_focus, has_bad_label};
ghost use Rattle.nit_config.specs.Terms.{has_bad_script, has_bad_size, has_bad_value, is_file_name};
ghost use Rattle.nit_config.specs.Terms.{is_outside, label_of_table, last_printable, list_all};
ghost use Rattle.nit_config.specs.Terms.{table_view};

use crate::tree::{boolean_at, integer_at, string_at};
use nit_rect::{
    FIRST_PRINTABLE, LAST_PRINTABLE, LEAST_UNITS, MOST_RUN_HEIGHT, MOST_RUN_UNITS, MOST_RUN_WIDTH,
};
use toml::Table;

/// The most bytes of a file's name.
const MOST_NAME: usize = 255;

fn is_outside(low: i64, high: i64, number: i64) -> bool
    ensures { result ≡ is_outside low high number }
{
    number < low || high < number
}

fn is_printable(text: &[u8]) -> bool
    ensures { result ≡ list_all
        (λ b. nat_le first_printable b && nat_le b last_printable) text.now }
{
    text.iter()
        .all(|byte| FIRST_PRINTABLE <= *byte && *byte <= LAST_PRINTABLE)
}

fn is_file_name(text: &[u8]) -> bool
    ensures { result ≡ is_file_name text.now }
{
    !text.is_empty() && text.len() <= MOST_NAME && is_printable(text)
}

/// Whether the width or the height of a screen is outside its range, or the bar does not fit.
#[tactic(auto, unfolding(crate::specs::Ranges::has_bad_size))]
pub(crate) fn has_bad_size(screen: &Table) -> bool
    ensures { result ≡ has_bad_size (table_view screen.now) }
{
    let width = integer_at(screen, "width", 0);
    let height = integer_at(screen, "height", 0);
    is_outside(1, i64::from(MOST_RUN_WIDTH), width)
        || is_outside(1, i64::from(MOST_RUN_HEIGHT), height)
        || (boolean_at(screen, "bar", false) && height < 8)
}

/// Whether the script has no name of a file.
#[tactic(auto, unfolding(crate::specs::Ranges::has_bad_script))]
pub(crate) fn has_bad_script(table: &Table) -> bool
    ensures { result ≡ has_bad_script (table_view table.now) }
{
    !is_file_name(string_at(table, "script", "").as_bytes())
}

#[tactic(auto, unfolding(crate::specs::Ranges::has_bad_focus))]
fn has_bad_focus(client: &Table) -> bool
    ensures { result ≡ has_bad_focus (table_view client.now) }
{
    let focus = string_at(client, "focus", "click");
    !("click" == focus || "none" == focus)
}

/// Whether a value of a client is outside its range.
#[tactic(auto, unfolding(crate::specs::Ranges::has_bad_value))]
pub(crate) fn has_bad_value(client: &Table) -> bool
    ensures { result ≡ has_bad_value (table_view client.now) }
{
    let donation = integer_at(client, "donation", 0);
    is_outside(i64::from(LEAST_UNITS), i64::from(MOST_RUN_UNITS), donation)
        || is_outside(0, 7, integer_at(client, "layer", 0))
        || has_bad_script(client)
        || has_bad_focus(client)
}

/// The text of a client's label.
pub(crate) fn label_of(client: &Table) -> &str
    ensures { result.now ≡ label_of_table (table_view client.now) }
{
    string_at(client, "label", "")
}

/// Whether the text of a client's label is no label.
#[tactic(auto, unfolding(crate::specs::Ranges::has_bad_label))]
pub(crate) fn has_bad_label(client: &Table) -> bool
    ensures { result ≡ has_bad_label (table_view client.now) }
{
    !nit_glyph::is_label(label_of(client).as_bytes())
}
