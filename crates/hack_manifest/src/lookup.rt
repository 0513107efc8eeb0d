//! What the tables of a manifest's tree hold.

ghost use Rattle.std.specs.Prelude.{◌≡◌, option_map};
ghost use Rattle.toml.specs.Data.{get_member};
ghost use Rattle.toml.specs.Text.{has_items};
ghost use Rattle.toml.specs.View.{view, table_view, array_view};
ghost use Rattle.hack_manifest.specs.Manifest.{table_at};

use toml::value::Array;
use toml::{Table, Value};

/// The value at a key.
pub fn value_at<'a>(table: &'a Table, key: &str) -> Option<&'a Value>
    ensures { option_map (λ v. view v.now) result ≡ get_member key.now (table_view table.now) }
{
    table.get(key)
}

/// The table at a key.
pub fn find_table<'a>(table: &'a Table, key: &str) -> Option<&'a Table>
    ensures { option_map (λ t. table_view t.now) result ≡ table_at key.now (table_view table.now) }
{
    match value_at(table, key) {
        Some(value) => value.as_table(),
        None => None,
    }
}

/// Whether an array isn't empty.
pub fn has_values(array: &Array) -> bool
    ensures { result ≡ has_items (array_view array.now) }
{
    !array.as_slice().is_empty()
}
