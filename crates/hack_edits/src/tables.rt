//! Tables: of a text, with a key taken out, with one put in, and with one put back.

ghost use Rattle.std.specs.Prelude.{◌≡◌, IfOk, OnOk, option_map, string_bytes};
ghost use Rattle.toml.specs.Parse.{parse_document};
ghost use Rattle.toml.specs.View.{view, table_view};
ghost use Rattle.hack_edits.specs.Tables.{with_member, with_value, remove_member};

use std::alloc::{AllocError, Global};
use toml::{Table, Value};

/// The tree of a text, if `toml` reads it.
pub fn tree_of(alloc: Global, text: &str) -> Result<Option<Table>, AllocError>
    ensures { IfOk result (λ o. option_map (λ t. table_view t) o ≡ parse_document text.now) }
{
    match toml::table_from_str(alloc, text) {
        Ok(table) => Ok(Some(table)),
        Err(e) => {
            if e.is_memory() {
                Err(AllocError)
            } else {
                Ok(None)
            }
        }
    }
}

/// A copy of a table.
pub fn copy_of(table: &Table) -> Result<Table, AllocError>
    ensures { IfOk result (λ t. table_view t ≡ table_view table.now) }
{
    table.clone()
}

/// A table without a key.
pub fn without(table: Table, key: &str) -> Table
    ensures { table_view result ≡ remove_member key.now (table_view table) }
{
    let mut others = table;
    let _ = others.remove(key);
    others
}

/// Puts a value at a key.
pub fn put_at(kept: &mut Table, key: String, value: Value) -> Result<(), AllocError>
    ensures { OnOk result (table_view kept.new
        ≡ with_member (string_bytes key) (view value) (table_view kept.old)) }
{
    kept.insert(key, value)?;
    Ok(())
}

/// Puts the value of a key that was taken out back, where there is one.
pub fn put_back(
    alloc: Global,
    table: &mut Table,
    key: &str,
    value: Option<Value>,
) -> Result<(), AllocError>
    ensures { OnOk result (table_view table.new
        ≡ with_value key.now (option_map view value) (table_view table.old)) }
{
    match value {
        Some(found) => {
            let owned = String::from_str(alloc, key)?;
            put_at(table, owned, found)
        }
        None => Ok(()),
    }
}
