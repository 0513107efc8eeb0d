//! Whether trees are the same; of floats and dates only the kind is compared.

ghost use Rattle.std.specs.Prelude.{◌≡◌};
ghost use Rattle.toml.specs.View.{view, array_view, table_view};
ghost use Rattle.hack_edits.specs.InternalTreeEquality.{same, same_items, same_members};

use toml::value::Array;
use toml::{Table, Value};

/// Returns whether two tables have the same keys with the same values, whatever their order. All
/// floats count as the same, and so do all dates.
#[cycle(same)]
pub fn same_table(a: &Table, b: &Table) -> bool
    ensures { result ≡ same_members (table_view a.now) (table_view b.now) }
{
    let mut others = b.iter();
    'members: for (key, value) in a.iter() {
        match others.next() {
            Some((other_key, other)) => {
                if key.as_str() != other_key.as_str() || !same_value(value, other) {
                    return false;
                }
            }
            None => return false,
        }
    }
    others.next().is_none()
}

#[cycle(same)]
fn same_value(a: &Value, b: &Value) -> bool
    ensures { result ≡ same (view a.now) (view b.now) }
{
    match (a, b) {
        (Value::String(x), Value::String(y)) => x.as_str() == y.as_str(),
        (Value::Integer(x), Value::Integer(y)) => *x == *y,
        (Value::Float(_), Value::Float(_)) => true,
        (Value::Boolean(x), Value::Boolean(y)) => *x == *y,
        (Value::Datetime(_), Value::Datetime(_)) => true,
        (Value::Array(x), Value::Array(y)) => same_array(x, y),
        (Value::Table(x), Value::Table(y)) => same_table(x, y),
        _ => false,
    }
}

#[cycle(same)]
fn same_array(a: &Array, b: &Array) -> bool
    ensures { result ≡ same_items (array_view a.now) (array_view b.now) }
{
    if a.len() != b.len() {
        return false;
    }
    'items: for (i, x) in a.iter().enumerate() {
        if !same_value(x, &b[i]) {
            return false;
        }
    }
    true
}
