//! JSON objects, whose fields are taken out one after another. The error names the first one that
//! is missing or has the wrong type.

ghost use Rattle.std.specs.Prelude.{◌≡◌, ◌≢◌, ◌⊎◌, Some, None, Err, IfOk, IfErr, option_map};
ghost use Rattle.std.specs.Prelude.{string_bytes};
ghost use Rattle.serde_json.specs.Data.{Members};
ghost use Rattle.serde_json.specs.Find.{get_member, as_object};
ghost use Rattle.serde_json.specs.View.{view, items_view, members_view};
ghost use Rattle.hack_base.specs.Names.{optional_text};
ghost use Rattle.hack_metadata.specs.Fields.{string_in, bool_in, array_in, object_in, nullable_in};
ghost use Rattle.hack_metadata.specs.Fields.{optional_text_in, text_at, object_in_text};
ghost use Rattle.std.specs.Option.{ok_or};
ghost use Rattle.hack_metadata.specs.FieldResults.{KeepsOtherFields, ReturnsField};

use crate::metadata::fault::MetadataFault;
use serde_json::{Map, Value};
use std::alloc::Global;

/// A JSON object.
pub type Object = Map<String, Value>;

/// Reads a text as a JSON object. Of a name that comes twice in an object the last value counts.
pub fn object_of(alloc: Global, text: &str) -> Result<Object, MetadataFault>
    ensures ok { IfOk result (λ m. object_in_text text.now ≡ Some (members_view m.entries)) }
    ensures err { IfErr result (λ e. (e ≡ MetadataFault.Memory)
        ⊎ ((e ≡ MetadataFault.Json) × (object_in_text text.now ≡ None))) }
{
    let value = match Value::from_str(alloc, text) {
        Ok(value) => value,
        Err(error) if error.is_memory() => return Err(MetadataFault::Memory),
        Err(_) => return Err(MetadataFault::Json),
    };
    into_object(value).ok_or(MetadataFault::Json)
}

/// Takes fields out of an object. Each call leaves all other fields as they are. The error names
/// the field, which is missing or has the wrong type.
pub trait ObjectExt {
    /// The fields with what they hold.
    ghost members: { Self → Members };

    /// Takes out a text.
    fn remove_string(&mut self, key: &'static str) -> Result<String, MetadataFault>
        ensures value { ReturnsField string_bytes result (string_in key.now (members self.old)) }
        ensures no_memory { result ≢ Err MetadataFault.Memory }
        ensures gone { get_member key.now (members self.new) ≡ None }
        ensures others { KeepsOtherFields key.now (members self.old) (members self.new) };

    /// Takes out an array.
    fn remove_array(&mut self, key: &'static str) -> Result<Vec<Value>, MetadataFault>
        ensures value { ReturnsField (λ v. items_view v.items) result
            (array_in key.now (members self.old)) }
        ensures no_memory { result ≢ Err MetadataFault.Memory }
        ensures gone { get_member key.now (members self.new) ≡ None }
        ensures others { KeepsOtherFields key.now (members self.old) (members self.new) };

    /// Takes out an object.
    fn remove_object(&mut self, key: &'static str) -> Result<Object, MetadataFault>
        ensures value { ReturnsField (λ m. members_view m.entries) result
            (object_in key.now (members self.old)) }
        ensures no_memory { result ≢ Err MetadataFault.Memory }
        ensures gone { get_member key.now (members self.new) ≡ None }
        ensures others { KeepsOtherFields key.now (members self.old) (members self.new) };

    /// Takes out a value that may be null. None where it is null.
    fn remove_nullable(&mut self, key: &'static str) -> Result<Option<Value>, MetadataFault>
        ensures value { ReturnsField (option_map view) result (nullable_in key.now
            (members self.old)) }
        ensures no_memory { result ≢ Err MetadataFault.Memory }
        ensures gone { get_member key.now (members self.new) ≡ None }
        ensures others { KeepsOtherFields key.now (members self.old) (members self.new) };
}

impl ObjectExt for Object {
    ghost members = { λ m. members_view m.entries };

    fn remove_string(&mut self, key: &'static str) -> Result<String, MetadataFault> {
        match take(self, key) {
            Some(Value::String(text)) => Ok(text),
            _ => Err(MetadataFault::Field(key)),
        }
    }

    fn remove_array(&mut self, key: &'static str) -> Result<Vec<Value>, MetadataFault> {
        match take(self, key) {
            Some(Value::Array(list)) => Ok(list),
            _ => Err(MetadataFault::Field(key)),
        }
    }

    fn remove_object(&mut self, key: &'static str) -> Result<Object, MetadataFault> {
        match take(self, key) {
            Some(value) => into_object(value).ok_or(MetadataFault::Field(key)),
            None => Err(MetadataFault::Field(key)),
        }
    }

    fn remove_nullable(&mut self, key: &'static str) -> Result<Option<Value>, MetadataFault> {
        match take(self, key) {
            Some(Value::Null) => Ok(None),
            Some(value) => Ok(Some(value)),
            None => Err(MetadataFault::Field(key)),
        }
    }
}

/// Returns what a field holds, or an element of it, as an object. Where it is none, the error names
/// the field.
pub(crate) fn element(value: Value, list: &'static str) -> Result<Object, MetadataFault>
    ensures value { ReturnsField (λ m. members_view m.entries) result
        (ok_or (as_object (view value)) list.now) }
    ensures no_memory { result ≢ Err MetadataFault.Memory }
{
    into_object(value).ok_or(MetadataFault::Field(list))
}

/// Takes out a boolean.
pub(crate) fn remove_bool(object: &mut Object, key: &'static str) -> Result<bool, MetadataFault>
    ensures value { ReturnsField (λ b. b) result (bool_in key.now
        (members_view object.old.entries)) }
    ensures others { KeepsOtherFields key.now (members_view object.old.entries)
        (members_view object.new.entries) }
{
    match take(object, key) {
        Some(Value::Bool(truth)) => Ok(truth),
        _ => Err(MetadataFault::Field(key)),
    }
}

/// Takes out a text that may be null. None where it is null.
pub(crate) fn remove_text(
    object: &mut Object,
    key: &'static str,
) -> Result<Option<String>, MetadataFault>
    ensures value { ReturnsField optional_text result
        (optional_text_in key.now (members_view object.old.entries)) }
    ensures others { KeepsOtherFields key.now (members_view object.old.entries)
        (members_view object.new.entries) }
{
    match object.remove_nullable(key)? {
        None => Ok(None),
        Some(Value::String(text)) => Ok(Some(text)),
        Some(_) => Err(MetadataFault::Field(key)),
    }
}

/// Takes out what a field holds, where it is a text.
pub(crate) fn take_text(object: &mut Object, key: &str) -> Option<String>
    ensures value { optional_text result ≡ text_at key.now (members_view object.old.entries) }
    ensures others { KeepsOtherFields key.now (members_view object.old.entries)
        (members_view object.new.entries) }
{
    match take(object, key) {
        Some(Value::String(text)) => Some(text),
        _ => None,
    }
}

/// Takes out what a field holds.
pub(crate) fn take(object: &mut Object, key: &str) -> Option<Value>
    ensures value { option_map view result ≡ get_member key.now (members_view object.old.entries) }
    ensures gone { get_member key.now (members_view object.new.entries) ≡ None }
    ensures others { KeepsOtherFields key.now (members_view object.old.entries)
        (members_view object.new.entries) }
{
    object.remove(key)
}

/// Returns what a field holds.
pub(crate) fn find<'a>(object: &'a Object, key: &str) -> Option<&'a Value>
    ensures { option_map (λ v. view v.now) result
        ≡ get_member key.now (members_view object.now.entries) }
{
    object.get(key)
}

/// Returns what a value is as an object. None where it is none.
pub(crate) fn into_object(value: Value) -> Option<Object>
    ensures { option_map (λ m. members_view m.entries) result ≡ as_object (view value) }
{
    match value {
        Value::Object(map) => Some(map),
        _ => None,
    }
}
