//! What stands at a key of a table.
ghost use Rattle.std.specs.Prelude.{◌≡◌, ◌≤◌, map, option_map, option_and_then, string_bytes, IfSome, IsTrue};
ghost use Rattle.std.specs.List.{list_any, list_all};
ghost use Rattle.std.specs.Map.{keys_of};
ghost use Rattle.std.specs.Str.{bytes_eq};
ghost use Rattle.toml.specs.Data.{as_integer, as_array, get_member};
ghost use Rattle.toml_fields.specs.KeyFields.{flag_at, table_at};
ghost use Rattle.toml.specs.View.{table_view, array_view, view};
ghost use Rattle.duct_units.specs.Name.{is_name};
ghost use Rattle.file_definitions.specs.Document.{has_key, has_only, items_at, number_at, name_at, text_at};

use crate::values::bounded;
use duct_units::Name;
use toml::value::Array;
use toml::{Table, Value};

/// Whether the table has the key.
pub fn has_key(table: &Table, key: &str) -> bool
    ensures { result ≡ has_key key.now (table_view table.now) }
{
    table.get(key).is_some()
}

/// The integer at a key.
pub fn integer_at(table: &Table, key: &str) -> Option<i64>
    ensures { result ≡ option_and_then as_integer (get_member key.now (table_view table.now)) }
{
    match table.get(key) {
        Some(value) => value.as_integer(),
        None => None,
    }
}

/// The integer at a key, where it is from low to high.
pub fn number_at(table: &Table, key: &str, low: u64, high: u64) -> Option<u64>
    ensures value { result ≡ number_at key.now low high (table_view table.now) }
    ensures within { IfSome result (λ n. (low ≤ n) × (n ≤ high)) }
{
    bounded(low, high, integer_at(table, key))
}

/// The string at a key.
pub fn text_at<'t>(table: &'t Table, key: &str) -> Option<&'t str>
    ensures { option_map (λ text. text.now) result ≡ text_at key.now (table_view table.now) }
{
    match table.get(key) {
        Some(value) => value.as_str(),
        None => None,
    }
}

/// The name at a key.
pub fn name_at(table: &Table, key: &str) -> Option<Name>
    ensures value { result ≡ name_at key.now (table_view table.now) }
    ensures form { IfSome result (λ name. IsTrue (is_name name)) }
{
    match text_at(table, key) {
        Some(text) => Name::new(text.as_bytes()),
        None => None,
    }
}

/// The truth value at a key.
pub fn flag_at(table: &Table, key: &str) -> Option<bool>
    ensures { result ≡ flag_at key.now (table_view table.now) }
{
    match table.get(key) {
        Some(value) => value.as_bool(),
        None => None,
    }
}

/// The table at a key.
pub fn table_at<'t>(table: &'t Table, key: &str) -> Option<&'t Table>
    ensures { option_map (λ inner. table_view inner.now) result ≡ table_at key.now (table_view table.now) }
{
    match table.get(key) {
        Some(value) => value.as_table(),
        None => None,
    }
}

/// The items of the array at a key.
pub fn items_at<'t>(table: &'t Table, key: &str) -> Option<&'t [Value]>
    ensures { option_map (λ items. map view items.now) result ≡ items_at key.now (table_view table.now) }
{
    match array_at(table, key) {
        Some(items) => Some(items.as_slice()),
        None => None,
    }
}

fn array_at<'t>(table: &'t Table, key: &str) -> Option<&'t Array>
    ensures { option_map (λ items. array_view items.now) result
        ≡ option_and_then as_array (get_member key.now (table_view table.now)) }
{
    match table.get(key) {
        Some(value) => value.as_array(),
        None => None,
    }
}

/// Whether each key of the table is among these.
pub fn has_only(table: &Table, keys: &[&str]) -> bool
    ensures { result ≡ has_only (map (λ key. key.now) keys.now) (table_view table.now) }
{
    are_listed(table, keys)
}

fn are_listed(table: &Table, keys: &[&str]) -> bool
    ensures { result ≡ list_all (λ key. list_any (λ listed. bytes_eq (string_bytes key) listed.now) keys.now)
        (keys_of table.now.entries) }
{
    table.keys().all(|key| is_listed(key.as_str(), keys))
}

fn is_listed(key: &str, keys: &[&str]) -> bool
    ensures { result ≡ list_any (λ listed. bytes_eq key.now listed.now) keys.now }
{
    keys.iter().any(|listed| key == *listed)
}
