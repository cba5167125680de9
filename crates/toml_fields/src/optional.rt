//! What stands at a key that may be absent.
ghost use Rattle.std.specs.Prelude.{◌≡◌, ◌≤◌, IfSome, IsTrue};
ghost use Rattle.toml.specs.View.{table_view};
ghost use Rattle.duct_units.specs.Name.{is_name};
ghost use Rattle.toml_fields.specs.KeyFields.{optional_flag_at, optional_name_at, optional_number_at};

use crate::fields::{flag_at, has_key, name_at, number_at};
use duct_units::Name;
use toml::Table;

/// The integer at a key, where it is from low to high; nothing where the key is absent.
pub fn optional_number_at(table: &Table, key: &str, low: u64, high: u64) -> Option<Option<u64>>
    ensures value { result ≡ optional_number_at key.now low high (table_view table.now) }
    ensures within { IfSome result (λ number. IfSome number (λ n. (low ≤ n) × (n ≤ high))) }
{
    if has_key(table, key) {
        number_at(table, key, low, high).map(Some)
    } else {
        Some(None)
    }
}

/// The name at a key; nothing where the key is absent.
pub fn optional_name_at(table: &Table, key: &str) -> Option<Option<Name>>
    ensures value { result ≡ optional_name_at key.now (table_view table.now) }
    ensures form { IfSome result (λ given. IfSome given (λ name. IsTrue (is_name name))) }
{
    if has_key(table, key) {
        name_at(table, key).map(Some)
    } else {
        Some(None)
    }
}

/// The truth value at a key; nothing where the key is absent.
pub fn optional_flag_at(table: &Table, key: &str) -> Option<Option<bool>>
    ensures { result ≡ optional_flag_at key.now (table_view table.now) }
{
    if has_key(table, key) {
        flag_at(table, key).map(Some)
    } else {
        Some(None)
    }
}
