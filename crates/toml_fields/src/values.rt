//! What a value is.
ghost use Rattle.std.specs.Prelude.{◌≡◌, ◌≤◌, map, is_some, option_map, IfSome, IsTrue};
ghost use Rattle.std.specs.List.{list_all};
ghost use Rattle.toml.specs.Data.{as_table};
ghost use Rattle.toml.specs.View.{view};
ghost use Rattle.duct_units.specs.Name.{is_name};
ghost use Rattle.file_definitions.specs.Document.{all_of, are_tables, bounded, items_of, name_in};

use duct_units::Name;
use toml::Value;

/// The number, where it is there and from low to high.
pub fn bounded(low: u64, high: u64, number: Option<i64>) -> Option<u64>
    ensures value { result ≡ bounded low high number }
    ensures within { IfSome result (λ n. (low ≤ n) × (n ≤ high)) }
{
    match number {
        Some(number) if 0 <= number => {
            let number = number as u64;
            if low <= number && number <= high {
                Some(number)
            } else {
                None
            }
        }
        _ => None,
    }
}

/// The name that the value is.
pub fn name_in(value: &Value) -> Option<Name>
    ensures value { result ≡ name_in (view value.now) }
    ensures form { IfSome result (λ name. IsTrue (is_name name)) }
{
    Name::new(value.as_str()?.as_bytes())
}

/// The items of the array that the value is.
pub fn items_of(value: &Value) -> Option<&[Value]>
    ensures { option_map (λ items. map view items.now) result ≡ items_of (view value.now) }
{
    match value.as_array() {
        Some(items) => Some(items.as_slice()),
        None => None,
    }
}

/// Whether each value is a table.
pub fn are_tables(values: &[Value]) -> bool
    ensures { result ≡ are_tables (map view values.now) }
{
    are_tables_each(values)
}

/// Whether each value is a name.
pub fn are_names(values: &[Value]) -> bool
    ensures { result ≡ is_some (all_of name_in (map view values.now)) }
{
    are_names_each(values)
}

/// Whether each value is an array.
pub fn are_arrays(values: &[Value]) -> bool
    ensures { result ≡ is_some (all_of items_of (map view values.now)) }
{
    are_arrays_each(values)
}

fn are_tables_each(values: &[Value]) -> bool
    ensures { result ≡ list_all (λ value. is_some (as_table (view value))) values.now }
{
    values.iter().all(|value| value.is_table())
}

fn are_names_each(values: &[Value]) -> bool
    ensures { result ≡ list_all (λ value. is_some (name_in (view value))) values.now }
{
    values.iter().all(|value| name_in(value).is_some())
}

fn are_arrays_each(values: &[Value]) -> bool
    ensures { result ≡ list_all (λ value. is_some (items_of (view value))) values.now }
{
    values.iter().all(|value| items_of(value).is_some())
}
