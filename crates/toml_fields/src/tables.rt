//! An array of tables.
ghost use Rattle.std.specs.Prelude.{◌≡◌, map, is_some, true};
ghost use Rattle.toml.specs.Data.{as_table};
ghost use Rattle.toml.specs.View.{view};
ghost use Rattle.file_definitions.specs.Document.{all_of};

use crate::fields::items_at;
use crate::values::are_tables;
use toml::{Table, Value};

/// The tables of an array of tables, lent by the document.
#[derive(Drop)]
pub struct Tables<'t> {
    values: &'t [Value],
    ghost tables: { is_some (all_of as_table (map view values.now)) ≡ true },
}

impl<'t> Tables<'t> {
    ghost use Rattle.std.specs.Prelude.{◌≡◌, ◌<◌, [], length, option_map, slice_get, Some};
    ghost use Rattle.toml.specs.View.{table_view};
    ghost use Rattle.file_definitions.specs.Document.{tables_at};
    ghost use Rattle.toml_fields.specs.ArrayItems.{tables_in};

    /// No tables.
    pub fn none() -> Tables<'t>
        ensures { tables_in result ≡ [] }
    {
        Tables { values: &[] }
    }

    /// The tables of the array of tables at a key.
    #[tactic(auto, using(crate::proofs::KindLaws::tables_decide))]
    pub fn at(table: &'t Table, key: &str) -> Option<Tables<'t>>
        ensures { option_map tables_in result ≡ tables_at key.now (table_view table.now) }
    {
        match items_at(table, key) {
            Some(values) if are_tables(values) => Some(Tables { values }),
            _ => None,
        }
    }

    /// How many tables there are.
    pub fn len(&self) -> usize
        ensures { result ≡ length (tables_in self.now) }
    {
        self.values.len()
    }

    /// The table at a place, from 0.
    pub fn get(&self, place: usize) -> &'t Table
        requires { place < length (tables_in self.now) }
        ensures { slice_get (tables_in self.now) place ≡ Some (table_view result.now) }
    {
        self.values[place].as_table().unwrap()
    }
}
