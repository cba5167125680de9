//! An array of names.
ghost use Rattle.std.specs.Prelude.{◌≡◌, map, is_some, true};
ghost use Rattle.toml.specs.View.{view};
ghost use Rattle.file_definitions.specs.Document.{all_of, name_in};

use crate::fields::items_at;
use crate::values::{are_names, name_in};
use duct_units::Name;
use toml::{Table, Value};

/// The names of an array of names, lent by the document.
#[derive(Drop)]
pub struct Names<'t> {
    values: &'t [Value],
    ghost names: { is_some (all_of name_in (map view values.now)) ≡ true },
}

impl<'t> Names<'t> {
    ghost use Rattle.std.specs.Prelude.{◌≡◌, ◌<◌, length, option_map, slice_get, Some};
    ghost use Rattle.toml.specs.View.{table_view};
    ghost use Rattle.file_definitions.specs.Document.{names_at};
    ghost use Rattle.toml_fields.specs.ArrayItems.{names_in};

    /// The names of the array of names at a key.
    pub fn at(table: &'t Table, key: &str) -> Option<Names<'t>>
        ensures { option_map names_in result ≡ names_at key.now (table_view table.now) }
    {
        match items_at(table, key) {
            Some(values) if are_names(values) => Some(Names { values }),
            _ => None,
        }
    }

    /// How many names there are.
    pub fn len(&self) -> usize
        ensures { result ≡ length (names_in self.now) }
    {
        self.values.len()
    }

    /// The name at a place, from 0.
    pub fn get(&self, place: usize) -> Name
        requires { place < length (names_in self.now) }
        ensures { slice_get (names_in self.now) place ≡ Some result }
    {
        name_in(&self.values[place]).unwrap()
    }
}
