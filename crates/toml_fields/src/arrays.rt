//! An array of arrays.
ghost use Rattle.std.specs.Prelude.{◌≡◌, map, is_some, true};
ghost use Rattle.toml.specs.View.{view};
ghost use Rattle.file_definitions.specs.Document.{all_of, items_of};

use crate::fields::items_at;
use crate::values::{are_arrays, items_of};
use toml::{Table, Value};

/// The arrays of an array of arrays, lent by the document.
#[derive(Drop)]
pub struct Arrays<'t> {
    values: &'t [Value],
    ghost arrays: { is_some (all_of items_of (map view values.now)) ≡ true },
}

impl<'t> Arrays<'t> {
    ghost use Rattle.std.specs.Prelude.{◌≡◌, ◌<◌, length, map, option_map, slice_get, Some};
    ghost use Rattle.toml.specs.View.{table_view, view};
    ghost use Rattle.file_definitions.specs.Document.{arrays_at};
    ghost use Rattle.toml_fields.specs.ArrayItems.{arrays_in};

    /// The arrays of the array of arrays at a key.
    pub fn at(table: &'t Table, key: &str) -> Option<Arrays<'t>>
        ensures { option_map arrays_in result ≡ arrays_at key.now (table_view table.now) }
    {
        match items_at(table, key) {
            Some(values) if are_arrays(values) => Some(Arrays { values }),
            _ => None,
        }
    }

    /// How many arrays there are.
    pub fn len(&self) -> usize
        ensures { result ≡ length (arrays_in self.now) }
    {
        self.values.len()
    }

    /// The values of the array at a place, from 0.
    pub fn get(&self, place: usize) -> &'t [Value]
        requires { place < length (arrays_in self.now) }
        ensures { slice_get (arrays_in self.now) place ≡ Some (map view result.now) }
    {
        items_of(&self.values[place]).unwrap()
    }
}
