//! A size, and the row of a file that says it.
ghost use Rattle.std.specs.Prelude.{◌≡◌, IfSome};
ghost use Rattle.size_catalogue.specs.SizeRow.{size_of_row, IsRowInBounds};
ghost use Rattle.size_catalogue.specs.Catalogue.{size_in_list};

use crate::limits::{MAX_AREA, MAX_HEIGHT, MAX_JOIN_PRICE, MAX_METRE_PRICE, MIN_AREA, MIN_HEIGHT};
use csv_fields::Rows;
use duct_units::Name;

/// One size of a catalogue.
#[derive(Clone, Copy)]
pub struct Size {
    /// Its name, which no other size of the catalogue has.
    pub name: Name,
    /// The number of its list, from 0.
    pub list: u32,
    /// The inner cross-section, mm2.
    pub area: u64,
    /// The outer height, mm.
    pub height: u64,
    /// The price of a metre of duct, cents.
    pub metre: u64,
    /// The price of joining a section, cents.
    pub join: u64,
    /// The price of a step to another size, cents.
    pub step: u64,
}

/// What a row of a sizes file says: a size as in `Size`, with the same units, and its list by name.
#[derive(Clone, Copy)]
pub struct SizeRow {
    pub list: Name,
    pub name: Name,
    pub area: u64,
    pub height: u64,
    pub metre: u64,
    pub join: u64,
    pub step: u64,
}

impl SizeRow {
    /// The size, in the list of the given number.
    pub fn in_list(self, list: u32) -> Size
        ensures { result ≡ size_in_list list self }
    {
        Size {
            name: self.name,
            list,
            area: self.area,
            height: self.height,
            metre: self.metre,
            join: self.join,
            step: self.step,
        }
    }
}

/// What the row at hand says; none where a field isn't of its form or lies out of its bound.
pub fn size_row(rows: &Rows<'_>) -> Option<SizeRow>
    ensures value { result ≡ size_of_row rows.now.row }
    ensures bounds { IfSome result IsRowInBounds }
{
    Some(SizeRow {
        list: rows.name(0)?,
        name: rows.name(1)?,
        area: rows.number(2, MIN_AREA, MAX_AREA)?,
        height: rows.number(3, MIN_HEIGHT, MAX_HEIGHT)?,
        metre: rows.number(4, 0, MAX_METRE_PRICE)?,
        join: rows.number(5, 0, MAX_JOIN_PRICE)?,
        step: rows.number(6, 0, MAX_JOIN_PRICE)?,
    })
}
