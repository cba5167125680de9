//! The catalogue.
ghost use Rattle.std.specs.Prelude.{◌≡◌, ◌+◌, ◌*◌, ◌<◌, ◌≤◌, ◌↔◌, [], length, slice_get, Contains, Some, IfSome, IsNone, IfOk, OnOk};
ghost use Rattle.file_definitions.specs.Rows.{TakesRow, TakesItem};
ghost use Rattle.name_index.specs.Places.{place_of};
ghost use Rattle.size_catalogue.specs.SizeRow.{IsRowInBounds};
ghost use Rattle.size_catalogue.specs.Catalogue.{IsSize, IsCatalogue, names_of, numbers_of, list_number, lists_with};
ghost use Rattle.size_catalogue.specs.Reading.{sizes_form};

use crate::limits::{COLUMNS, MAX_LIST_SIZES, MAX_LISTS};
use crate::numbers::add_number;
use crate::row::{Size, SizeRow, size_row};
use csv_fields::Rows;
use duct_units::{Name, NoMemory, ReadError, Reason};
use name_index::NameIndex;
use std::alloc::Global;
use std::marker::Model;

/// Sizes in lists. Lists count from 0 in the order in which they first appear, sizes from 0 in file order.
#[derive(Drop)]
pub struct Sizes {
    lists: NameIndex,
    names: NameIndex,
    sizes: Vec<Size>,
    numbers: Vec<Vec<u32>>,
}

impl Model for Sizes {
    ghost use Rattle.size_catalogue.specs.Catalogue.{Catalogue};

    ghost Value = { Catalogue };

    ghost use Rattle.size_catalogue.specs.CatalogueIndex.{catalogue_of, IsIndexed};

    ghost view = { catalogue_of };

    ghost invariant = { IsIndexed };
}

impl Sizes {
    // No list yet.
    pub(crate) fn new(alloc: Global) -> Sizes
        ensures lists { result.lists ≡ [] }
        ensures sizes { result.sizes ≡ [] }
    {
        Sizes {
            lists: NameIndex::new(alloc),
            names: NameIndex::new(alloc),
            sizes: Vec::new(alloc),
            numbers: Vec::new(alloc),
        }
    }

    /// How many sizes there are in all lists.
    pub fn len(&self) -> u32
        ensures value { result ≡ length self.now.sizes }
        ensures most { result ≤ MAX_LISTS * MAX_LIST_SIZES }
        ensures catalogue { IsCatalogue self.now }
    {
        self.sizes.len() as u32
    }

    /// The number of the list with the name.
    pub fn list(&self, name: &Name) -> Option<u32>
        ensures none { IsNone result ↔ (¬ (Contains self.now.lists name.now)) }
        ensures value { result ≡ place_of name.now self.now.lists }
        ensures within { IfSome result (λ list. list < length self.now.lists) }
    {
        let list = self.lists.find(name)?;
        Some(list as u32)
    }

    /// How many sizes the list has.
    pub fn count(&self, list: u32) -> u32
        requires { list < length self.now.lists }
        ensures { result ≡ length (numbers_of list self.now.sizes) }
    {
        self.numbers[list as usize].len() as u32
    }

    /// The number, among all sizes, of the list's size k, from 0 in file order.
    pub fn number(&self, list: u32, k: u32) -> u32
        requires list { list < length self.now.lists }
        requires size { k < length (numbers_of list self.now.sizes) }
        ensures value { slice_get (numbers_of list self.now.sizes) k ≡ Some result }
        ensures within { result < length self.now.sizes }
    {
        self.numbers[list as usize][k as usize]
    }

    /// The size with the number.
    pub fn size(&self, number: u32) -> Size
        requires { number < length self.now.sizes }
        ensures value { slice_get self.now.sizes number ≡ Some result }
        ensures bounds { IsSize result }
        ensures list { result.list < length self.now.lists }
    {
        self.sizes[number as usize]
    }

    /// The number of the size with the name.
    pub fn named(&self, name: &Name) -> Option<u32>
        ensures none { IsNone result ↔ (¬ (Contains (names_of self.now.sizes) name.now)) }
        ensures value { result ≡ place_of name.now (names_of self.now.sizes) }
        ensures within { IfSome result (λ number. number < length self.now.sizes) }
    {
        let number = self.names.find(name)?;
        Some(number as u32)
    }

    /// The sizes with what the row at hand says, or the row's first refusal.
    pub(crate) fn with_row(self, alloc: Global, rows: &Rows<'_>) -> Result<Sizes, ReadError>
        ensures takes { TakesRow sizes_form rows.now.number self rows.now.row result }
        ensures catalogue { IfOk result IsCatalogue }
    {
        if rows.columns() != COLUMNS {
            return Err(ReadError::Refused(rows.fault(Reason::Columns)));
        }
        match size_row(rows) {
            Some(row) => self.with_size(alloc, rows, row),
            None => Err(ReadError::Refused(rows.fault(Reason::Field))),
        }
    }

    fn with_size(self, alloc: Global, rows: &Rows<'_>, row: SizeRow) -> Result<Sizes, ReadError>
        requires { IsRowInBounds row }
        ensures takes { TakesItem sizes_form rows.now.number self row result }
        ensures catalogue { IfOk result IsCatalogue }
    {
        let Sizes {
            mut lists,
            mut names,
            mut sizes,
            mut numbers,
        } = self;
        if !names.add(row.name)? {
            return Err(ReadError::Refused(rows.fault(Reason::Twice)));
        }
        let list = list_number(&mut lists, row.list)?;
        if lists.len() > MAX_LISTS || !add_number(alloc, &mut numbers, list, sizes.len() as u32)? {
            return Err(ReadError::Refused(rows.fault(Reason::TooMany)));
        }
        sizes.push(row.in_list(list as u32))?;
        Ok(Sizes {
            lists,
            names,
            sizes,
            numbers,
        })
    }
}

// The number of the list with the name, which is added where it is new.
fn list_number(lists: &mut NameIndex, name: Name) -> Result<usize, NoMemory>
    ensures value { IfOk result (λ list. list ≡ list_number name lists.old) }
    ensures lists { OnOk result (lists.new ≡ lists_with name lists.old) }
{
    if let Some(list) = lists.find(&name) {
        return Ok(list);
    }
    let list = lists.len();
    lists.add(name)?;
    Ok(list)
}
