//! The tables of all fittings.
ghost use Rattle.std.specs.Prelude.{◌≡◌, ◌+◌, ◌^◌, ◌<◌, ◌≤◌, ◌≤ℤ◌, ◌↔◌, [], length, not, Contains, Some, None, IfSome, IsNone, IfOk};
ghost use Rattle.std.specs.List.{position_from};
ghost use Rattle.duct_units.specs.Rules.{first_broken};
ghost use Rattle.file_definitions.specs.Rows.{TakesRow, TakesItem};
ghost use Rattle.name_index.specs.Places.{place_of};
ghost use Rattle.fitting_tables.specs.Cells.{IsCell, is_full};
ghost use Rattle.fitting_tables.specs.Coefficient.{IsCoefficient, coefficient_of};
ghost use Rattle.fitting_tables.specs.Fittings.{IsFittings, cells_of, table_number};
ghost use Rattle.fitting_tables.specs.Reading.{fittings_form, each_full, AddsCell};

use crate::grid::Grid;
use crate::limits::{COLUMNS, MAX_TABLES, MAX_VALUE, MIN_VALUE};
use crate::row::{FittingRow, fitting_row};
use csv_fields::Rows;
use duct_units::{Fault, Name, ReadError, Reason};
use name_index::NameIndex;
use std::alloc::Global;
use std::marker::Model;
use std::mem::replace;

/// Junction coefficients, in tables that count from 0 in the order in which they first appear.
#[derive(Drop)]
pub struct Fittings {
    names: NameIndex,
    grids: Vec<Grid>,
}

impl Model for Fittings {
    ghost use Rattle.fitting_tables.specs.Fittings.{Tables};

    ghost Value = { Tables };

    ghost use Rattle.fitting_tables.specs.FittingsIndex.{tables_of, IsHeld};

    ghost view = { tables_of };

    ghost invariant = { IsHeld };
}

impl Fittings {
    // No table yet.
    pub(crate) fn new(alloc: Global) -> Fittings
        ensures names { result.names ≡ [] }
        ensures grids { result.grids ≡ [] }
    {
        Fittings {
            names: NameIndex::new(alloc),
            grids: Vec::new(alloc),
        }
    }

    /// How many tables there are.
    pub fn len(&self) -> u32
        ensures value { result ≡ length self.now.grids }
        ensures most { result ≤ MAX_TABLES }
        ensures fittings { IsFittings self.now }
    {
        self.grids.len() as u32
    }

    /// The number of the table with the name.
    pub fn table(&self, name: &Name) -> Option<u32>
        ensures none { IsNone result ↔ (¬ (Contains self.now.names name.now)) }
        ensures value { result ≡ place_of name.now self.now.names }
        ensures within { IfSome result (λ table. table < length self.now.grids) }
    {
        let table = self.names.find(name)?;
        Some(table as u32)
    }

    /// The coefficient of a table at an area ratio and a flow ratio, all in thousandths.
    pub fn coefficient(&self, table: u32, ra: u64, rq: u64) -> i64
        requires { table < length self.now.grids }
        ensures value { result ≡ coefficient_of (cells_of self.now table) ra rq }
        ensures ceiling { IsCoefficient (cells_of self.now table) ra rq result }
        ensures bounds { (MIN_VALUE ≤ℤ result) × (result ≤ℤ MAX_VALUE) }
    {
        self.grids[table as usize].coefficient(ra, rq)
    }

    /// The fault of the first table with a hole.
    pub(crate) fn hole(&self) -> Option<Fault>
        ensures { result ≡ first_broken (each_full 1 self.now.grids) }
    {
        let table = first_with_hole(&self.grids)?;
        // Tables count from 0, and places from 1.
        Some(Fault::of_table(table as u32 + 1, Reason::Hole))
    }

    /// The fittings with what the row at hand says, or the row's first refusal.
    pub(crate) fn with_row(self, alloc: Global, rows: &Rows<'_>) -> Result<Fittings, ReadError>
        ensures takes { TakesRow fittings_form rows.now.number self rows.now.row result }
        ensures adds { IfOk result (AddsCell self) }
    {
        if rows.columns() != COLUMNS {
            return Err(ReadError::Refused(rows.fault(Reason::Columns)));
        }
        match fitting_row(rows) {
            Some(row) => self.with_fitting(alloc, rows, row),
            None => Err(ReadError::Refused(rows.fault(Reason::Field))),
        }
    }

    fn with_fitting(
        self,
        alloc: Global,
        rows: &Rows<'_>,
        row: FittingRow,
    ) -> Result<Fittings, ReadError>
        requires { IsCell row.cell }
        ensures takes { TakesItem fittings_form rows.now.number self row result }
        ensures adds { IfOk result (AddsCell self) }
    {
        match self.names.find(&row.table) {
            Some(table) => self.with_cell(alloc, rows, table, row),
            None => self.with_table(alloc, rows, row),
        }
    }

    // One more cell of a table.
    fn with_cell(
        self,
        alloc: Global,
        rows: &Rows<'_>,
        table: usize,
        row: FittingRow,
    ) -> Result<Fittings, ReadError>
        requires table { table_number self row ≡ Some table }
        requires bounds { IsCell row.cell }
        ensures takes { TakesItem fittings_form rows.now.number self row result }
        ensures adds { IfOk result (AddsCell self) }
    {
        let Fittings { names, mut grids } = self;
        if let Some(reason) = grids[table].refusal(row.cell) {
            return Err(ReadError::Refused(rows.fault(reason)));
        }
        let grid = replace(&mut grids[table], Grid::new(alloc));
        grids[table] = grid.with_cell(row.cell)?;
        Ok(Fittings { names, grids })
    }

    // A table with one cell.
    fn with_table(
        self,
        alloc: Global,
        rows: &Rows<'_>,
        row: FittingRow,
    ) -> Result<Fittings, ReadError>
        requires new { table_number self row ≡ None }
        requires bounds { IsCell row.cell }
        ensures takes { TakesItem fittings_form rows.now.number self row result }
        ensures adds { IfOk result (AddsCell self) }
    {
        let Fittings {
            mut names,
            mut grids,
        } = self;
        if grids.len() >= MAX_TABLES {
            return Err(ReadError::Refused(rows.fault(Reason::TooMany)));
        }
        names.add(row.table)?;
        grids.push(Grid::new(alloc).with_cell(row.cell)?)?;
        Ok(Fittings { names, grids })
    }
}

fn first_with_hole(grids: &[Grid]) -> Option<usize>
    ensures value { result ≡ position_from (λ cells. not (is_full cells)) 0 grids.now }
    ensures within { IfSome result (λ table. table < length grids.now) }
{
    grids.iter().position(|grid| !grid.is_full())
}
