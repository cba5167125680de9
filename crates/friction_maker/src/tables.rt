//! The rates of all sizes.
ghost use Rattle.std.specs.Prelude.{◌≡◌, ◌<◌, ◌==◌, ◌++◌, [], map, replicate, slice_set, sum_by, IfOk, IfSome, OnOk};
ghost use Rattle.std.specs.Prelude.{length as count};
ghost use Rattle.std.specs.List.{position_from};
ghost use Rattle.duct_units.specs.Rules.{first_broken};
ghost use Rattle.file_definitions.specs.Rows.{TakesRow, TakesItem};
ghost use Rattle.friction_table.specs.Reading.{table_of, row_of_each};
ghost use Rattle.friction_maker.specs.DuctRow.{IsRowInBounds};
ghost use Rattle.friction_maker.specs.Rate.{IsAir};
ghost use Rattle.friction_maker.specs.Making.{ducts_form, AreMade};
ghost use Rattle.friction_maker.specs.MadeRows.{made_row, listed};

use crate::air::Air;
use crate::limits::COLUMNS;
use crate::making::{MadeRow, are_low, table_for};
use crate::row::{DuctRow, duct_row};
use csv_fields::Rows;
use duct_definitions::MAX_FLOW;
use duct_units::{Fault, List, NoMemory, ReadError, Reason};
use friction_table::FlowRate;
use size_catalogue::Sizes;
use std::alloc::Global;
use std::marker::Model;

/// The rates that are made, one table for each size, by the size's number. A size that no row named has an empty one.
#[derive(Drop)]
pub struct Tables {
    tables: Vec<List<FlowRate>>,
}

impl Model for Tables {
    ghost use Rattle.std.specs.Prelude.{List as Sequence};
    ghost use Rattle.friction_table.specs.declared.row.FlowRate.{FlowRate};

    ghost Value = { Sequence (Sequence FlowRate) };

    ghost view = { λ made. made.tables.items };
}

impl Tables {
    /// No rate yet, for so many sizes.
    pub(crate) fn new(alloc: Global, sizes: u32) -> Result<Tables, NoMemory>
        ensures { IfOk result (λ tables. tables ≡ replicate sizes []) }
    {
        let mut tables = Vec::with_capacity(alloc, sizes as usize)?;
        for _ in 0..sizes {
            tables.push(List::from_vec(Vec::new(alloc)))?;
        }
        Ok(Tables { tables })
    }

    /// The fault of the first size without a row.
    pub(crate) fn missing(&self) -> Option<Fault>
        requires { count self.now < u32.MAX }
        ensures { result ≡ first_broken (row_of_each 1 self.now) }
    {
        let size = first_empty(&self.tables)?;
        // Sizes count from 0, and places from 1.
        Some(Fault::of_size(size as u32 + 1, Reason::Missing))
    }

    /// The tables with what the row at hand makes, or the row's first refusal.
    pub(crate) fn with_row(
        self,
        alloc: Global,
        sizes: &Sizes,
        air: Air,
        rows: &Rows<'_>,
    ) -> Result<Tables, ReadError>
        requires air { IsAir air }
        requires made { AreMade sizes.now air self }
        ensures takes { TakesRow (ducts_form sizes.now air) rows.now.number self rows.now.row result }
        ensures made { IfOk result (AreMade sizes.now air) }
        ensures grows { IfOk result (λ tables. sum_by count self < sum_by count tables) }
    {
        if rows.columns() != COLUMNS {
            return Err(ReadError::Refused(rows.fault(Reason::Columns)));
        }
        match duct_row(rows) {
            Some(row) => self.with_duct(alloc, sizes, air, rows, row),
            None => Err(ReadError::Refused(rows.fault(Reason::Field))),
        }
    }

    fn with_duct(
        self,
        alloc: Global,
        sizes: &Sizes,
        air: Air,
        rows: &Rows<'_>,
        row: DuctRow,
    ) -> Result<Tables, ReadError>
        requires air { IsAir air }
        requires made { AreMade sizes.now air self }
        requires bounds { IsRowInBounds row }
        ensures takes { TakesItem (ducts_form sizes.now air) rows.now.number self row result }
        ensures made { IfOk result (AreMade sizes.now air) }
        ensures grows { IfOk result (λ tables. sum_by count self < sum_by count tables) }
    {
        let size = match sizes.named(&row.size) {
            Some(size) => size,
            None => return Err(ReadError::Refused(rows.fault(Reason::UnknownSize))),
        };
        if !self.is_open(size) {
            return Err(ReadError::Refused(rows.fault(Reason::Twice)));
        }
        if row.flow * row.rows > MAX_FLOW {
            return Err(ReadError::Refused(rows.fault(Reason::Field)));
        }
        let table = table_for(alloc, sizes, air, size, &row)?;
        if !are_low(table.as_slice()) {
            return Err(ReadError::Refused(rows.fault(Reason::Field)));
        }
        Ok(self.with_table(size, table))
    }

    // Whether no row has named the size yet.
    fn is_open(&self, size: u32) -> bool
        requires { size < count self.now }
        ensures { result ≡ (count (table_of self.now size) == 0) }
    {
        self.tables[size as usize].as_slice().is_empty()
    }

    fn with_table(self, size: u32, table: List<FlowRate>) -> Tables
        requires { size < count self }
        ensures { result ≡ slice_set self size table }
    {
        let Tables { mut tables } = self;
        tables[size as usize] = table;
        Tables { tables }
    }

    /// The rows of all tables, by size number.
    pub(crate) fn rows(&self, alloc: Global) -> Result<List<MadeRow>, NoMemory>
        requires { count self.now < u32.MAX }
        ensures { IfOk result (λ rows. rows ≡ listed self.now) }
    {
        let mut rows = Vec::new(alloc);
        for size in 0..self.tables.len() {
            add_rows(&mut rows, size as u32, self.tables[size].as_slice())?;
        }
        Ok(List::from_vec(rows))
    }
}

fn first_empty(tables: &[List<FlowRate>]) -> Option<usize>
    ensures value { result ≡ position_from (λ rows. count rows == 0) 0 tables.now }
    ensures within { IfSome result (λ size. size < count tables.now) }
{
    tables.iter().position(|table| table.as_slice().is_empty())
}

fn add_rows(rows: &mut Vec<MadeRow>, size: u32, table: &[FlowRate]) -> Result<(), NoMemory>
    ensures { OnOk result (rows.new.items ≡ rows.old.items ++ map (λ at. made_row size at) table.now) }
{
    for at in table {
        rows.push(MadeRow {
            size,
            flow: at.flow,
            rate: at.rate,
        })?;
    }
    Ok(())
}
