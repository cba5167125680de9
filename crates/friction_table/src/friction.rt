//! The friction rates of all sizes.
ghost use Rattle.std.specs.Prelude.{◌≡◌, ◌+◌, ◌^◌, ◌<◌, ◌≤◌, ◌==◌, ◌↔◌, [], replicate, IfSome, IsNone, IfOk};
ghost use Rattle.std.specs.Prelude.{length as count};
ghost use Rattle.std.specs.List.{position_from};
ghost use Rattle.duct_units.specs.Rules.{first_broken};
ghost use Rattle.file_definitions.specs.Rows.{TakesRow, TakesItem};
ghost use Rattle.friction_table.specs.Rates.{IsRate, IsTable, RisesThroughout};
ghost use Rattle.friction_table.specs.Loss.{IsAboveAll, IsFrictionLoss, IsLossOver, IsRateInBounds, friction_loss, loss_over};
ghost use Rattle.friction_table.specs.Reading.{friction_form, row_of_each, table_of, AddsRow};

use crate::limits::{
    COLUMNS, MAX_FRICTION_LOSS, MILLIMETRES_PER_METRE, MILLIPASCALS_PER_DECIPASCAL, MIN_FLOW,
};
use crate::row::{FlowRate, FrictionRow, friction_row};
use crate::table::{Fraction, RateTable};
use csv_fields::Rows;
use duct_definitions::{MAX_FLOW, MAX_LENGTH};
use duct_units::{Fault, NoMemory, ReadError, Reason};
use size_catalogue::Sizes;
use std::alloc::Global;
use std::marker::Model;

/// The friction rates of a catalogue's sizes, one table for each, by the size's number.
#[derive(Drop)]
pub struct Friction {
    tables: Vec<RateTable>,
}

impl Model for Friction {
    ghost use Rattle.std.specs.Prelude.{List as Sequence, All, length, ◌≤◌};
    ghost use Rattle.friction_table.specs.declared.limits.TheConstants.{MAX_ROWS};
    ghost use Rattle.friction_table.specs.declared.row.FlowRate.{FlowRate};

    ghost Value = { Sequence (Sequence FlowRate) };

    ghost view = { λ friction. friction.tables.items };

    ghost invariant = { λ friction. All (λ rows. length rows ≤ MAX_ROWS) friction.tables.items };
}

impl Friction {
    // No rate yet, for so many sizes.
    pub(crate) fn new(alloc: Global, sizes: u32) -> Result<Friction, NoMemory>
        ensures { IfOk result (λ friction. friction ≡ replicate sizes []) }
    {
        let mut tables = Vec::with_capacity(alloc, sizes as usize)?;
        for _ in 0..sizes {
            tables.push(RateTable::new(alloc))?;
        }
        Ok(Friction { tables })
    }

    /// The rates of a size. A later one has a higher airflow, and no lower rate.
    #[tactic(auto, using(crate::proofs::RisingLaws::rises_throughout))]
    pub fn rates(&self, size: u32) -> &[FlowRate]
        requires { size < count self.now }
        ensures value { result.now ≡ table_of self.now size }
        ensures order { RisesThroughout result.now }
        ensures bounds { IsTable result.now }
    {
        self.tables[size as usize].rows()
    }

    /// What a length in mm of a size loses at the airflow, dPa.
    pub fn loss(&self, size: u32, flow: u64, length: u64) -> Option<u64>
        requires size { size < count self.now }
        requires flow { (MIN_FLOW ≤ flow) × (flow ≤ MAX_FLOW) }
        requires length { length ≤ MAX_LENGTH }
        ensures none { IsNone result ↔ IsAboveAll flow (table_of self.now size) }
        ensures value { result ≡ friction_loss (table_of self.now size) flow length }
        ensures loss { IfSome result (IsFrictionLoss (table_of self.now size) flow length) }
        ensures most { IfSome result (λ loss. loss ≤ MAX_FRICTION_LOSS) }
    {
        let rate = self.tables[size as usize].rate_at(flow)?;
        Some(loss_over(length, rate))
    }

    /// The fault of the first size without a row.
    pub(crate) fn missing(&self) -> Option<Fault>
        requires { count self.now < u32.MAX }
        ensures { result ≡ first_broken (row_of_each 1 self.now) }
    {
        let size = first_empty(&self.tables)?;
        // Sizes count from 0, and places from 1.
        Some(Fault::of_size(size as u32 + 1, Reason::Missing))
    }

    /// The friction with what the row at hand says, or the row's first refusal.
    pub(crate) fn with_row(self, sizes: &Sizes, rows: &Rows<'_>) -> Result<Friction, ReadError>
        requires { count self ≡ count sizes.now.sizes }
        ensures takes { TakesRow (friction_form sizes.now) rows.now.number self rows.now.row result }
        ensures adds { IfOk result (AddsRow self) }
    {
        if rows.columns() != COLUMNS {
            return Err(ReadError::Refused(rows.fault(Reason::Columns)));
        }
        match friction_row(rows) {
            Some(row) => self.with_rate(sizes, rows, row),
            None => Err(ReadError::Refused(rows.fault(Reason::Field))),
        }
    }

    fn with_rate(
        self,
        sizes: &Sizes,
        rows: &Rows<'_>,
        row: FrictionRow,
    ) -> Result<Friction, ReadError>
        requires sizes { count self ≡ count sizes.now.sizes }
        requires bounds { IsRate row.at }
        ensures takes { TakesItem (friction_form sizes.now) rows.now.number self row result }
        ensures adds { IfOk result (AddsRow self) }
    {
        let Friction { mut tables } = self;
        let size = match sizes.named(&row.size) {
            Some(size) => size as usize,
            None => return Err(ReadError::Refused(rows.fault(Reason::UnknownSize))),
        };
        if !tables[size].has_room() {
            return Err(ReadError::Refused(rows.fault(Reason::TooMany)));
        }
        if !tables[size].may_follow(row.at) {
            return Err(ReadError::Refused(rows.fault(Reason::Order)));
        }
        tables[size].push(row.at)?;
        Ok(Friction { tables })
    }
}

fn first_empty(tables: &[RateTable]) -> Option<usize>
    ensures value { result ≡ position_from (λ rows. count rows == 0) 0 tables.now }
    ensures within { IfSome result (λ size. size < count tables.now) }
{
    tables.iter().position(|table| table.is_empty())
}

// What a length in mm loses at the rate, dPa.
fn loss_over(length: u64, rate: Fraction) -> u64
    requires length { length ≤ MAX_LENGTH }
    requires rate { IsRateInBounds rate }
    ensures value { result ≡ loss_over length rate }
    ensures least { IsLossOver length rate result }
    ensures most { result ≤ MAX_FRICTION_LOSS }
{
    let unit = MILLIMETRES_PER_METRE * MILLIPASCALS_PER_DECIPASCAL * rate.den;
    (length * rate.num).div_ceil(unit)
}
