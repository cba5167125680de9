//! The rates of one size, and a row of the file that they make.
ghost use Rattle.std.specs.Prelude.{◌≡◌, ◌*◌, ◌<◌, ◌≤◌, true, IfOk};
ghost use Rattle.std.specs.Prelude.{length as count};
ghost use Rattle.duct_definitions.specs.declared.airflow.TheConstants.{MAX_FLOW};
ghost use Rattle.friction_maker.specs.DuctRow.{IsRowInBounds};
ghost use Rattle.friction_maker.specs.Rate.{IsDuct, IsAir, IsFlow};
ghost use Rattle.friction_maker.specs.Making.{made_at, made_table, duct_of, table_for, are_low, IsMadeTable};

use crate::air::{Air, Duct};
use crate::rate::made_rate;
use crate::row::DuctRow;
use duct_units::{List, NoMemory};
use friction_table::{FlowRate, MAX_RATE};
use size_catalogue::Sizes;
use std::alloc::Global;

/// The friction rate of a size at an airflow.
#[derive(Clone, Copy)]
pub struct MadeRow {
    /// The number of the size, from 0.
    pub size: u32,
    /// The airflow, l/s.
    pub flow: u64,
    /// The rate, mPa/m.
    pub rate: u64,
}

/// The rates that a row asks for, of the size with the number.
pub(crate) fn table_for(
    alloc: Global,
    sizes: &Sizes,
    air: Air,
    size: u32,
    row: &DuctRow,
) -> Result<List<FlowRate>, NoMemory>
    requires air { IsAir air }
    requires size { size < count sizes.now.sizes }
    requires row { IsRowInBounds row.now }
    requires flow { row.now.flow * row.now.rows ≤ MAX_FLOW }
    ensures value { IfOk result (λ table. table ≡ table_for sizes.now air size row.now) }
    ensures made { IfOk result (λ table. are_low table ≡ true → IsMadeTable sizes.now air size table) }
    ensures rows { IfOk result (λ table. count table ≡ row.now.rows) }
{
    let duct = duct_of(sizes, size, row);
    made_table(alloc, duct, air, row.flow, row.rows)
}

fn duct_of(sizes: &Sizes, size: u32, row: &DuctRow) -> Duct
    requires size { size < count sizes.now.sizes }
    requires row { IsRowInBounds row.now }
    ensures value { result ≡ duct_of sizes.now size row.now }
    ensures bounds { IsDuct result }
{
    Duct {
        area: sizes.size(size).area,
        diameter: row.diameter,
        rough: row.rough,
    }
}

// So many rates, at the airflow by 1, 2, ..
fn made_table(
    alloc: Global,
    duct: Duct,
    air: Air,
    flow: u64,
    rows: u64,
) -> Result<List<FlowRate>, NoMemory>
    requires duct { IsDuct duct }
    requires air { IsAir air }
    requires flow { IsFlow flow }
    requires last { flow * rows ≤ MAX_FLOW }
    ensures { IfOk result (λ table. table ≡ made_table duct air flow rows) }
{
    let mut table = Vec::new(alloc);
    for j in 0..rows {
        table.push(made_at(duct, air, flow * (j + 1)))?;
    }
    Ok(List::from_vec(table))
}

fn made_at(duct: Duct, air: Air, flow: u64) -> FlowRate
    requires duct { IsDuct duct }
    requires air { IsAir air }
    requires flow { IsFlow flow }
    ensures { result ≡ made_at duct air flow }
{
    FlowRate {
        flow,
        rate: made_rate(duct, air, flow),
    }
}

/// Whether each rate is one of a friction file.
pub(crate) fn are_low(table: &[FlowRate]) -> bool
    ensures { result ≡ are_low table.now }
{
    table.iter().all(|at| at.rate <= MAX_RATE)
}
