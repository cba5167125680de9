//! The friction rates of one size.
ghost use Rattle.std.specs.Prelude.{◌≡◌, ◌*◌, ◌<◌, ◌≤◌, ◌==◌, ◌↔◌, [], ◌∷◌, ◌++◌, nat_lt, IfSome, IsNone, IsTrue, OnOk, OnErr};
ghost use Rattle.std.specs.Prelude.{length as count};
ghost use Rattle.friction_table.specs.Rates.{AreRising, IsRate, IsTable, may_follow};
ghost use Rattle.friction_table.specs.Loss.{IsRateInBounds, Parts, rate_at, rate_between, IsAboveAll};

use crate::limits::{MAX_RATE, MAX_ROWS};
use crate::row::FlowRate;
use duct_definitions::MAX_FLOW;
use duct_units::NoMemory;
use std::alloc::Global;
use std::marker::Model;

/// A rate as an exact fraction `num / den`, mPa/m.
#[derive(Clone, Copy)]
pub struct Fraction {
    pub num: u64,
    pub den: u64,
}

/// Rates by rising airflow.
#[derive(Drop)]
pub struct RateTable {
    rows: Vec<FlowRate>,
}

impl Model for RateTable {
    ghost use Rattle.std.specs.Prelude.{List as Sequence};
    ghost use Rattle.friction_table.specs.declared.row.FlowRate.{FlowRate};
    ghost use Rattle.friction_table.specs.Rates.{IsTable};

    ghost Value = { Sequence FlowRate };

    ghost view = { λ table. table.rows.items };

    ghost invariant = { λ table. IsTable table.rows.items };
}

impl RateTable {
    /// No rate yet.
    pub fn new(alloc: Global) -> RateTable
        ensures { result ≡ [] }
    {
        RateTable {
            rows: Vec::new(alloc),
        }
    }

    /// Whether there is no row.
    pub fn is_empty(&self) -> bool
        ensures { result ≡ (count self.now == 0) }
    {
        self.rows.is_empty()
    }

    /// Whether there is room for a row.
    pub fn has_room(&self) -> bool
        ensures { result ≡ nat_lt (count self.now) MAX_ROWS }
    {
        self.rows.len() < MAX_ROWS
    }

    /// Whether the row's airflow is above the last one's, and its rate not below.
    pub fn may_follow(&self, row: FlowRate) -> bool
        ensures { result ≡ may_follow self.now row }
    {
        match self.rows.last() {
            Some(last) => last.flow < row.flow && last.rate <= row.rate,
            None => true,
        }
    }

    /// The rows.
    pub fn rows(&self) -> &[FlowRate]
        ensures value { result.now ≡ self.now }
        ensures table { IsTable result.now }
    {
        &self.rows
    }

    /// Adds a row at the end.
    pub fn push(&mut self, row: FlowRate) -> Result<(), NoMemory>
        requires room { count self.old < MAX_ROWS }
        requires order { IsTrue (may_follow self.old row) }
        requires bounds { IsRate row }
        ensures ok { OnOk result (self.new ≡ self.old ++ row ∷ []) }
        ensures err { OnErr result (self.new ≡ self.old) }
    {
        self.rows.push(row)?;
        Ok(())
    }

    /// The rate at an airflow, which is at least 1.
    pub fn rate_at(&self, flow: u64) -> Option<Fraction>
        ensures none { IsNone result ↔ IsAboveAll flow self.now }
        ensures value { result ≡ rate_at flow self.now }
        ensures bounds { IfSome result IsRateInBounds }
    {
        rate_in(&self.rows, flow)
    }
}

fn rate_in(rows: &[FlowRate], flow: u64) -> Option<Fraction>
    requires { IsTable rows.now }
    ensures none { IsNone result ↔ IsAboveAll flow rows.now }
    ensures value { result ≡ rate_at flow rows.now }
    ensures bounds { IfSome result IsRateInBounds }
{
    let place = first_not_below(rows, flow);
    let upper = *rows.get(place)?;
    if place == 0 || upper.flow == flow {
        return Some(Fraction {
            num: upper.rate,
            den: 1,
        });
    }
    Some(rate_between(flow, rows[place - 1], upper))
}

// The place of the first row whose airflow is not below.
fn first_not_below(rows: &[FlowRate], flow: u64) -> usize
    requires { AreRising rows.now }
    ensures parts { Parts flow rows.now result }
    ensures within { result ≤ count rows.now }
{
    rows.partition_point(|row| row.flow < flow)
}

// The rate on the line between two rows.
fn rate_between(flow: u64, lower: FlowRate, upper: FlowRate) -> Fraction
    requires above { lower.flow < flow }
    requires below { flow < upper.flow }
    requires rising { lower.rate ≤ upper.rate }
    requires bounds { (upper.flow ≤ MAX_FLOW) × (upper.rate ≤ MAX_RATE) }
    ensures value { result ≡ rate_between flow lower upper }
    ensures bounds { IsRateInBounds result }
{
    let width = upper.flow - lower.flow;
    Fraction {
        num: lower.rate * width + (flow - lower.flow) * (upper.rate - lower.rate),
        den: width,
    }
}
