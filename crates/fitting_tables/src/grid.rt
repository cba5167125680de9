//! The table of one fitting.
ghost use Rattle.std.specs.Prelude.{◌≡◌, ◌<◌, ◌≤ℤ◌, ◌&&◌, ◌++◌, ◌∷◌, [], length, None, IsTrue, IfSome, IfOk};
ghost use Rattle.fitting_tables.specs.Cells.{value_at, refusal_of, has_row, is_full, IsCell};
ghost use Rattle.fitting_tables.specs.Coefficient.{IsCoefficient, coefficient_of};

use crate::axis::{Axis, span_at};
use crate::coefficient::weighted;
use crate::limits::{MAX_VALUE, MIN_VALUE};
use crate::row::Cell;
use duct_units::{NoMemory, Reason};
use std::alloc::Global;
use std::collections::HashMap;
use std::marker::Model;

/// The cells of a table, each found by its breakpoints.
#[derive(Drop)]
pub struct Grid {
    areas: Axis,
    flows: Axis,
    cells: Vec<Cell>,
    places: HashMap<(u64, u64), usize>,
}

impl Model for Grid {
    ghost use Rattle.std.specs.Prelude.{List as Sequence};
    ghost use Rattle.fitting_tables.specs.declared.row.Cell.{Cell};
    ghost use Rattle.fitting_tables.specs.GridIndex.{IsIndexed};

    ghost Value = { Sequence Cell };

    ghost view = { λ grid. grid.cells.items };

    ghost invariant = { IsIndexed };
}

impl Grid {
    /// No cell yet.
    pub fn new(alloc: Global) -> Grid
        ensures { result ≡ [] }
    {
        Grid {
            areas: Axis::new(alloc),
            flows: Axis::new(alloc),
            cells: Vec::new(alloc),
            places: HashMap::new(alloc),
        }
    }

    /// The coefficient of the cell at these breakpoints, thousandths.
    pub fn value(&self, area: u64, flow: u64) -> Option<i64>
        ensures value { result ≡ value_at area flow self.now }
        ensures bounds { IfSome result (λ value. (MIN_VALUE ≤ℤ value) × (value ≤ℤ MAX_VALUE)) }
    {
        let place = *self.places.get(&(area, flow))?;
        Some(self.cells[place].value)
    }

    /// Why the cell may not be added: one stands there, or there is no room for its area ratio or its flow ratio.
    pub fn refusal(&self, cell: Cell) -> Option<Reason>
        ensures { result ≡ refusal_of cell self.now }
    {
        if self.value(cell.area, cell.flow).is_some() {
            return Some(Reason::Twice);
        }
        if !self.areas.fits(cell.area) || !self.flows.fits(cell.flow) {
            return Some(Reason::TooMany);
        }
        None
    }

    /// The table with one more cell.
    pub fn with_cell(self, cell: Cell) -> Result<Grid, NoMemory>
        requires bounds { IsCell cell }
        requires allowed { refusal_of cell self ≡ None }
        ensures { IfOk result (λ grid. grid ≡ self ++ cell ∷ []) }
    {
        let Grid {
            mut areas,
            mut flows,
            mut cells,
            mut places,
        } = self;
        areas.add(cell.area)?;
        flows.add(cell.flow)?;
        places.insert((cell.area, cell.flow), cells.len())?;
        cells.push(cell)?;
        Ok(Grid {
            areas,
            flows,
            cells,
            places,
        })
    }

    /// Whether every area ratio and every flow ratio of the table meet in a cell.
    pub fn is_full(&self) -> bool
        ensures { result ≡ is_full self.now }
    {
        let (areas, flows) = (self.areas.points(), self.flows.points());
        areas.iter().all(|area| self.has_row(*area, flows))
    }

    fn has_row(&self, area: u64, flows: &[u64]) -> bool
        ensures { result ≡ has_row area flows.now self.now }
    {
        flows.iter().all(|flow| self.value(area, *flow).is_some())
    }

    /// The coefficient at an area ratio and a flow ratio, all in thousandths.
    pub fn coefficient(&self, ra: u64, rq: u64) -> i64
        requires { 0 < length self.now }
        ensures value { result ≡ coefficient_of self.now ra rq }
        ensures ceiling { IsCoefficient self.now ra rq result }
        ensures bounds { (MIN_VALUE ≤ℤ result) × (result ≤ℤ MAX_VALUE) }
    {
        let area = span_at(self.areas.points(), ra);
        let flow = span_at(self.flows.points(), rq);
        weighted(self, area, flow)
    }
}
