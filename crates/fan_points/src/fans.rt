//! The catalogue of fan points.
ghost use Rattle.std.specs.Prelude.{◌≡◌, ◌+◌, ◌<◌, ◌≤◌, [], length, slice_get, Some, IfOk};
ghost use Rattle.file_definitions.specs.Rows.{TakesRow, TakesItem};
ghost use Rattle.fan_points.specs.FanRow.{IsFanInBounds};
ghost use Rattle.fan_points.specs.Fans.{IsFan, IsFans};
ghost use Rattle.fan_points.specs.Reading.{fans_form};

use crate::limits::{COLUMNS, MAX_POINTS};
use crate::row::{FanRow, fan_row};
use csv_fields::Rows;
use duct_units::{ReadError, Reason};
use name_index::NameIndex;
use std::alloc::Global;
use std::marker::Model;

/// Fan points, which count from 0 in file order.
#[derive(Drop)]
pub struct Fans {
    names: NameIndex,
    fans: Vec<FanRow>,
}

impl Model for Fans {
    ghost use Rattle.std.specs.Prelude.{List as Sequence};
    ghost use Rattle.fan_points.specs.declared.row.FanRow.{FanRow};
    ghost use Rattle.fan_points.specs.FansIndex.{IsIndexed};

    ghost Value = { Sequence FanRow };

    ghost view = { λ fans. fans.fans.items };

    ghost invariant = { IsIndexed };
}

impl Fans {
    // No fan yet.
    pub(crate) fn new(alloc: Global) -> Fans
        ensures { result ≡ [] }
    {
        Fans {
            names: NameIndex::new(alloc),
            fans: Vec::new(alloc),
        }
    }

    /// How many fans there are.
    pub fn len(&self) -> u32
        ensures value { result ≡ length self.now }
        ensures most { result ≤ MAX_POINTS }
        ensures fans { IsFans self.now }
    {
        self.fans.len() as u32
    }

    /// The fan with the number.
    pub fn fan(&self, i: u32) -> FanRow
        requires { i < length self.now }
        ensures value { slice_get self.now i ≡ Some result }
        ensures bounds { IsFan result }
    {
        self.fans[i as usize]
    }

    /// The fans with what the row at hand says, or the row's first refusal.
    pub(crate) fn with_row(self, rows: &Rows<'_>) -> Result<Fans, ReadError>
        ensures takes { TakesRow fans_form rows.now.number self rows.now.row result }
        ensures fans { IfOk result IsFans }
    {
        if rows.columns() != COLUMNS {
            return Err(ReadError::Refused(rows.fault(Reason::Columns)));
        }
        match fan_row(rows) {
            Some(row) => self.with_fan(rows, row),
            None => Err(ReadError::Refused(rows.fault(Reason::Field))),
        }
    }

    fn with_fan(self, rows: &Rows<'_>, row: FanRow) -> Result<Fans, ReadError>
        requires { IsFanInBounds row }
        ensures takes { TakesItem fans_form rows.now.number self row result }
        ensures fans { IfOk result IsFans }
    {
        let Fans {
            mut names,
            mut fans,
        } = self;
        if row.high < row.low {
            return Err(ReadError::Refused(rows.fault(Reason::Order)));
        }
        if !names.add(row.name)? {
            return Err(ReadError::Refused(rows.fault(Reason::Twice)));
        }
        if fans.len() >= MAX_POINTS {
            return Err(ReadError::Refused(rows.fault(Reason::TooMany)));
        }
        fans.push(row)?;
        Ok(Fans { names, fans })
    }
}
