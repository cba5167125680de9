//! Where an input is refused, and why.
ghost use Rattle.std.specs.Prelude.{◌≡◌};
ghost use Rattle.duct_units.specs.Rules.{file_fault, fan_fault, section_fault, row_fault, size_fault, table_fault, line_fault};
ghost use Rattle.duct_units.specs.declared.fault.ReadError.TheVariants.{NoMemory as out_of_memory, Refused as refused};

use std::alloc::{AllocError, AllocFailed};
use thiserror::Error;

/// What a place counts: the n-th fan, section, row, size, table or line from 1. A file as a whole has place 0.
#[derive(Clone, Copy, Debug, PartialEq, Eq)]
pub enum Part {
    File,
    Fan,
    Section,
    Row,
    Size,
    Table,
    Line,
}

/// Why an input is refused.
#[derive(Clone, Copy, Debug, PartialEq, Eq)]
pub enum Reason {
    /// More bytes than a file may hold.
    TooLong,
    /// Not a TOML document.
    Text,
    /// A key that isn't listed for its table.
    Key,
    /// A required value missing, of another kind, or out of its bound.
    Field,
    /// The format number is another one.
    Format,
    /// No section, or a section without sizes.
    Empty,
    /// A count above its limit.
    TooMany,
    /// A name, cell or pair given before.
    Twice,
    /// No section has the name.
    UnknownNeighbour,
    /// The neighbour doesn't stand earlier.
    NotBefore,
    /// The neighbour is of the other side.
    OtherSide,
    /// No supply section.
    NoSupply,
    /// A leaf without airflow.
    FlowMissing,
    /// An inner section with airflow.
    FlowGiven,
    /// A section's airflow above the limit.
    FlowTooLarge,
    /// A junction at a section without neighbour.
    JunctionAtFan,
    /// The first CSV row isn't the stated header.
    Header,
    /// A row with another number of fields.
    Columns,
    /// Friction rows that don't rise, or a fan's high below its low.
    Order,
    /// A cell of a fitting grid is missing.
    Hole,
    /// A size without friction rows.
    Missing,
    /// A friction row for a size that isn't in the catalogue.
    UnknownSize,
    /// No size list has the name.
    UnknownList,
    /// No fitting table has the name.
    UnknownTable,
    /// The preset isn't in the section's list.
    UnknownPreset,
    /// A network pair of another form or out of range.
    Pair,
    /// A line of a design text that isn't of its form.
    Form,
    /// A form of input that isn't handled yet.
    Unbuilt,
    /// No section has the name, or a listed section's name isn't the project's.
    UnknownSection,
}

/// Memory ran out.
#[derive(Debug, Drop, Error)]
#[error("out of memory")]
pub struct NoMemory;

/// A refused input: where, and why.
#[derive(Clone, Copy, Debug, PartialEq, Eq, Error)]
#[error("refused at {part:?} {place}: {reason:?}")]
pub struct Fault {
    /// What the place counts.
    pub part: Part,
    /// Counts from 1; 0 at a file as a whole.
    pub place: u32,
    /// What is wrong there.
    pub reason: Reason,
}

impl Fault {
    /// A fault of the file as a whole.
    pub fn of_file(reason: Reason) -> Fault
        ensures { result ≡ file_fault reason }
    {
        Fault {
            part: Part::File,
            place: 0,
            reason,
        }
    }

    /// A fault of the n-th fan, counted from 1.
    pub fn of_fan(place: u32, reason: Reason) -> Fault
        ensures { result ≡ fan_fault place reason }
    {
        Fault {
            part: Part::Fan,
            place,
            reason,
        }
    }

    /// A fault of the n-th section, counted from 1.
    pub fn of_section(place: u32, reason: Reason) -> Fault
        ensures { result ≡ section_fault place reason }
    {
        Fault {
            part: Part::Section,
            place,
            reason,
        }
    }

    /// A fault of the n-th row, counted from 1.
    pub fn of_row(place: u32, reason: Reason) -> Fault
        ensures { result ≡ row_fault place reason }
    {
        Fault {
            part: Part::Row,
            place,
            reason,
        }
    }

    /// A fault of the n-th size, counted from 1.
    pub fn of_size(place: u32, reason: Reason) -> Fault
        ensures { result ≡ size_fault place reason }
    {
        Fault {
            part: Part::Size,
            place,
            reason,
        }
    }

    /// A fault of the n-th table, counted from 1.
    pub fn of_table(place: u32, reason: Reason) -> Fault
        ensures { result ≡ table_fault place reason }
    {
        Fault {
            part: Part::Table,
            place,
            reason,
        }
    }

    /// A fault of the n-th line, counted from 1.
    pub fn of_line(place: u32, reason: Reason) -> Fault
        ensures { result ≡ line_fault place reason }
    {
        Fault {
            part: Part::Line,
            place,
            reason,
        }
    }
}

/// Why an input was not read.
#[derive(Debug, Drop, Error)]
pub enum ReadError {
    #[error("{0}")]
    Refused(Fault),
    #[error("out of memory")]
    NoMemory,
}

impl From<AllocError> for NoMemory {
    fn from(_error: AllocError) -> NoMemory {
        NoMemory
    }
}

impl<T: Drop> From<AllocFailed<T>> for NoMemory {
    fn from(_error: AllocFailed<T>) -> NoMemory {
        NoMemory
    }
}

impl From<AllocError> for ReadError {
    ghost from_gives = { λ _ error. error ≡ out_of_memory };

    fn from(_error: AllocError) -> ReadError {
        ReadError::NoMemory
    }
}

impl<T: Drop> From<AllocFailed<T>> for ReadError {
    ghost from_gives = { λ _ error. error ≡ out_of_memory };

    fn from(_error: AllocFailed<T>) -> ReadError {
        ReadError::NoMemory
    }
}

impl From<NoMemory> for ReadError {
    ghost from_gives = { λ _ error. error ≡ out_of_memory };

    fn from(_error: NoMemory) -> ReadError {
        ReadError::NoMemory
    }
}

impl From<Fault> for ReadError {
    ghost from_gives = { λ fault error. error ≡ refused fault };

    fn from(fault: Fault) -> ReadError {
        ReadError::Refused(fault)
    }
}

#[cfg(test)]
mod tests {
    use super::*;

    #[test]
    fn running_out_of_memory_is_no_refusal(rt: HostRuntime) {
        let errors: [ReadError; 3] = [
            AllocError.into(),
            AllocFailed { value: 7u8 }.into(),
            NoMemory::from(AllocFailed { value: 7u8 }).into(),
        ];
        for error in &errors {
            assert!(rt; matches!(error, ReadError::NoMemory));
        }
    }
}
