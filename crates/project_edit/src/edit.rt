//! An edit of a project.
ghost use Rattle.std.specs.Prelude.{◌≡◌};
ghost use Rattle.project_edit.specs.Refusals.{error_of};
ghost use Rattle.project_edit.specs.declared.edit.EditError.TheVariants.{NoMemory as out_of_memory};

use duct_units::{NoMemory, ReadError, Reason};
use edit_script::Change;
use thiserror::Error;

/// One field of one section of a project is changed.
#[derive(Clone, Copy)]
pub struct Edit {
    /// The number of the section, from 0 in file order.
    pub section: u32,
    /// What it has from now on.
    pub change: Change,
}

/// Why a project isn't changed.
#[derive(Debug, Drop, Error)]
pub enum EditError {
    /// The changed project would break a rule.
    #[error("refused: {0:?}")]
    Refused(Reason),
    #[error("out of memory")]
    NoMemory,
}

impl From<NoMemory> for EditError {
    ghost from_gives = { λ _ error. error ≡ out_of_memory };

    fn from(_error: NoMemory) -> EditError {
        EditError::NoMemory
    }
}

impl From<ReadError> for EditError {
    ghost from_gives = { λ read error. error ≡ error_of read };

    fn from(error: ReadError) -> EditError {
        match error {
            ReadError::Refused(fault) => EditError::Refused(fault.reason),
            ReadError::NoMemory => EditError::NoMemory,
        }
    }
}
