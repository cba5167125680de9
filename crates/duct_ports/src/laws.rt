//! The limits of files as numbers, and that sure files and a sure sink never fail. What a call does is one call of the
//! crate or nothing: its contract is the law.
ghost use Rattle.std.specs.Prelude.{◌≡◌, ◌≢◌, ◌<◌, length, IsOk};
ghost use Rattle.duct_ports.specs.declared.files.TheConstants.{MAX_NAMES};
ghost use Rattle.duct_ports.specs.declared.read.TheConstants.{MAX_FILE_BYTES, BUFFER_BYTES};

use crate::files::Files;
use crate::read::{TakeError, read_all};
use crate::sure::{SureFiles, SureSink};
use crate::write::{WriteFault, write_all};
use duct_units::List;
use std::alloc::Global;

/// A file holds at most 4,194,304 bytes, a source is asked for at most 8 names, and a read is offered 65,536 bytes.
pub fn limits_as_numbers()
    ensures bytes { MAX_FILE_BYTES ≡ 4194304 }
    ensures names { MAX_NAMES ≡ 8 }
    ensures room { BUFFER_BYTES ≡ 65536 }
{}

/// Reading of sure files is never a fault.
pub fn sure_files_are_read<'w>(
    alloc: Global,
    files: &mut SureFiles<'w>,
    name: &'w str,
) -> Result<List<u8>, TakeError>
    requires { length (⟦<SureFiles<'w> as Files<'w>>⟧.asked files.old) < MAX_NAMES }
    ensures { result ≢ Err TakeError.Fault }
{
    read_all(alloc, files, name)
}

/// A sure sink takes all bytes.
pub fn a_sure_sink_takes_all(sink: &mut SureSink, bytes: &[u8]) -> Result<(), WriteFault>
    ensures { IsOk result }
{
    write_all(sink, bytes)
}
