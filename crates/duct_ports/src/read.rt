//! Reading a file whole.
ghost use Rattle.std.specs.Prelude.{◌≡◌, ◌<◌, ◌≤◌, ◌+◌, ◌⊎◌, ◌++◌, [], ◌∷◌, false, length, vec_len, IfOk, OnOk, IfSome};
ghost use Rattle.duct_ports.specs.Faults.{Rose};
ghost use Rattle.duct_ports.specs.Reading.{Holds, HoldsMoreThan, TakesMoreThan, bytes_of};

use crate::files::{Files, MAX_NAMES};
use duct_units::List;
use std::alloc::{AllocError, Global};
use thiserror::Error;

/// The most bytes that a file may hold.
pub const MAX_FILE_BYTES: usize = 4_194_304;

/// The room that is offered at each read, in bytes.
pub const BUFFER_BYTES: usize = 65_536;

/// Why a file was not taken.
#[derive(Debug, Drop, Error)]
pub enum TakeError {
    #[error("a file was not read")]
    Fault,
    #[error("a file is too long")]
    TooLong,
    #[error("out of memory")]
    NoMemory,
}

/// Starts the file and reads to its end, but no further than the first read that goes past the
/// most bytes of a file.
pub fn read_all<'w, F: Files<'w>>(
    alloc: Global,
    files: &mut F,
    name: &'w str,
) -> Result<List<u8>, TakeError>
    requires { length (F.asked files.old) < MAX_NAMES }

    ensures whole { IfOk result (Holds (F.held files.old) name.now) }
    ensures bound { IfOk result (λ bytes. length bytes ≤ MAX_FILE_BYTES) }
    ensures ended { OnOk result (F.started files.new ≡ false) }

    // Every byte that was moved is in an Ok. More than the most bytes of a file are moved exactly where the file is too
    // long, and no further than by the read that goes past them; but memory may run out then.
    ensures moved { IfOk result (λ bytes. F.moved files.new ≡ length bytes) }
    ensures passed { result ≡ Err TakeError.TooLong → MAX_FILE_BYTES < F.moved files.new }
    ensures passes { MAX_FILE_BYTES < F.moved files.new
        → (result ≡ Err TakeError.TooLong) ⊎ (result ≡ Err TakeError.NoMemory) }
    ensures within { F.moved files.new ≤ MAX_FILE_BYTES + BUFFER_BYTES }

    ensures too_long { result ≡ Err TakeError.TooLong
        → HoldsMoreThan MAX_FILE_BYTES (F.held files.old) name.now }
    ensures taken { result ≡ Err TakeError.TooLong
        → TakesMoreThan MAX_FILE_BYTES (bytes_of (F.held files.old) name.now) (F.left files.new) }
    ensures cause { result ≡ Err TakeError.Fault
        → Rose (F.fault_count files.old) (F.fault_count files.new) }
    ensures stopped { result ≡ Err TakeError.Fault → F.started files.new ≡ false }

    // This name alone is asked for, once, whatever the answer is.
    ensures names { F.asked files.new ≡ F.asked files.old ++ name.now ∷ [] }
    ensures kept { F.held files.new ≡ F.held files.old }
    ensures count { F.fault_count files.old ≤ F.fault_count files.new }
{
    match files.start(name) {
        Ok(()) => {}
        Err(_) => return Err(TakeError::Fault),
    }
    match read_buffer(alloc) {
        Ok(mut buffer) => read_rest(alloc, files, buffer.as_mut_slice()),
        Err(_) => Err(TakeError::NoMemory),
    }
}

// The buffer is made in a function of its own, so that no proof about the loop computes its zeros.
fn read_buffer(alloc: Global) -> Result<Vec<u8>, AllocError>
    ensures { IfOk result (λ buffer. vec_len buffer ≡ BUFFER_BYTES) }
{
    vec![in alloc; 0u8; BUFFER_BYTES]
}

/// Reads what is left of the started file.
fn read_rest<'w, F: Files<'w>>(
    alloc: Global,
    files: &mut F,
    buffer: &mut [u8],
) -> Result<List<u8>, TakeError>
    requires room { 0 < length buffer.old }
    requires few { length buffer.old ≤ BUFFER_BYTES }
    requires fresh { F.moved files.old ≡ 0 }

    ensures whole { IfOk result (λ bytes. IfSome (F.left files.old) (λ rest. bytes ≡ rest)) }
    ensures bound { IfOk result (λ bytes. length bytes ≤ MAX_FILE_BYTES) }
    ensures ended { OnOk result (F.started files.new ≡ false) }
    ensures moved { IfOk result (λ bytes. F.moved files.new ≡ length bytes) }
    ensures passed { result ≡ Err TakeError.TooLong → MAX_FILE_BYTES < F.moved files.new }
    ensures passes { MAX_FILE_BYTES < F.moved files.new
        → (result ≡ Err TakeError.TooLong) ⊎ (result ≡ Err TakeError.NoMemory) }
    ensures within { F.moved files.new ≤ MAX_FILE_BYTES + BUFFER_BYTES }
    ensures taken { result ≡ Err TakeError.TooLong
        → TakesMoreThan MAX_FILE_BYTES (F.left files.old) (F.left files.new) }
    ensures cause { result ≡ Err TakeError.Fault
        → Rose (F.fault_count files.old) (F.fault_count files.new) }
    ensures stopped { result ≡ Err TakeError.Fault → F.started files.new ≡ false }
    ensures names { F.asked files.new ≡ F.asked files.old }
    ensures kept { F.held files.new ≡ F.held files.old }
    ensures count { F.fault_count files.old ≤ F.fault_count files.new }
{
    let mut bytes = Vec::new(alloc);
    'pieces: while bytes.len() <= MAX_FILE_BYTES {
        match files.read(buffer) {
            Ok(0) => return Ok(List::from_vec(bytes)),
            Ok(count) => match bytes.extend_from_slice(&buffer[..count]) {
                Ok(()) => {}
                Err(_) => return Err(TakeError::NoMemory),
            },
            Err(_) => return Err(TakeError::Fault),
        }
    }
    Err(TakeError::TooLong)
}
