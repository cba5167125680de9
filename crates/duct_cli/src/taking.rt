//! Taking the files of a command, each whole, in the order of the words.
ghost use Rattle.std.specs.Prelude.{◌≡◌, ◌+◌, ◌≤◌, ◌++◌, length, map};
ghost use Rattle.duct_ports.specs.Faults.{Rose};
ghost use Rattle.duct_cli.specs.Taking.{IsTaken, AsksOn, names_seen};

use command_words::{FileKind, FileWord};
use duct_ports::{Files, MAX_NAMES, TakeError, read_all};
use duct_units::List;
use std::alloc::Global;

/// What came of taking files.
#[derive(Drop)]
pub enum Taken {
    /// The bytes of each file.
    Whole(Vec<List<u8>>),
    /// The first file that ended the taking holds more bytes than a file may.
    TooLong(FileKind),
    /// It could not be read.
    Fault,
    NoMemory,
}

/// Takes the files whole, one after another; the first that fails or is too long ends the taking.
pub fn take_all<'w, F: Files<'w>>(alloc: Global, files: &mut F, words: &[FileWord<'w>]) -> Taken
    requires { length (F.asked files.old) + length words.now ≤ MAX_NAMES }
    ensures taken { IsTaken words.now (F.held files.old) (Rose (F.fault_count files.old) (F.fault_count files.new)) result }
    ensures names { AsksOn (F.asked files.old) (names_seen words.now) (F.asked files.new) }
    ensures kept { F.held files.new ≡ F.held files.old }
    ensures count { F.fault_count files.old ≤ F.fault_count files.new }
{
    let Ok(mut taken) = Vec::with_capacity(alloc, words.len()) else {
        return Taken::NoMemory;
    };
    for word in words {
        let bytes = match read_all(alloc, files, word.name) {
            Ok(bytes) => bytes,
            Err(TakeError::TooLong) => return Taken::TooLong(word.kind),
            Err(TakeError::Fault) => return Taken::Fault,
            Err(TakeError::NoMemory) => return Taken::NoMemory,
        };
        if taken.push(bytes).is_err() {
            return Taken::NoMemory;
        }
    }
    Taken::Whole(taken)
}
