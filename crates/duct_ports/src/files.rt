//! A source of files that are read one at a time.
ghost use Rattle.std.specs.Prelude.{◌≡◌, ◌<◌, ◌≤◌, ◌++◌, [], ◌∷◌, ℕ, List, Option, Bool, false, length, take, is_some, is_ok, IfOk, OnOk, OnErr};
ghost use Rattle.std.specs.Io.KnownBytes.{Consumes, IsAtEnd};
ghost use Rattle.duct_ports.specs.Faults.{Rose};
ghost use Rattle.duct_ports.specs.Reading.{Contents, IsBegun, moved_after};

use thiserror::Error;

/// The most names that one source is asked for.
pub const MAX_NAMES: usize = 8;

/// A file was not opened or not read.
#[derive(Debug, Drop, Error)]
#[error("a file was not read")]
pub struct FileFault;

/// Named files, of which at most one is started at a time.
///
/// An object may tell its bytes to proofs, as files in memory do, or not, as real files.
pub trait Files<'w> {
    // the names asked for, in order
    ghost asked: { Self → List (List ℕ) };

    // the bytes that each name holds, where the object tells them
    ghost held: { Self → Option Contents };

    // the bytes left of the started file, where the object tells them
    ghost left: { Self → Option (List ℕ) };

    // whether a file is started
    ghost started: { Self → Bool };

    // how many bytes were moved since the last name was asked for
    ghost moved: { Self → ℕ };

    // the count of faults
    ghost fault_count: { Self → ℕ };

    /// Begins the named file at its first byte. The file that was started before is let go.
    fn start(&mut self, name: &'w str) -> Result<(), FileFault>
        requires { length (asked self.old) < MAX_NAMES }

        ensures names { asked self.new ≡ asked self.old ++ name.now ∷ [] }
        ensures started { started self.new ≡ is_ok result }
        ensures begun { OnOk result (IsBegun (held self.old) name.now (left self.new)) }
        ensures fresh { moved self.new ≡ 0 }
        ensures kept { held self.new ≡ held self.old }
        ensures count { fault_count self.old ≤ fault_count self.new }
        ensures cause { OnErr result (Rose (fault_count self.old) (fault_count self.new)) };

    /// Moves the next bytes of the started file to the beginning of `buf`, and answers how many.
    /// 0 is the end of the file.
    fn read(&mut self, buf: &mut [u8]) -> Result<usize, FileFault>
        requires { 0 < length buf.old }

        ensures bound { IfOk result (λ n. n ≤ length buf.old) }
        ensures bytes { IfOk result (λ n.
            Consumes (left self.old) (left self.new) (take n buf.new)) }
        ensures moved { IfOk result (λ n. moved self.new ≡ moved_after (moved self.old) n) }
        ensures unmoved { OnErr result (moved self.new ≡ moved self.old) }

        // Where no file is started the answer is 0. After the answer 0 or a fault none is started.
        ensures idle { started self.old ≡ false → result ≡ Ok 0 }
        ensures ended { result ≡ Ok 0 → started self.new ≡ false }
        ensures stopped { OnErr result (started self.new ≡ false) }

        ensures names { asked self.new ≡ asked self.old }
        ensures kept { held self.new ≡ held self.old }
        ensures count { fault_count self.old ≤ fault_count self.new }
        ensures cause { OnErr result (Rose (fault_count self.old) (fault_count self.new)) };

    /// How many faults there were since the object was made. The count stops at `u64::MAX`.
    fn faults(&self) -> u64
        ensures { result ≡ fault_count self.now };

    /// How many bytes were moved since the last name was asked for. The count stops at `u64::MAX`.
    fn moved(&self) -> u64
        ensures { result ≡ moved self.now };

    // The bytes left are told exactly where those of the names are. Since no call changes what the
    // names hold, whether an object tells its bytes never changes.
    ghost tells: { (s : Self) → is_some (left s) ≡ is_some (held s) };

    // Where no file is started, nothing is left of one.
    ghost nothing_left: { (s : Self) → started s ≡ false → IsAtEnd (left s) };
}
