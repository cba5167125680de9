//! A sink of bytes.
ghost use Rattle.std.specs.Prelude.{◌≡◌, ◌<◌, ◌≤◌, ℕ, List, Option, length, take, is_some, IfOk, OnErr};
ghost use Rattle.std.specs.Io.KnownBytes.{Appends, Keeps};
ghost use Rattle.duct_ports.specs.Faults.{Rose};

use thiserror::Error;

/// Bytes were not taken.
#[derive(Debug, Drop, Error)]
#[error("bytes were not taken")]
pub struct SinkFault;

/// What takes bytes, piece by piece.
///
/// An object may tell proofs the bytes that it took, as a sink in memory does, or not, as the
/// standard output.
pub trait Sink {
    // the bytes taken so far, where the object tells them
    ghost taken: { Self → Option (List ℕ) };

    // the count of faults
    ghost fault_count: { Self → ℕ };

    /// Takes a prefix of `piece`, and answers how many bytes it took.
    fn write(&mut self, piece: &[u8]) -> Result<usize, SinkFault>
        requires { 0 < length piece.now }

        ensures some { IfOk result (λ n. 1 ≤ n) }
        ensures bound { IfOk result (λ n. n ≤ length piece.now) }
        ensures bytes { IfOk result (λ n.
            Appends (taken self.old) (taken self.new) (take n piece.now)) }
        ensures kept { OnErr result (Keeps (taken self.old) (taken self.new)) }
        ensures tells { is_some (taken self.new) ≡ is_some (taken self.old) }
        ensures count { fault_count self.old ≤ fault_count self.new }
        ensures cause { OnErr result (Rose (fault_count self.old) (fault_count self.new)) };

    /// How many faults there were since the object was made. The count stops at `u64::MAX`.
    fn faults(&self) -> u64
        ensures { result ≡ fault_count self.now };
}
