//! The standard output. It tells nothing of what it took.
ghost use Rattle.std.specs.Prelude.{◌≡◌, ◌<◌, ◌≤◌, None, length, take, is_ok, IfOk, OnErr};
ghost use Rattle.std.specs.Io.KnownBytes.{Appends, Keeps};
ghost use Rattle.duct_ports.specs.Faults.{Rose, faults_after};
ghost use Rattle.duct_ports.specs.Writing.{count_written};

use crate::sink::{Sink, SinkFault};
use std::io;

/// Writes to the standard output.
#[derive(Drop)]
pub struct StdSink<'r, R: Print> {
    rt: &'r R,
    faults: u64,
}

impl<'r, R: Print> StdSink<'r, R> {
    /// The standard output of the runtime.
    pub fn new(rt: &'r R) -> StdSink<'r, R>
        ensures bytes { ⟦<StdSink<'r, R> as Sink>⟧.taken result ≡ None }
        ensures faults { ⟦<StdSink<'r, R> as Sink>⟧.fault_count result ≡ 0 }
    {
        StdSink { rt, faults: 0 }
    }

    /// What a write answered: so many bytes; none, or an error, is a fault, which is counted.
    fn answered(&mut self, answer: io::Result<usize>) -> Result<usize, SinkFault>
        ensures value { IfOk result (λ n. count_written answer ≡ n) }
        ensures some { IfOk result (λ n. 1 ≤ n) }
        ensures fault { OnErr result (count_written answer ≡ 0) }
        ensures faults { self.new.faults ≡ faults_after self.old.faults (is_ok result) }
        ensures count { self.old.faults ≤ self.new.faults }
        ensures cause { OnErr result (Rose self.old.faults self.new.faults) }
    {
        match answer {
            Ok(count) if 0 < count => Ok(count),
            _ => {
                self.faults = self.faults.saturating_add(1);
                Err(SinkFault)
            }
        }
    }
}

impl<'r, R: Print> Sink for StdSink<'r, R> {
    ghost taken = { λ _. None };

    ghost fault_count = { λ sink. sink.faults };

    /// A write that takes nothing is a fault.
    fn write(&mut self, piece: &[u8]) -> Result<usize, SinkFault>
        requires { 0 < length piece.now }

        ensures faults { self.new.faults ≡ faults_after self.old.faults (is_ok result) }

        // What the trait promises.
        ensures some { IfOk result (λ n. 1 ≤ n) }
        ensures bound { IfOk result (λ n. n ≤ length piece.now) }
        ensures bytes { IfOk result (λ n. Appends None None (take n piece.now)) }
        ensures kept { OnErr result (Keeps None None) }
        ensures count { self.old.faults ≤ self.new.faults }
        ensures cause { OnErr result (Rose self.old.faults self.new.faults) }
    {
        let answer = self.rt.write_some(piece);
        self.answered(answer)
    }

    fn faults(&self) -> u64 {
        self.faults
    }
}
