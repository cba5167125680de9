//! A sink in memory with a room, of whose calls those of some numbers fail.
ghost use Rattle.std.specs.Prelude.{◌≡◌, ◌<◌, ◌≤◌, ◌++◌, Some, length, take, is_ok, IfOk, OnErr};
ghost use Rattle.duct_ports.specs.Faults.{Rose};

use crate::calls::Calls;
use crate::sink::{Sink, SinkFault};
use duct_units::{List, NoMemory};
use std::alloc::Global;
use std::marker::Model;

/// A sink that keeps what it takes. The calls of `write` are numbered from 1.
#[derive(Drop)]
pub struct MemorySink {
    taken: Vec<u8>,
    room: u64,
    most: u64,
    calls: Calls,
    faults: u64,
}

impl Model for MemorySink {
    ghost use Rattle.duct_ports.specs.Memory.{SinkInMemory};

    ghost Value = { SinkInMemory };

    ghost use Rattle.duct_ports.specs.SinkFields.{seen, HasRoom};

    ghost view = { seen };

    ghost invariant = { HasRoom };
}

impl MemorySink {
    ghost use Rattle.duct_ports.specs.Memory.{empty_sink};

    /// `room` bytes are taken in all, at most `most` at once. `fails` has the numbers of the calls
    /// that fail.
    pub fn new(
        alloc: Global,
        room: u64,
        most: u64,
        fails: List<u32>,
    ) -> Result<MemorySink, NoMemory>
        requires { 1 ≤ most }
        ensures { IfOk result (λ sink. sink ≡ empty_sink room most fails) }
    {
        match Vec::with_capacity(alloc, room as usize) {
            Ok(taken) => Ok(MemorySink {
                taken,
                room,
                most,
                calls: Calls::new(fails),
                faults: 0,
            }),
            Err(_) => Err(NoMemory),
        }
    }

    /// What was taken so far.
    pub fn bytes(&self) -> &[u8]
        ensures { result.now ≡ self.now.taken }
    {
        self.taken.as_slice()
    }
}

impl Sink for MemorySink {
    ghost use Rattle.duct_ports.specs.Memory.{can_write, after_call, count_taken};
    ghost use Rattle.duct_ports.specs.Faults.{faults_after};

    ghost taken = { λ sink. Some sink.taken };

    ghost fault_count = { λ sink. sink.faults };

    /// A call whose number fails is a fault, and so is a call at full room.
    fn write(&mut self, piece: &[u8]) -> Result<usize, SinkFault>
        requires { 0 < length piece.now }

        ensures ok { is_ok result ≡ can_write self.old }
        ensures takes { IfOk result (λ n. n ≡ count_taken self.old piece.now) }
        ensures calls { self.new.calls ≡ after_call self.old.calls }
        ensures faults { self.new.faults ≡ faults_after self.old.faults (is_ok result) }
        ensures room { self.new.room ≡ self.old.room }
        ensures most { self.new.most ≡ self.old.most }

        // What the trait promises.
        ensures some { IfOk result (λ n. 1 ≤ n) }
        ensures bound { IfOk result (λ n. n ≤ length piece.now) }
        ensures bytes { IfOk result (λ n. self.new.taken ≡ self.old.taken ++ take n piece.now) }
        ensures kept { OnErr result (self.new.taken ≡ self.old.taken) }
        ensures count { self.old.faults ≤ self.new.faults }
        ensures cause { OnErr result (Rose self.old.faults self.new.faults) }
    {
        let left = self.room - self.taken.len() as u64;
        let fails = self.calls.next_fails();
        if left == 0 || fails {
            self.faults = self.faults.saturating_add(1);
            return Err(SinkFault);
        }
        let count = left.min(self.most).min(piece.len() as u64) as usize;
        match self.taken.extend_from_slice(&piece[..count]) {
            Ok(()) => Ok(count),
            Err(_) => unreachable!(),
        }
    }

    fn faults(&self) -> u64 {
        self.faults
    }
}
