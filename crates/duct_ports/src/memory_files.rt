//! Files in memory, of whose calls those of some numbers fail.
ghost use Rattle.std.specs.Prelude.{◌≡◌, ◌<◌, ◌≤◌, ◌++◌, [], ◌∷◌, refl, None, false, length, take, is_ok, IfOk, OnOk, OnErr};
ghost use Rattle.std.specs.Io.KnownBytes.{Consumes};
ghost use Rattle.duct_ports.specs.Faults.{Rose};
ghost use Rattle.duct_ports.specs.Reading.{IsBegun, moved_after};

use crate::calls::Calls;
use crate::files::{FileFault, Files, MAX_NAMES};
use crate::held::{HeldFile, HeldFiles};
use crate::names::Names;
use duct_units::List;
use std::marker::Model;

/// Files in memory. The calls of `start`, and the calls of `read` while a file is started, are
/// numbered together from 1.
#[derive(Drop)]
pub struct MemoryFiles<'w> {
    held: HeldFiles,
    asked: Names<'w>,
    calls: Calls,
    faults: u64,
    moved: u64,
}

impl<'w> Model for MemoryFiles<'w> {
    ghost use Rattle.duct_ports.specs.Memory.{FilesInMemory};

    ghost Value = { FilesInMemory };

    ghost use Rattle.duct_ports.specs.FilesFields.{seen};

    ghost view = { seen };
}

impl<'w> MemoryFiles<'w> {
    ghost use Rattle.duct_ports.specs.Memory.{not_called};
    ghost use Rattle.duct_ports.specs.Faults.{one_more};

    /// `fails` has the numbers of the calls that fail.
    pub fn new(files: List<HeldFile>, fails: List<u32>) -> MemoryFiles<'w>
        ensures files { result.files ≡ files }
        ensures idle { result.left ≡ None }
        ensures names { result.asked ≡ [] }
        ensures calls { result.calls ≡ not_called fails }
        ensures faults { result.faults ≡ 0 }
        ensures moved { result.moved ≡ 0 }
    {
        MemoryFiles {
            held: HeldFiles::new(files),
            asked: Names::new(),
            calls: Calls::new(fails),
            faults: 0,
            moved: 0,
        }
    }

    /// Lets the started file go, and counts a fault.
    fn fail(&mut self) -> FileFault
        ensures stopped { self.new.left ≡ None }
        ensures files { self.new.files ≡ self.old.files }
        ensures faults { self.new.faults ≡ one_more self.old.faults }
        ensures count { self.old.faults ≤ self.new.faults }
        ensures names { self.new.asked ≡ self.old.asked }
        ensures calls { self.new.calls ≡ self.old.calls }
        ensures moved { self.new.moved ≡ self.old.moved }
    {
        self.held.stop();
        self.faults = self.faults.saturating_add(1);
        FileFault
    }
}

impl<'w> Files<'w> for MemoryFiles<'w> {
    ghost use Rattle.duct_ports.specs.NamedFiles.{rest_of-none};
    ghost use Rattle.duct_ports.specs.Memory.{held_by, left_of, is_started};
    ghost use Rattle.duct_ports.specs.Memory.{can_start, can_read, count_moved};
    ghost use Rattle.duct_ports.specs.Memory.{after_call, calls_after_read};
    ghost use Rattle.duct_ports.specs.Faults.{faults_after};

    ghost asked = { λ source. source.asked };

    ghost held = { held_by };

    ghost left = { left_of };

    ghost started = { is_started };

    ghost moved = { λ source. source.moved };

    ghost fault_count = { λ source. source.faults };

    ghost tells = { λ _. refl };

    ghost nothing_left = { λ source. rest_of-none source.left };

    /// A call whose number fails is a fault, and so is the start of a name that isn't held.
    fn start(&mut self, name: &'w str) -> Result<(), FileFault>
        requires { length self.old.asked < MAX_NAMES }

        ensures ok { is_ok result ≡ can_start self.old name.now }
        ensures calls { self.new.calls ≡ after_call self.old.calls }
        ensures faults { self.new.faults ≡ faults_after self.old.faults (is_ok result) }

        // What the trait promises.
        ensures names { self.new.asked ≡ self.old.asked ++ name.now ∷ [] }
        ensures started { is_started self.new ≡ is_ok result }
        ensures begun { OnOk result (IsBegun (held_by self.old) name.now (left_of self.new)) }
        ensures fresh { self.new.moved ≡ 0 }
        ensures kept { self.new.files ≡ self.old.files }
        ensures count { self.old.faults ≤ self.new.faults }
        ensures cause { OnErr result (Rose self.old.faults self.new.faults) }
    {
        self.asked.add(name);
        self.moved = 0;
        let fails = self.calls.next_fails();
        let is_held = self.held.start(name.as_bytes());
        if is_held && !fails {
            return Ok(());
        }
        Err(self.fail())
    }

    /// A call whose number fails is a fault. Where no file is started the call has no number.
    fn read(&mut self, buf: &mut [u8]) -> Result<usize, FileFault>
        requires { 0 < length buf.old }

        ensures ok { is_ok result ≡ can_read self.old }
        ensures fills { IfOk result (λ n. n ≡ count_moved self.old buf.old) }
        ensures calls { self.new.calls ≡ calls_after_read self.old }
        ensures faults { self.new.faults ≡ faults_after self.old.faults (is_ok result) }

        // What the trait promises.
        ensures bound { IfOk result (λ n. n ≤ length buf.old) }
        ensures bytes { IfOk result (λ n.
            Consumes (left_of self.old) (left_of self.new) (take n buf.new)) }
        ensures moved { IfOk result (λ n. self.new.moved ≡ moved_after self.old.moved n) }
        ensures unmoved { OnErr result (self.new.moved ≡ self.old.moved) }
        ensures idle { is_started self.old ≡ false → result ≡ Ok 0 }
        ensures ended { result ≡ Ok 0 → is_started self.new ≡ false }
        ensures stopped { OnErr result (is_started self.new ≡ false) }
        ensures names { self.new.asked ≡ self.old.asked }
        ensures kept { self.new.files ≡ self.old.files }
        ensures count { self.old.faults ≤ self.new.faults }
        ensures cause { OnErr result (Rose self.old.faults self.new.faults) }
    {
        if self.held.is_started() && self.calls.next_fails() {
            return Err(self.fail());
        }
        let count = self.held.read(buf);
        self.moved = self.moved.saturating_add(count as u64);
        Ok(count)
    }

    fn faults(&self) -> u64 {
        self.faults
    }

    fn moved(&self) -> u64 {
        self.moved
    }
}
