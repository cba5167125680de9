//! Files and a sink that never fail, and whose count of faults is the constant 0.
ghost use Rattle.std.specs.Prelude.{◌≡◌, ◌<◌, [], refl, Some, None, false, length, is_some};

use crate::files::{FileFault, Files};
use crate::held::{HeldFile, HeldFiles};
use crate::names::Names;
use crate::sink::{Sink, SinkFault};
use duct_units::List;

/// Files in memory. A name that isn't held reads as empty.
#[derive(Drop)]
pub struct SureFiles<'w> {
    held: HeldFiles,
    asked: Names<'w>,
    moved: u64,
}

impl<'w> SureFiles<'w> {
    ghost use Rattle.duct_ports.specs.NamedFiles.{contents_of};

    /// These files; none is started.
    pub fn new(files: List<HeldFile>) -> SureFiles<'w>
        ensures names { ⟦<SureFiles<'w> as Files<'w>>⟧.asked result ≡ [] }
        ensures idle { ⟦<SureFiles<'w> as Files<'w>>⟧.started result ≡ false }
        ensures held { ⟦<SureFiles<'w> as Files<'w>>⟧.held result ≡ Some (contents_of files) }
    {
        SureFiles {
            held: HeldFiles::new(files),
            asked: Names::new(),
            moved: 0,
        }
    }
}

impl<'w> Files<'w> for SureFiles<'w> {
    ghost use Rattle.duct_ports.specs.NamedFiles.{contents_of, rest_of, rest_of-none};

    ghost asked = { λ files. files.asked };

    ghost held = { λ files. Some (contents_of files.held.files) };

    ghost left = { λ files. Some (rest_of files.held.left) };

    ghost started = { λ files. is_some files.held.left };

    ghost moved = { λ files. files.moved };

    ghost fault_count = { λ _. 0 };

    ghost tells = { λ _. refl };

    ghost nothing_left = { λ files. rest_of-none files.held.left };

    fn start(&mut self, name: &'w str) -> Result<(), FileFault> {
        self.asked.add(name);
        self.moved = 0;
        let _is_held = self.held.start(name.as_bytes());
        Ok(())
    }

    fn read(&mut self, buf: &mut [u8]) -> Result<usize, FileFault> {
        let count = self.held.read(buf);
        self.moved = self.moved.saturating_add(count as u64);
        Ok(count)
    }

    fn faults(&self) -> u64 {
        0
    }

    fn moved(&self) -> u64 {
        self.moved
    }
}

/// Takes every piece whole, and keeps nothing.
#[derive(Debug, Drop)]
pub struct SureSink;

impl SureSink {
    /// A sink that has taken nothing.
    pub fn new() -> SureSink
        ensures bytes { ⟦<SureSink as Sink>⟧.taken result ≡ None }
        ensures faults { ⟦<SureSink as Sink>⟧.fault_count result ≡ 0 }
    {
        SureSink
    }
}

impl Sink for SureSink {
    ghost taken = { λ _. None };

    ghost fault_count = { λ _. 0 };

    fn write(&mut self, piece: &[u8]) -> Result<usize, SinkFault>
        requires { 0 < length piece.now }
        ensures { result ≡ Ok (length piece.now) }
    {
        Ok(piece.len())
    }

    fn faults(&self) -> u64 {
        0
    }
}
