//! Real files. They tell nothing of their contents.
ghost use Rattle.std.specs.Prelude.{◌≡◌, ◌≢◌, ◌<◌, ◌≤◌, ◌++◌, [], ◌∷◌, refl, None, false, length, take, is_some, is_ok, IfOk, OnOk, OnErr, IsErr, MatchResult};
ghost use Rattle.std.specs.Io.KnownBytes.{Consumes};
ghost use Rattle.duct_ports.specs.Faults.{Rose, faults_after};
ghost use Rattle.duct_ports.specs.Reading.{IsBegun, moved_after};

use crate::files::{FileFault, Files, MAX_NAMES};
use crate::names::Names;
use std::fs;
use std::io::{self, Read};

/// Files of the runtime, by their paths.
#[derive(Drop)]
pub struct DiskFiles<'r, 'w, R: std::rt::Files> {
    rt: &'r R,
    asked: Names<'w>,
    file: Option<R::File>,
    faults: u64,
    moved: u64,
}

impl<'r, 'w, R: std::rt::Files> DiskFiles<'r, 'w, R> {
    /// The files of the runtime; none is started.
    pub fn new(rt: &'r R) -> DiskFiles<'r, 'w, R>
        ensures names { ⟦<DiskFiles<'r, 'w, R> as Files<'w>>⟧.asked result ≡ [] }
        ensures idle { ⟦<DiskFiles<'r, 'w, R> as Files<'w>>⟧.started result ≡ false }
        ensures faults { ⟦<DiskFiles<'r, 'w, R> as Files<'w>>⟧.fault_count result ≡ 0 }
    {
        DiskFiles {
            rt,
            asked: Names::new(),
            file: None,
            faults: 0,
            moved: 0,
        }
    }

    /// Starts the file, where it was opened; else counts a fault.
    fn opened(&mut self, file: io::Result<R::File>) -> Result<(), FileFault>
        ensures ok { is_ok result ≡ is_ok file }
        ensures started { is_some self.new.file ≡ is_ok file }
        ensures moved { self.new.moved ≡ self.old.moved }
        ensures names { self.new.asked ≡ self.old.asked }
        ensures faults { self.new.faults ≡ faults_after self.old.faults (is_ok file) }
        ensures count { self.old.faults ≤ self.new.faults }
        ensures cause { OnErr result (Rose self.old.faults self.new.faults) }
    {
        let Ok(file) = file else {
            return Err(self.fail());
        };
        self.file = Some(file);
        Ok(())
    }

    /// What a read of the started file answered: so many bytes, 0 at its end, or a fault, which is counted.
    fn answered(&mut self, answer: io::Result<usize>) -> Result<usize, FileFault>
        ensures value { MatchResult answer (λ n. result ≡ Ok n) (λ _. IsErr result) }
        ensures kept { IfOk answer (λ n. n ≢ 0 → self.new.file ≡ self.old.file) }
        ensures ended { result ≡ Ok 0 → self.new.file ≡ None }
        ensures stopped { OnErr result (self.new.file ≡ None) }
        ensures moved { IfOk result (λ n. self.new.moved ≡ moved_after self.old.moved n) }
        ensures unmoved { OnErr result (self.new.moved ≡ self.old.moved) }
        ensures names { self.new.asked ≡ self.old.asked }
        ensures faults { self.new.faults ≡ faults_after self.old.faults (is_ok answer) }
        ensures count { self.old.faults ≤ self.new.faults }
        ensures cause { OnErr result (Rose self.old.faults self.new.faults) }
    {
        match answer {
            Ok(count) => {
                if count == 0 {
                    self.file = None;
                }
                self.moved = self.moved.saturating_add(count as u64);
                Ok(count)
            }
            Err(_) => Err(self.fail()),
        }
    }

    /// Lets the file go, and counts a fault.
    fn fail(&mut self) -> FileFault
        ensures file { self.new.file ≡ None }
        ensures moved { self.new.moved ≡ self.old.moved }
        ensures names { self.new.asked ≡ self.old.asked }
        ensures faults { self.new.faults ≡ faults_after self.old.faults false }
        ensures count { self.old.faults ≤ self.new.faults }
        ensures cause { Rose self.old.faults self.new.faults }
    {
        self.file = None;
        self.faults = self.faults.saturating_add(1);
        FileFault
    }
}

impl<'r, 'w, R: std::rt::Files> Files<'w> for DiskFiles<'r, 'w, R> {
    ghost asked = { λ files. files.asked };

    ghost held = { λ _. None };

    ghost left = { λ _. None };

    ghost started = { λ files. is_some files.file };

    ghost moved = { λ files. files.moved };

    ghost fault_count = { λ files. files.faults };

    ghost tells = { λ _. refl };

    ghost nothing_left = { λ _ _. tt };

    /// A path that can't be opened is a fault.
    fn start(&mut self, name: &'w str) -> Result<(), FileFault>
        requires { length self.old.asked < MAX_NAMES }

        ensures faults { self.new.faults ≡ faults_after self.old.faults (is_ok result) }

        // What the trait promises.
        ensures names { self.new.asked ≡ self.old.asked ++ name.now ∷ [] }
        ensures started { is_some self.new.file ≡ is_ok result }
        ensures begun { OnOk result (IsBegun None name.now None) }
        ensures fresh { self.new.moved ≡ 0 }
        ensures count { self.old.faults ≤ self.new.faults }
        ensures cause { OnErr result (Rose self.old.faults self.new.faults) }
    {
        self.asked.add(name);
        self.moved = 0;
        let file = fs::open(self.rt, name);
        self.opened(file)
    }

    /// A read that fails is a fault.
    fn read(&mut self, buf: &mut [u8]) -> Result<usize, FileFault>
        requires { 0 < length buf.old }

        ensures faults { self.new.faults ≡ faults_after self.old.faults (is_ok result) }

        // What the trait promises.
        ensures bound { IfOk result (λ n. n ≤ length buf.old) }
        ensures bytes { IfOk result (λ n. Consumes None None (take n buf.new)) }
        ensures moved { IfOk result (λ n. self.new.moved ≡ moved_after self.old.moved n) }
        ensures unmoved { OnErr result (self.new.moved ≡ self.old.moved) }
        ensures idle { is_some self.old.file ≡ false → result ≡ Ok 0 }
        ensures ended { result ≡ Ok 0 → is_some self.new.file ≡ false }
        ensures stopped { OnErr result (is_some self.new.file ≡ false) }
        ensures names { self.new.asked ≡ self.old.asked }
        ensures count { self.old.faults ≤ self.new.faults }
        ensures cause { OnErr result (Rose self.old.faults self.new.faults) }
    {
        let answer = match &mut self.file {
            Some(file) => file.read(buf),
            None => Ok(0),
        };
        self.answered(answer)
    }

    fn faults(&self) -> u64 {
        self.faults
    }

    fn moved(&self) -> u64 {
        self.moved
    }
}
