//! Who condenses a tree.
ghost use Rattle.std.specs.Prelude.{◌<◌, ◌≤◌};
ghost use Rattle.command_words.specs.declared.workers.TheConstants.{MAX_WORKERS};

use duct_ports::Gate;
use std::thread::Threads;

/// Threads of a runtime, each of which enters a gate before it condenses a section.
#[derive(Drop)]
pub struct Crew<'a, T, G> {
    pub rt: &'a T,
    pub gate: &'a G,
    pub workers: u32,
    ghost within: { (0 < workers) × (workers ≤ MAX_WORKERS) },
}
