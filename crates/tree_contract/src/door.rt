//! A gate as one worker sees it, who doesn't share it with others.
use duct_ports::Gate;

/// Where a worker passes before it condenses a section. Every gate is one.
pub trait Door {
    /// The worker of this number is about to condense this section.
    fn tell(&self, worker: u32, section: u32);
}

impl<G: Gate> Door for G {
    fn tell(&self, worker: u32, section: u32) {
        self.enter(worker, section);
    }
}
