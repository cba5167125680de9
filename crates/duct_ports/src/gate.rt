//! Where a worker passes before it condenses a section.

/// A place that each worker enters, so that tests can hold workers up.
pub trait Gate: Sync {
    /// A worker calls it after it got the turn of the section, and before it condenses the section.
    /// Workers and sections are numbered from 0.
    fn enter(&self, worker: u32, section: u32);
}

/// A gate that lets every worker pass at once.
#[derive(Clone, Copy, Debug)]
pub struct OpenGate;

impl Gate for OpenGate {
    fn enter(&self, _worker: u32, _section: u32) {}
}
