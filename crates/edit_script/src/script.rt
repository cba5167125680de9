//! The lines of a script.

use duct_units::Name;

/// What a section has from now on.
#[derive(Clone, Copy)]
pub enum Change {
    /// Its length, mm.
    Length(u64),
    /// The loss of its device, dPa.
    Device(u64),
    /// Its airflow, l/s.
    Airflow(u64),
    /// The size that it is to have; None where it may have any of its list.
    Preset(Option<Name>),
}

/// One line of a script.
#[derive(Clone, Copy)]
pub struct ScriptLine {
    /// The name of the section.
    pub section: Name,
    /// What it has from now on.
    pub change: Change,
}
