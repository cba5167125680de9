//! What a project says of a section, apart from the tree.

use duct_units::Name;

/// What a project says of a section, apart from the tree. Lists, fitting tables and sizes are named, and nothing says
/// here that a catalogue has them.
#[derive(Clone, Copy)]
pub struct SectionRow {
    /// Its name, which no other section has.
    pub name: Name,
    /// Its length, mm.
    pub length: u64,
    /// The list from which its size is chosen.
    pub list: Name,
    /// Its local coefficient, thousandths.
    pub local: u64,
    /// The fitting table of its junction with its neighbour; None where the junction loses nothing.
    pub junction: Option<Name>,
    /// The loss of its device, dPa.
    pub device: u64,
    /// The airflow at a leaf, l/s; None at any other section.
    pub airflow: Option<u64>,
    /// The size that it is to have; None where it may have any of its list.
    pub preset: Option<Name>,
    /// The greatest velocity in it, mm/s: its own limit, or else the project's; None where there is neither.
    pub velocity: Option<u64>,
    /// The greatest height of its size, mm: its own limit, or else the project's; None where there is neither.
    pub height: Option<u64>,
    /// What it leaks, in thousandths of the air that is to pass it.
    pub leak: u64,
}
