//! A project.

use crate::section_row::SectionRow;
use air_tree::{AirTree, Flows};
use duct_units::{List, Name};
use fan_points::Energy;

/// What a project file says, with the tree and the airflows of its sections.
#[derive(Drop)]
pub struct Project {
    /// Its name.
    pub name: Name,
    /// The density of the air, g/m3.
    pub density: u64,
    /// The terms on which energy is bought.
    pub energy: Energy,
    /// Whether no section may be larger than its neighbour.
    pub taper: bool,
    /// The tree of its sections.
    pub tree: AirTree,
    /// The airflow of each section and of each side, l/s.
    pub flows: Flows,
    /// What it says of each section, in file order.
    pub sections: List<SectionRow>,
}
