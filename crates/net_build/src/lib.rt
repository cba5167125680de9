//! The network of a project: what each of its sections may be, by its catalogues and by rules that a caller hands in.
//!
//! Airflow is in l/s, areas in mm2, losses and pressures in dPa, money in cents. Sections, sizes and fans count from 0;
//! places of refusals count from 1 (docs/RULES.md, "The network of a project").
#![tactic(auto)]

mod asking;
mod building;
mod by_section;
mod catalogues;
mod laws;
mod limits;
mod offering;
mod sections;

pub use building::{build, build_by_section, build_with};
pub use by_section::{BuiltSection, Refusals, build_section, count_together};
pub use catalogues::place_in_list;
pub use duct_definitions::RuleCount;
pub use laws::limits_as_numbers;
pub use limits::{MAX_ASKED, MAX_SECTION_ASKED};
pub use offering::offer;
