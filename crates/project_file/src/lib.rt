//! The project of a project file, or the first rule of the file that it breaks.
//!
//! Airflow is in l/s, lengths in mm, pressure in dPa; each field names its unit. Places of refusals count from 1, and 0
//! is the file as a whole (docs/FORMATS.md, "Project file").
#![tactic(auto)]

mod airflows;
mod depth;
mod energy_terms;
mod format;
mod head;
mod laws;
mod limits;
mod migration;
mod project;
mod raising;
mod reading;
mod section_row;
mod section_table;
mod sections;
mod size_limits;
mod top;

pub use airflows::read_flows;
pub use laws::{
    a_project_has_an_airflow_of_each_section, a_raised_document_is_the_same_project,
    a_value_is_put_at_its_key, limits_as_numbers,
};
pub use limits::{MAX_HEIGHT, MAX_VELOCITY};
pub use migration::migrate;
pub use project::Project;
pub use reading::read_project;
pub use section_row::SectionRow;
