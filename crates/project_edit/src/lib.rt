//! A project that is changed step by step: one field of one section at a time.
//!
//! Lengths are in mm, pressures in dPa, airflows in l/s. Sections count from 0, in file order (docs/RULES.md, "Edits").
#![tactic(auto)]

mod edit;
mod editing;
mod laws;
mod touching;

pub use edit::{Edit, EditError};
pub use edit_script::Change;
pub use editing::edited;
pub use laws::{
    an_edited_project_is_a_project, an_untouched_section_is_as_before, refusals_of_edits,
    what_is_touched,
};
pub use touching::{is_touched, touched};
