//! Edit scripts: lines that each change one field of one section of a project.
//!
//! Lengths are in mm, losses of devices in dPa, airflows in l/s. The lines and their words: docs/FORMATS.md, "An edit
//! script".
#![tactic(auto)]

pub mod laws;
mod line;
mod reading;
mod script;

pub use reading::{MAX_LINES, read_script};
pub use script::{Change, ScriptLine};

#[cfg(test)]
mod tests;
