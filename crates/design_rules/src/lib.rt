//! Rules of sizes, which a caller hands in: what a rule is asked, what it answers and counts, and four rules.
//!
//! Airflow is in l/s, areas in mm2, heights in mm, velocities in mm/s. Sections and sizes count from 0
//! (docs/RULES.md, "Rules of sizes").
#![tactic(auto)]

mod facts;
mod judging;
mod laws;
mod limits;
mod rule;
mod rules;

pub use facts::PairFacts;
pub use judging::judge;
pub use laws::{
    a_section_at_the_fan_may_have_any_area, height_in_numbers, limits_as_numbers,
    preset_in_numbers, taper_in_numbers, velocity_in_numbers,
};
pub use limits::{MAX_RULES, VELOCITY_UNITS};
pub use rule::SizeRule;
pub use rules::{HeightRule, PresetRule, TaperRule, VelocityRule};
