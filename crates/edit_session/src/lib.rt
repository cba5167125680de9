//! A project that is designed, changed step by step, and designed again after each step: only what a step touches is
//! built and condensed again.
//!
//! Pressures are in dPa, airflows in l/s, money in cents. Sections count from 0, in file order (docs/RULES.md,
//! "Edits").
#![tactic(auto)]

mod catalogues;
mod condensing;
pub mod laws;
mod limits;
mod making;
mod rebuilding;
mod session;
mod state;

pub use limits::MAX_EDITS;
pub use project_edit::{Change, Edit, EditError};
pub use session::Session;
