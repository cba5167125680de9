//! Names in the order in which they were given, no two equal, each found by its bytes.
//!
//! Places count from 0. A look-up takes the same time however many names there are.
#![tactic(auto)]

mod index;

pub use index::NameIndex;
