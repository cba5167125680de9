//! What the table of a section says of the tree, in a network file and in a project file: its name, its side and its
//! neighbour, and the tree that the sections of a file make.
//!
//! A refusal of a section has its place, which counts from 1 in file order (docs/FORMATS.md).
#![tactic(auto)]

mod neighbours;
mod tree;
mod tree_section;

pub use tree::read_tree;
pub use tree_section::{TreeSection, side_at};
