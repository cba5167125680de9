//! The rows of a CSV file, one after the other: the header, the number of fields, a field as a name or as a number
//! within bounds, and the fault at a row.
//!
//! Rows count from 1, and the header is row 1; fields count from 0. Which row is refused is the reader's rule.
#![tactic(auto)]

mod rows;

pub use rows::Rows;
