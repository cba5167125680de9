//! The catalogue of duct sizes, in lists: which sizes there are, and what each one is.
//!
//! Areas are in mm2, heights in mm, money in cents. Lists, sizes and places in a list count from 0, in file order
//! (docs/FORMATS.md, "Sizes").
#![tactic(auto)]

mod laws;
mod limits;
mod numbers;
mod reading;
mod row;
mod sizes;

pub use laws::{limits_as_numbers, sizes_are_a_catalogue};
pub use limits::{
    COLUMNS, MAX_AREA, MAX_HEIGHT, MAX_JOIN_PRICE, MAX_LIST_SIZES, MAX_LISTS, MAX_METRE_PRICE,
    MIN_AREA, MIN_HEIGHT,
};
pub use reading::read_sizes;
pub use row::{Size, SizeRow};
pub use sizes::Sizes;
