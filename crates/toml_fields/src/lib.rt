//! Look-ups in a TOML document: what stands at a key, of which kind, and within which bounds.
//!
//! None of them refuses anything: which absence is which refusal is the reader's rule.
#![tactic(auto)]

mod arrays;
mod document;
mod fields;
mod names;
mod optional;
mod tables;
mod values;

pub use arrays::Arrays;
pub use document::{DocumentError, read_document};
pub use fields::{
    flag_at, has_key, has_only, integer_at, items_at, name_at, number_at, table_at, text_at,
};
pub use names::Names;
pub use optional::{optional_flag_at, optional_name_at, optional_number_at};
pub use tables::Tables;
pub use values::{are_arrays, are_names, are_tables, bounded, items_of, name_in};
