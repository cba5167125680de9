//! The words of the trade that every crate uses: names, whole numbers and their rounding, lists, sides, and where
//! and why an input is refused.
//!
//! Places count from 1, and 0 is a file as a whole. Of several faults the first in the stated order is named
//! (specs/Rules.antt).
#![tactic(auto)]

mod compare;
mod fault;
pub mod laws;
mod list;
mod name;
mod number;
mod prices;
mod rounding;
mod side;

pub use fault::{Fault, NoMemory, Part, ReadError, Reason};
pub use list::List;
pub use name::{MAX_NAME_BYTES, Name};
pub use number::whole;
pub use prices::lesser;
pub use rounding::ceil_div;
pub use side::Side;
