//! The plain data of a network and of a design.

use duct_units::{List, Name};

/// What a section in one of its sizes loses and costs beside one size of its neighbour.
#[derive(Clone, Copy, Debug, PartialEq, Eq)]
pub struct Pair {
    /// The total pressure that the section loses, dPa.
    pub loss: u64,
    /// What the section costs, cents.
    pub price: u64,
}

/// A fan on offer.
#[derive(Clone, Copy)]
pub struct NetFan {
    /// The name by which a design names it.
    pub name: Name,
    /// The pressure that the fan gives, dPa.
    pub pressure: u64,
    /// What the fan costs with its energy, cents.
    pub cost: u64,
}

/// A choice of one fan, or of one on each side, and of one size for each section.
#[derive(Debug, Drop)]
pub struct Design {
    /// The number of the fan.
    pub fan: u32,
    /// The number of the return side's own fan; None where the fan serves both sides.
    pub back: Option<u32>,
    /// Of each section in order the number of its size, in the section's own list.
    pub sizes: List<u32>,
}
