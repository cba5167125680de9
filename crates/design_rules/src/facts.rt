//! What a rule is asked about.

/// A section in one of its sizes, beside one of its neighbour's.
#[derive(Clone, Copy)]
pub struct PairFacts {
    /// The number of the section, from 0 in file order.
    pub section: u32,
    /// The place of its size in the section's list, from 0.
    pub size: u32,
    /// The place of the neighbour's size in the neighbour's list, from 0; 0 at the fan.
    pub beside: u32,
    /// Whether the section stands at the fan, and so has no neighbour.
    pub at_fan: bool,
    /// The airflow of the section, l/s.
    pub flow: u64,
    /// The area of its size, mm2.
    pub area: u64,
    /// The height of its size, mm.
    pub height: u64,
    /// The area of the neighbour's size, mm2; 0 at the fan.
    pub beside_area: u64,
    /// The greatest velocity that the project allows in the section, mm/s; None without a limit.
    pub velocity_limit: Option<u64>,
    /// The greatest height that the project allows, mm; None without a limit.
    pub height_limit: Option<u64>,
    /// Whether the project asks that no section has a greater area than its neighbour.
    pub taper: bool,
    /// The place of the size that the section is to have, from 0; None where it may have any of its list.
    pub preset: Option<u32>,
}
