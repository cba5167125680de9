//! What is known of a section whatever its size.

/// What is known of a section whatever its size.
#[derive(Clone, Copy)]
pub struct SectionFacts {
    /// The density of the air, g/m3.
    pub density: u64,
    /// The airflow of the section, l/s.
    pub flow: u64,
    /// The airflow of its neighbour, l/s; 0 at the fan.
    pub neighbour_flow: u64,
    /// The length of the section, mm.
    pub length: u64,
    /// The coefficient of its fittings but for the junction, thousandths.
    pub local: u64,
    /// What its device loses, dPa.
    pub device: u64,
    /// The table of its junction, by number; None where nothing is lost at the junction.
    pub table: Option<u32>,
}
