//! The limits of a ducts file and of the air, and the numbers of the formula.

/// The number of columns of a ducts file.
pub const COLUMNS: usize = 5;

/// The least diameter of a duct, mm.
pub const MIN_DIAMETER: u64 = 10;

/// The greatest diameter of a duct, mm.
pub const MAX_DIAMETER: u64 = 10_000;

/// The greatest roughness of a duct, micrometres.
pub const MAX_ROUGH: u64 = 10_000;

/// The least number of rows that are made for a size.
pub const MIN_ROWS: u64 = 1;

/// The least viscosity of air, nPa s.
pub const MIN_VISCOSITY: u64 = 1;

/// The greatest viscosity of air, nPa s.
pub const MAX_VISCOSITY: u64 = 100_000;

/// A roughness in micrometres by so many, over a diameter in mm by `REYNOLDS_UNITS`, is a plain number.
pub const ROUGH_UNITS: u64 = 1_000;

/// So many over the Reynolds number are added to the roughness over the diameter.
pub const REYNOLDS_SHARE: u64 = 68;

/// Density in g/m3 by airflow in l/s by diameter in mm, by so many, over area in mm2 by viscosity in nPa s, is the
/// Reynolds number.
pub const REYNOLDS_UNITS: u64 = 1_000_000;

/// The friction factor is so many millionths of the fourth root.
pub const FACTOR_SCALE: u64 = 110_000;

/// The friction factor below which it is corrected, millionths.
pub const CORRECTED_BELOW: u64 = 18_000;

/// What is left of a factor that is corrected, hundredths.
pub const CORRECTION_SHARE: u64 = 85;

/// What is added to a factor that is corrected, hundredths of a millionth.
pub const CORRECTION_MORE: u64 = 280_000;

/// So many hundredths are one.
pub const HUNDREDTHS: u64 = 100;

/// A factor in millionths by density in g/m3 by the square of an airflow in l/s, by so many, over diameter in mm by the
/// square of an area in mm2, is in mPa/m.
pub const RATE_UNITS: u64 = 500;

/// Every friction factor lies below so many millionths.
pub const MAX_ROOT: u64 = 10_000_000;
