//! A duct, and the air in it.

/// What the friction of a duct depends on.
#[derive(Clone, Copy)]
pub struct Duct {
    /// The inner cross-section, mm2.
    pub area: u64,
    /// The hydraulic diameter, mm.
    pub diameter: u64,
    /// The roughness of the wall, micrometres.
    pub rough: u64,
}

/// The air in all ducts.
#[derive(Clone, Copy)]
pub struct Air {
    /// Its density, g/m3.
    pub density: u64,
    /// Its dynamic viscosity, nPa s.
    pub viscosity: u64,
}
