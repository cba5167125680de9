//! The terms on which energy is bought.

/// The terms on which energy is bought.
#[derive(Clone, Copy)]
pub struct Energy {
    /// The hours that the fan runs in a year.
    pub hours: u64,
    /// The price of energy, hundredths of a cent per kWh.
    pub tariff: u64,
    /// The present worth of a yearly cost, thousandths.
    pub worth: u64,
}
