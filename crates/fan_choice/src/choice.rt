//! A choice of one fan, or of one on each side, and of what each side may lose.

/// One fan, or one on each side, and what each side may lose.
#[derive(Clone, Copy, Debug, PartialEq, Eq)]
pub struct Choice {
    /// The number of the fan, from 0.
    pub fan: u32,
    /// The number of the return side's own fan, from 0; None where the fan serves both sides.
    pub back: Option<u32>,
    /// What the fans and both sides cost together, cents.
    pub cost: u64,
    /// The pressure that the supply side may lose, dPa.
    pub supply_budget: u64,
    /// The pressure that the return side may lose, dPa: what the supply budget leaves of the fan's, or with a return
    /// fan all of its pressure.
    pub return_budget: u64,
}
