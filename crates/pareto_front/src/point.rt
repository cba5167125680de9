//! A point of a front: what a choice of sizes needs, and what it costs.

/// A need in dPa, and the cost in cents that it buys.
#[derive(Clone, Copy, Debug, PartialEq, Eq)]
pub struct Point {
    /// The pressure that the choice needs, dPa.
    pub need: u64,
    /// What the choice costs, cents.
    pub cost: u64,
}

/// No point of the fronts of a network costs this much, cents: a fan and both sides then add up within 64 bits.
pub const COST_LIMIT: u64 = 1_000_000_000_000_000_000;
