//! The fields of a printed answer.

use duct_units::{List, Name};

/// The fields of a printed design, in the order of its lines.
#[derive(Drop)]
pub struct Listed {
    /// The name of the project.
    pub project: Name,
    /// The name of the fan.
    pub fan: Name,
    /// The pressure that the fan gives, dPa.
    pub pressure: u64,
    /// What the fan costs with its energy, cents.
    pub fan_cost: u64,
    /// The return side's own fan; None where the fan serves both sides.
    pub back: Option<ListedFan>,
    /// The greatest loss of a supply path, dPa.
    pub supply_worst: u64,
    /// The pressure that each supply path has, dPa.
    pub supply_head: u64,
    /// The greatest loss of a return path, dPa.
    pub return_worst: u64,
    /// The pressure that each return path has, dPa.
    pub return_head: u64,
    /// The sections, in file order.
    pub sections: List<ListedSection>,
    /// What the fans and all sections cost together, cents.
    pub total: u64,
}

/// The fields of a return fan's line in a printed design.
#[derive(Clone, Copy)]
pub struct ListedFan {
    /// The name of the fan.
    pub name: Name,
    /// The pressure that the fan gives, dPa.
    pub pressure: u64,
    /// What the fan costs with its energy, cents.
    pub cost: u64,
}

/// The fields of a section's line in a printed design.
#[derive(Clone, Copy)]
pub struct ListedSection {
    /// The name of the section.
    pub name: Name,
    /// The name of its size.
    pub size: Name,
    /// What it loses, dPa.
    pub loss: u64,
    /// What it costs, cents.
    pub price: u64,
    /// The pressure that the section's damper takes, dPa.
    pub damper: u64,
}

/// How many pairs a rule on sizes refused.
#[derive(Clone, Copy)]
pub struct RuleCount {
    /// The name of the rule.
    pub name: Name,
    /// How many pairs it refused.
    pub count: u64,
}
