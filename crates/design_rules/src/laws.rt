//! Laws of the four rules. Each is the contract of a call that has nothing to do.
ghost use Rattle.std.specs.Prelude.{◌≡◌, ◌<◌, ◌≤◌, ◌↔◌, ℕ, Some, None, true, false, IsTrue};
ghost use Rattle.design_rules.specs.Pairs.{is_preset, is_slow_enough, is_low_enough, is_tapered, is_within_velocity};
ghost use Rattle.design_rules.specs.declared.facts.PairFacts.{PairFacts};

use crate::limits::{MAX_RULES, VELOCITY_UNITS};

/// The limits of docs/RULES.md, "Rules of sizes", as numbers.
pub fn limits_as_numbers()
    ensures rules { MAX_RULES ≡ 16 }
    ensures units { VELOCITY_UNITS ≡ 1_000_000 }
{}

/// At 10,000 mm/s an area of 20,000 mm2 takes 200 l/s, and not 201; at 7,000 mm/s it takes 140, and not 141.
pub fn velocity_in_numbers()
    ensures at_10000 { (is_within_velocity 200 20_000 10_000 ≡ true) × (is_within_velocity 201 20_000 10_000 ≡ false) }
    ensures at_7000 { (is_within_velocity 140 20_000 7_000 ≡ true) × (is_within_velocity 141 20_000 7_000 ≡ false) }
    ensures no_limit { (facts : PairFacts) → facts.velocity_limit ≡ None → is_slow_enough facts ≡ true }
{}

/// Under a limit of 250 mm a size of 250 mm is allowed, and one of 251 mm is not.
pub fn height_in_numbers()
    ensures low { (facts : PairFacts) → facts.height_limit ≡ Some 250 → facts.height ≡ 250 → is_low_enough facts ≡ true }
    ensures high { (facts : PairFacts) → facts.height_limit ≡ Some 250 → facts.height ≡ 251 → is_low_enough facts ≡ false }
    ensures no_limit { (facts : PairFacts) → facts.height_limit ≡ None → is_low_enough facts ≡ true }
{}

/// Where the second size of the list is preset, it is allowed and the third is not.
pub fn preset_in_numbers()
    ensures second { (facts : PairFacts) → facts.preset ≡ Some 1 → facts.size ≡ 1 → is_preset facts ≡ true }
    ensures third { (facts : PairFacts) → facts.preset ≡ Some 1 → facts.size ≡ 2 → is_preset facts ≡ false }
    ensures no_preset { (facts : PairFacts) → facts.preset ≡ None → is_preset facts ≡ true }
{}

/// Beside a neighbour of 50,000 mm2 a section of 50,000 mm2 is allowed; one of 50,001 mm2 only where the project doesn't
/// ask for a taper.
pub fn taper_in_numbers()
    ensures equal { (facts : PairFacts) → facts.area ≡ 50_000 → facts.beside_area ≡ 50_000 → is_tapered facts ≡ true }
    ensures greater { (facts : PairFacts) → facts.at_fan ≡ false → facts.area ≡ 50_001 → facts.beside_area ≡ 50_000
        → (is_tapered facts ≡ true) ↔ (facts.taper ≡ false) }
{}

/// A section at the fan may have any area.
pub fn a_section_at_the_fan_may_have_any_area()
    ensures { (facts : PairFacts) → facts.at_fan ≡ true → is_tapered facts ≡ true }
{}
