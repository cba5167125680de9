//! Laws of a network file. Each is the contract of a call that has nothing to do.
ghost use Rattle.std.specs.Prelude.{◌≡◌, length};
ghost use Rattle.network_file.specs.TopTable.{top_keys};
ghost use Rattle.network_file.specs.FanTables.{fan_keys};
ghost use Rattle.network_file.specs.SectionTables.{section_keys};

use crate::pairs::MAX_PAIRS;
use duct_definitions::{
    MAX_FAN_COST, MAX_FANS, MAX_LOSS, MAX_PRESSURE, MAX_PRICE, MAX_SECTIONS, MAX_SIZES,
};

/// The limits of docs/FORMATS.md, "Network file", as numbers. Pressures and losses are in dPa, costs and prices in
/// cents.
pub fn limits_as_numbers()
    ensures keys { (length top_keys ≡ 4) × (length fan_keys ≡ 3) × (length section_keys ≡ 5) }
    ensures counts { (MAX_FANS ≡ 64) × (MAX_SECTIONS ≡ 500) × (MAX_SIZES ≡ 24) × (MAX_PAIRS ≡ 576) }
    ensures fan { (MAX_PRESSURE ≡ 20_000) × (MAX_FAN_COST ≡ 100_000_000_000_000) }
    ensures pair { (MAX_LOSS ≡ 1_000_000_000_000_000) × (MAX_PRICE ≡ 1_000_000_000_000) }
{}
