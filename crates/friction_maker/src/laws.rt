//! Laws of made rates. Each is the contract of a call that has nothing to do.
ghost use Rattle.std.specs.Prelude.{◌≡◌, length};
ghost use Rattle.duct_definitions.specs.declared.airflow.TheConstants.{MAX_FLOW};
ghost use Rattle.friction_table.specs.declared.limits.TheConstants.{MIN_FLOW, MAX_RATE, MAX_ROWS};
ghost use Rattle.friction_maker.specs.Making.{header};
ghost use Rattle.friction_maker.specs.Rate.{HasRate, IsDuct, IsAir, IsFlow, IsRoot, root_of};

use crate::air::{Air, Duct};
use crate::limits::{
    COLUMNS, CORRECTED_BELOW, CORRECTION_MORE, CORRECTION_SHARE, FACTOR_SCALE, HUNDREDTHS,
    MAX_DIAMETER, MAX_ROUGH, MAX_VISCOSITY, MIN_DIAMETER, MIN_ROWS, MIN_VISCOSITY, RATE_UNITS,
    REYNOLDS_SHARE, REYNOLDS_UNITS, ROUGH_UNITS,
};
use duct_definitions::{MAX_DENSITY, MIN_DENSITY};

/// The limits of docs/FORMATS.md, "Ducts", and the numbers of docs/RULES.md, "Made friction rates". Diameters are in
/// mm, roughness in micrometres, airflow in l/s, the rate in mPa/m, density in g/m3, viscosity in nPa s.
pub fn limits_as_numbers()
    ensures columns { (COLUMNS ≡ 5) × (length header ≡ 5) }
    ensures diameter { (MIN_DIAMETER ≡ 10) × (MAX_DIAMETER ≡ 10_000) }
    ensures rough { MAX_ROUGH ≡ 10_000 }
    ensures flow { (MIN_FLOW ≡ 1) × (MAX_FLOW ≡ 200_000) }
    ensures rows { (MIN_ROWS ≡ 1) × (MAX_ROWS ≡ 64) }
    ensures rate { MAX_RATE ≡ 1_000_000 }

    ensures density { (MIN_DENSITY ≡ 1) × (MAX_DENSITY ≡ 2_000) }
    ensures viscosity { (MIN_VISCOSITY ≡ 1) × (MAX_VISCOSITY ≡ 100_000) }

    ensures root { (FACTOR_SCALE ≡ 110_000) × (REYNOLDS_SHARE ≡ 68) }
    ensures threshold { CORRECTED_BELOW ≡ 18_000 }
    ensures correction { (CORRECTION_SHARE ≡ 85) × (CORRECTION_MORE ≡ 280_000) × (HUNDREDTHS ≡ 100) }
    ensures units { (ROUGH_UNITS ≡ 1_000) × (REYNOLDS_UNITS ≡ 1_000_000) × (RATE_UNITS ≡ 500) }
{}

/// The number that a made rate rests on is the root: the least whole number that is enough.
pub fn root_is_least(duct: Duct, air: Air, flow: u64)
    requires duct { IsDuct duct }
    requires air { IsAir air }
    requires flow { IsFlow flow }
    ensures { IsRoot duct air flow (root_of duct air flow) }
{}

/// In air of 1,200 g/m3 and 18,000 nPa s: a duct of 20,000 mm2 and 160 mm with a roughness of 90 micrometres has the
/// rates 2,136 and 7,678 at 100 and 200 l/s, and one of 50,000 mm2 and 250 mm with 30 has 4,074 at 500 l/s.
pub fn worked_rates()
    ensures first { HasRate (record { area = 20_000; diameter = 160; rough = 90 }) (record { density = 1_200; viscosity = 18_000 }) 100 22_775 2_136 }
    ensures second { HasRate (record { area = 20_000; diameter = 160; rough = 90 }) (record { density = 1_200; viscosity = 18_000 }) 200 20_474 7_678 }
    ensures corrected { HasRate (record { area = 50_000; diameter = 250; rough = 30 }) (record { density = 1_200; viscosity = 18_000 }) 500 16_675 4_074 }
{}
