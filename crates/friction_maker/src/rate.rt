//! The rate of a duct at an airflow.
ghost use Rattle.std.specs.Prelude.{◌≡◌, ◌≤◌, ◌<◌, ◌*◌};
ghost use Rattle.friction_maker.specs.Rate.{IsDuct, IsAir, IsFlow, factor_num, factor_den, corrected, root_of, rate_num, rate_den, rate_of, IsRoot, IsMadeRate, IsJustAbove};

use crate::air::{Air, Duct};
use crate::limits::{
    CORRECTED_BELOW, CORRECTION_MORE, CORRECTION_SHARE, FACTOR_SCALE, HUNDREDTHS, MAX_ROOT,
    RATE_UNITS, REYNOLDS_SHARE, REYNOLDS_UNITS, ROUGH_UNITS,
};

/// The friction rate of a duct at the airflow in l/s, mPa/m: that of its friction factor, rounded up once more
/// (docs/RULES.md, "Made friction rates").
pub fn made_rate(duct: Duct, air: Air, flow: u64) -> u64
    requires duct { IsDuct duct }
    requires air { IsAir air }
    requires flow { IsFlow flow }
    ensures value { result ≡ rate_of duct air flow }
    ensures rate { IsMadeRate duct air flow result }
    ensures near { IsJustAbove (rate_num (corrected (root_of duct air flow)) air flow) (rate_den duct) result }
{
    let factor = corrected(factor_root(duct, air, flow));
    let num = u128::from(RATE_UNITS * factor * air.density) * u128::from(flow * flow);
    let den = u128::from(duct.area * duct.area) * u128::from(duct.diameter);
    num.div_ceil(den) as u64
}

// The friction factor before its correction, millionths: the least whole number that is enough.
fn factor_root(duct: Duct, air: Air, flow: u64) -> u64
    requires duct { IsDuct duct }
    requires air { IsAir air }
    requires flow { IsFlow flow }
    ensures root { IsRoot duct air flow result }
    ensures value { result ≡ root_of duct air flow }
    ensures most { result < MAX_ROOT }
{
    let num = factor_num(duct, air, flow);
    let den = factor_den(duct, air, flow);
    // A fourth power is a whole number, so it isn't below the fraction where it isn't below the fraction rounded up; and
    // it is at least `power` exactly where it is above `power - 1`.
    let power = (u128::from(FACTOR_SCALE).pow(4) * u128::from(num)).div_ceil(u128::from(den));
    ((power - 1).isqrt().isqrt() + 1) as u64
}

fn factor_num(duct: Duct, air: Air, flow: u64) -> u64
    requires duct { IsDuct duct }
    requires air { IsAir air }
    requires flow { IsFlow flow }
    ensures value { result ≡ factor_num duct air flow }
    ensures most { result ≤ 4_680_000_000_000_000 }
    ensures above { 0 < result }
{
    ROUGH_UNITS * duct.rough * air.density * flow + REYNOLDS_SHARE * duct.area * air.viscosity
}

fn factor_den(duct: Duct, air: Air, flow: u64) -> u64
    requires duct { IsDuct duct }
    requires air { IsAir air }
    requires flow { IsFlow flow }
    ensures value { result ≡ factor_den duct air flow }
    ensures above { 0 < result }
{
    REYNOLDS_UNITS * air.density * flow * duct.diameter
}

// The factor where it is low enough to be corrected, rounded up.
fn corrected(root: u64) -> u64
    requires { root < MAX_ROOT }
    ensures value { result ≡ corrected root }
    ensures most { result ≤ MAX_ROOT }
{
    if root >= CORRECTED_BELOW {
        return root;
    }
    (CORRECTION_SHARE * root + CORRECTION_MORE).div_ceil(HUNDREDTHS)
}
