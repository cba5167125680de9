//! The fans on offer at an airflow.
ghost use Rattle.std.specs.Prelude.{◌≡◌, ◌++◌, [], ◌∷◌, All, IfOk, OnOk};
ghost use Rattle.duct_definitions.specs.Network.{AreFans, IsFan};
ghost use Rattle.fan_points.specs.Energy.{IsEnergy};
ghost use Rattle.fan_points.specs.Fans.{IsFan as IsFanRow};
ghost use Rattle.net_build.specs.Fans.{offered, fan_at_cost};

use duct_definitions::NetFan;
use duct_units::{List, NoMemory};
use fan_points::{Energy, FanRow, Fans, eligible, energy};
use std::alloc::Global;

/// The fans that serve the airflow, l/s, in order, each at its price and the cost of its energy, cents.
pub fn offer(
    alloc: Global,
    fans: &Fans,
    terms: &Energy,
    flow: u64,
) -> Result<List<NetFan>, NoMemory>
    requires { IsEnergy terms.now }
    ensures value { IfOk result (λ offer. offer ≡ offered fans.now terms.now flow) }
    ensures fans { IfOk result AreFans }
{
    let mut offer = Vec::new(alloc);
    for i in 0..fans.len() {
        add_fan(&mut offer, &fans.fan(i), terms, flow)?;
    }
    Ok(List::from_vec(offer))
}

/// Adds the fan at its cost, where it serves the airflow.
fn add_fan(offer: &mut Vec<NetFan>, fan: &FanRow, terms: &Energy, flow: u64) -> Result<(), NoMemory>
    requires fan { IsFanRow fan.now }
    requires terms { IsEnergy terms.now }
    requires bounds { All IsFan offer.old.items }
    ensures value { OnOk result (offer.new.items ≡ offer.old.items ++ offered (fan.now ∷ []) terms.now flow) }
    ensures bounds { OnOk result (All IsFan offer.new.items) }
{
    if eligible(fan, flow) {
        offer.push(fan_at_cost(fan, terms))?;
    }
    Ok(())
}

/// The fan at its price and the cost of its energy.
fn fan_at_cost(fan: &FanRow, terms: &Energy) -> NetFan
    requires fan { IsFanRow fan.now }
    requires terms { IsEnergy terms.now }
    ensures value { result ≡ fan_at_cost terms.now fan.now }
    ensures bounds { IsFan result }
{
    NetFan {
        name: fan.name,
        pressure: fan.pressure,
        cost: fan.price + energy(fan, terms),
    }
}
