//! The terms on which energy is bought.
ghost use Rattle.std.specs.Prelude.{◌≡◌, IfSome, IfOk};
ghost use Rattle.toml.specs.View.{table_view};
ghost use Rattle.duct_units.specs.Rules.{unless_refused, first_broken};
ghost use Rattle.fan_points.specs.Energy.{IsEnergy};
ghost use Rattle.project_file.specs.Energy.{energy_in, energy_of, energy_rules};

use duct_units::{Fault, Reason};
use fan_points::{Energy, MAX_HOURS, MAX_TARIFF, MAX_WORTH};
use toml::Table;
use toml_fields::{has_only, number_at, table_at};

/// The terms of the table `energy`, or its first refusal.
pub(crate) fn read_energy(document: &Table) -> Result<Energy, Fault>
    ensures value { let doc = table_view document.now in
        result ≡ unless_refused (first_broken (energy_rules doc)) (energy_in doc) }
    ensures bounds { IfOk result IsEnergy }
{
    let Some(table) = table_at(document, "energy") else {
        return Err(Fault::of_file(Reason::Field));
    };
    if !has_only(table, &["hours", "tariff", "worth"]) {
        return Err(Fault::of_file(Reason::Key));
    }
    match energy_of(table) {
        Some(energy) => Ok(energy),
        None => Err(Fault::of_file(Reason::Field)),
    }
}

fn energy_of(table: &Table) -> Option<Energy>
    ensures value { result ≡ energy_of (table_view table.now) }
    ensures bounds { IfSome result IsEnergy }
{
    Some(Energy {
        hours: number_at(table, "hours", 0, MAX_HOURS)?,
        tariff: number_at(table, "tariff", 0, MAX_TARIFF)?,
        worth: number_at(table, "worth", 0, MAX_WORTH)?,
    })
}
