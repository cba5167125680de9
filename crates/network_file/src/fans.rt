//! The fans.
ghost use Rattle.std.specs.Prelude.{◌≡◌, ◌≤◌, length, map};
ghost use Rattle.toml.specs.View.{table_view};
ghost use Rattle.duct_units.specs.Rules.{Gives, unless_refused, first_broken};
ghost use Rattle.file_definitions.specs.Elements.{each};
ghost use Rattle.toml_fields.specs.ArrayItems.{tables_in};
ghost use Rattle.network_file.specs.FanTables.{all_fan_rules, fan_rules, fan_table_rules, fan_of};

use duct_definitions::{MAX_FAN_COST, MAX_FANS, MAX_PRESSURE, NetFan};
use duct_units::{Fault, List, ReadError, Reason};
use name_index::NameIndex;
use std::alloc::Global;
use toml::Table;
use toml_fields::{Tables, has_only, name_at, number_at};

/// The fans of the tables, or the first rule that is broken: too many of them; then fan by fan its table, and a
/// name that an earlier one has.
pub(crate) fn read_fans(alloc: Global, tables: &Tables) -> Result<List<NetFan>, ReadError>
    ensures { let fans = tables_in tables.now in
        Gives result (unless_refused (first_broken (all_fan_rules fans)) (map fan_of fans)) }
{
    if tables.len() > MAX_FANS {
        return Err(ReadError::Refused(Fault::of_file(Reason::TooMany)));
    }
    read_fan_tables(alloc, tables)
}

/// The fans, where they are few enough.
fn read_fan_tables(alloc: Global, tables: &Tables) -> Result<List<NetFan>, ReadError>
    requires { length (tables_in tables.now) ≤ MAX_FANS }
    ensures { let fans = tables_in tables.now in
        Gives result (unless_refused (first_broken (each fan_rules fans)) (map fan_of fans)) }
{
    let mut names = NameIndex::new(alloc);
    let mut fans = Vec::with_capacity(alloc, tables.len()).map_err(|_| ReadError::NoMemory)?;
    for i in 0..tables.len() {
        let place = i as u32 + 1;
        let fan = read_fan(tables.get(i), place)?;
        if !names.add(fan.name)? {
            return Err(ReadError::Refused(Fault::of_fan(place, Reason::Twice)));
        }
        if fans.push(fan).is_err() {
            return Err(ReadError::NoMemory);
        }
    }
    Ok(List::from_vec(fans))
}

/// The fan of a table, or the first of its keys that is refused.
fn read_fan(table: &Table, place: u32) -> Result<NetFan, Fault>
    ensures { let fan = table_view table.now in
        result ≡ unless_refused (first_broken (fan_table_rules place fan)) (fan_of fan) }
{
    if !has_only(table, &["name", "pressure", "cost"]) {
        return Err(Fault::of_fan(place, Reason::Key));
    }
    let Some(name) = name_at(table, "name") else {
        return Err(Fault::of_fan(place, Reason::Field));
    };
    let Some(pressure) = number_at(table, "pressure", 1, MAX_PRESSURE) else {
        return Err(Fault::of_fan(place, Reason::Field));
    };
    let Some(cost) = number_at(table, "cost", 0, MAX_FAN_COST) else {
        return Err(Fault::of_fan(place, Reason::Field));
    };
    Ok(NetFan {
        name,
        pressure,
        cost,
    })
}
