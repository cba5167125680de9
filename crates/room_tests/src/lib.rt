//! Tests that cross crates: calls on what several crates make together, mostly on cases worked by hand, each a line of a
//! table.
//!
//! A module has at most one table. `texts` says how a table spells a file.
#![tactic(auto)]

#[cfg(test)]
mod certificates;
#[cfg(test)]
mod counters;
#[cfg(test)]
mod fans;
#[cfg(test)]
mod fittings;
#[cfg(test)]
mod flows;
#[cfg(test)]
mod friction;
#[cfg(test)]
mod fronts;
#[cfg(test)]
mod hostile_rules;
#[cfg(test)]
mod made_friction;
#[cfg(test)]
mod many_workers;
#[cfg(test)]
mod projects;
#[cfg(test)]
mod schedule;
#[cfg(test)]
mod sizes;
#[cfg(test)]
mod texts;
#[cfg(test)]
mod trees;
