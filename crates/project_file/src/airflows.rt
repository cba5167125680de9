//! The airflows of the sections.
ghost use Rattle.std.specs.Prelude.{◌≡◌, length, map, All, IfOk};
ghost use Rattle.duct_units.specs.Rules.{Gives, unless_refused, first_broken};
ghost use Rattle.duct_definitions.specs.Airflow.{flow_rules, flows_of};
ghost use Rattle.duct_definitions.specs.Tree.{section_count};
ghost use Rattle.project_file.specs.Projects.{IsRow, airflows_of};

use crate::section_row::SectionRow;
use air_tree::{AirTree, Flows};
use duct_units::{List, NoMemory, ReadError};
use std::alloc::Global;

/// The airflows of the tree with these rows, or the first rule of airflows that they break.
pub fn read_flows(alloc: Global, tree: &AirTree, rows: &[SectionRow]) -> Result<Flows, ReadError>
    requires count { length rows.now ≡ section_count tree.now }
    requires bounds { All IsRow rows.now }
    ensures { let air = airflows_of rows.now in
        Gives result (unless_refused (first_broken (flow_rules tree.now air)) (flows_of tree.now air)) }
{
    let at_leaves = leaf_flows(alloc, rows)?;
    let leaks = leaks(alloc, rows)?;
    Flows::new(alloc, tree, &at_leaves, &leaks)
}

/// The airflow that each row gives.
fn leaf_flows(alloc: Global, rows: &[SectionRow]) -> Result<List<Option<u64>>, NoMemory>
    ensures { IfOk result (λ flows. flows ≡ map (λ row. row.airflow) rows.now) }
{
    let mut flows = Vec::with_capacity(alloc, rows.len())?;
    for row in rows {
        flows.push(row.airflow)?;
    }
    Ok(List::from_vec(flows))
}

/// The leak of each row.
fn leaks(alloc: Global, rows: &[SectionRow]) -> Result<List<u64>, NoMemory>
    ensures { IfOk result (λ leaks. leaks ≡ map (λ row. row.leak) rows.now) }
{
    let mut leaks = Vec::with_capacity(alloc, rows.len())?;
    for row in rows {
        leaks.push(row.leak)?;
    }
    Ok(List::from_vec(leaks))
}
