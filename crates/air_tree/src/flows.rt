//! What each section carries, from the airflows at the leaves and the leaks of the ducts.
ghost use Rattle.std.specs.Prelude.{◌≡◌, ◌<◌, ◌≤◌, length, All, IfSome, IfOk, slice_index};
ghost use Rattle.duct_units.specs.Rules.{Gives, unless_refused, first_broken};
ghost use Rattle.duct_definitions.specs.declared.airflow.TheConstants.{MAX_FLOW, MAX_LEAK};
ghost use Rattle.duct_definitions.specs.Tree.{section_count};
ghost use Rattle.duct_definitions.specs.Airflow.{Airflows, flow_rules, flows_of, flow_on, fan_flow};

use crate::carried::{broken_bound, broken_leaf, carried_flows, sum_at};
use crate::tree::AirTree;
use duct_units::{List, ReadError, Side};
use std::alloc::Global;
use std::marker::Model;

/// The airflow of each section and of each side, l/s.
#[derive(Debug, Drop)]
pub struct Flows {
    sections: List<u64>,
    supply: u64,
    back: u64,
}

impl Model for Flows {
    ghost use Rattle.duct_definitions.specs.Airflow.{Flows as FlowsData};

    ghost Value = { FlowsData };

    ghost view = { λ a. record { sections = a.sections; supply = a.supply; back = a.back } };
}

impl Flows {
    /// The flows of a tree with these airflows at its leaves, l/s, and these leaks, in thousandths of what is to pass a
    /// section; or the first fault: section by section a leaf without an airflow or another section with one, and then
    /// the first section that carries more than a section may.
    pub fn new(
        alloc: Global,
        tree: &AirTree,
        leaf_flows: &List<Option<u64>>,
        leaks: &List<u64>,
    ) -> Result<Flows, ReadError>
        requires flow_count { length leaf_flows.now ≡ section_count tree.now }
        requires leak_count { length leaks.now ≡ section_count tree.now }
        requires flows { All (λ given. IfSome given (λ q. q ≤ MAX_FLOW)) leaf_flows.now }
        requires leaks { All (λ leak. leak ≤ MAX_LEAK) leaks.now }
        ensures { let air : Airflows = record { at_leaves = leaf_flows.now; leaks = leaks.now } in
            Gives result (unless_refused (first_broken (flow_rules tree.now air)) (flows_of tree.now air)) }
    {
        let leaf_flows = leaf_flows.as_slice();
        if let Some(fault) = broken_leaf(tree, leaf_flows) {
            return Err(ReadError::Refused(fault));
        }
        let carried = carried_flows(alloc, tree, leaf_flows, leaks.as_slice())?;
        if let Some(fault) = broken_bound(carried.as_slice()) {
            return Err(ReadError::Refused(fault));
        }
        Ok(Flows {
            supply: sum_at(carried.as_slice(), tree.roots(Side::Supply)),
            back: sum_at(carried.as_slice(), tree.roots(Side::Return)),
            sections: List::from_vec(carried),
        })
    }

    /// What section `s` carries, l/s.
    pub fn flow(&self, s: u32) -> u64
        requires { s < length self.now.sections }
        ensures { result ≡ slice_index self.now.sections s }
    {
        self.sections.as_slice()[s as usize]
    }

    /// What the sections of a side at the fan carry together, l/s; 0 for a side without sections.
    pub fn side_flow(&self, side: Side) -> u64
        ensures { result ≡ flow_on self.now side }
    {
        match side {
            Side::Supply => self.supply,
            Side::Return => self.back,
        }
    }

    /// What a fan for both sides carries, l/s: the greater of the two sides' flows.
    pub fn fan_flow(&self) -> u64
        ensures { result ≡ fan_flow self.now }
    {
        self.supply.max(self.back)
    }
}
