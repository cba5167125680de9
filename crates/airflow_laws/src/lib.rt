//! Laws of airflows: what the definitions say of every tree of ducts. Each is the contract of a call that has nothing to
//! do. Airflows are in l/s.
#![tactic(auto)]

ghost use Rattle.std.specs.Prelude.{◌≡◌, ◌<◌, ℕ, sum_by};
ghost use Rattle.duct_units.specs.declared.side.Side.{Side};
ghost use Rattle.duct_definitions.specs.Airflow.{Airflows, leaf_flow, flow, side_flow};
ghost use Rattle.duct_definitions.specs.Tree.{Tree, IsTree, section_count, leaves};
ghost use Rattle.duct_definitions.specs.Dampers.{leaves_beyond};
ghost use Rattle.airflow_laws.specs.Tight.{IsTight};

/// Without leaks a section carries the plain sum of the airflows of the leaves whose way to the fan passes it, and a side
/// the sum of those of all its leaves.
#[tactic(auto, using(crate::proofs::TightFlows::tight_section, crate::proofs::TightFlows::tight_side))]
pub fn tight_ducts_carry_their_leaves()
    ensures section { (t : Tree) (air : Airflows) → IsTree t → IsTight t air → (s : ℕ) → s < section_count t
        → flow t air s ≡ sum_by (leaf_flow air) (leaves_beyond t s) }
    ensures side { (t : Tree) (air : Airflows) → IsTree t → IsTight t air → (x : Side)
        → side_flow t air x ≡ sum_by (leaf_flow air) (leaves t x) }
{}
