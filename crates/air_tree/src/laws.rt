//! Laws of trees. Each is the contract of a call that has nothing to do.
ghost use Rattle.std.specs.Prelude.{◌≡◌, ◌<◌, ◌==◌, ℕ, filter, count_by, if◌then◌else◌};
ghost use Rattle.duct_units.specs.declared.side.Side.{Side};
ghost use Rattle.duct_definitions.specs.Tree.{Tree, section_count, neighbour, side, is_number, children, leaves, all_leaves};
ghost use Rattle.duct_units.specs.Side.{same_side};

/// Each section stands once among the children of its neighbour, and among no other's: a root among none.
#[tactic(auto, using(crate::proofs::ListLaws::of_children))]
pub fn a_section_is_a_child_once()
    ensures { (t : Tree) (s c : ℕ) → c < section_count t
        → count_by (λ x. x == c) (children t s) ≡ (if is_number s (neighbour t c) then 1 else 0) }
{}

/// The leaves of a side are those of all leaves that stand on it.
#[tactic(auto, using(crate::proofs::ListLaws::of_leaves))]
pub fn a_side_has_its_leaves()
    ensures { (t : Tree) (x : Side) → leaves t x ≡ filter (λ s. same_side (side t s) x) (all_leaves t) }
{}
