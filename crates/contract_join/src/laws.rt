//! When fronts may move from one network to another. The call does nothing: a proof learns its clause where the call
//! stands.
ghost use Rattle.std.specs.Prelude.{◌≡◌};
ghost use Rattle.duct_definitions.specs.Tree.{IsTree};
ghost use Rattle.duct_definitions.specs.Network.{Network, cap};
ghost use Rattle.least_laws.specs.SamePairs.{AgreeBeyond};
ghost use Rattle.contract_join.specs.Kept.{KeptData, IsKeptOf};

use least_laws::least_depends_on_pairs_beyond;

/// Fronts of a section that are exact in one network are exact in each that has the same tree, the same sizes, the same
/// greatest fan pressure, and the same pairs of the section and of all beyond it.
pub fn fronts_stay_exact()
    ensures { (net other : Network) (kept : KeptData) → IsTree net.tree
        → AgreeBeyond net other kept.section → cap other ≡ cap net
        → IsKeptOf net kept → IsKeptOf other kept }
{
    least_depends_on_pairs_beyond();
}
