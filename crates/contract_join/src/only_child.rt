//! The fronts of a section that has one child: there is nothing to add up.
ghost use Rattle.std.specs.Prelude.{◌≡◌, ◌<◌, [], ◌∷◌, IfOk};
ghost use Rattle.duct_definitions.specs.Tree.{section_count, children};

use crate::close::fronts_beside;
use crate::section_fronts::SectionFronts;
use duct_units::NoMemory;
use net_model::Network;
use net_model::laws::network_is_valid;
use std::alloc::Global;

/// The fronts of section `s`, from those of its only child, which are lent and not copied.
pub fn beyond_one<'n>(
    alloc: Global,
    net: &'n Network,
    s: u32,
    child: &SectionFronts<'n>,
) -> Result<SectionFronts<'n>, NoMemory>
    requires section { s < section_count net.now.tree }
    requires same_network { child.now.net ≡ net.now }
    requires only { children net.now.tree s ≡ child.now.section ∷ [] }
    ensures network { IfOk result (λ fronts. fronts.net ≡ net.now) }
    ensures section { IfOk result (λ fronts. fronts.section ≡ s) }
{
    network_is_valid(net);
    let fronts = fronts_beside(alloc, net, s, child.fronts())?;
    Ok(SectionFronts::of(net, s, fronts))
}
