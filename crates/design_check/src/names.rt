//! The listed names against the network's.
ghost use Rattle.std.specs.Prelude.{◌≡◌, ◌<◌, ◌&&◌, ◌==◌, length, IfSome};
ghost use Rattle.std.specs.List.{list_all};
ghost use Rattle.duct_definitions.specs.Tree.{section_count, sections};
ghost use Rattle.duct_definitions.specs.Network.{size_count};
ghost use Rattle.design_check.specs.Named.{line_at, size_named, size_of, fan_named};
ghost use Rattle.design_check.specs.Verdicts.{names_agree, name_agrees};

use duct_definitions::{Listed, ListedSection};
use duct_units::Name;
use net_model::Network;
use net_model::laws::network_is_valid;

/// Whether the project's name, the number of sections and every section's name in order are the network's.
pub(crate) fn names_agree(net: &Network, listed: &Listed) -> bool
    ensures { result ≡ names_agree net.now listed.now }
{
    listed.project == net.name()
        && listed.sections.as_slice().len() == net.tree().len() as usize
        && section_names_agree(net, listed)
}

#[tactic(auto, using(crate::proofs::NumberSearch::passes_here, crate::proofs::NumberSearch::fails_here, crate::proofs::NumberSearch::all_pass))]
fn section_names_agree(net: &Network, listed: &Listed) -> bool
    requires { length listed.now.sections ≡ section_count net.now.tree }
    ensures { result ≡ list_all (name_agrees net.now listed.now) (sections net.now.tree) }
{
    for s in 0..net.tree().len() {
        if line_at(listed, s).name != net.section_name(s) {
            return false;
        }
    }
    true
}

/// What the text says of the section.
pub(crate) fn line_at(listed: &Listed, s: u32) -> ListedSection
    requires { s < length listed.now.sections }
    ensures { result ≡ line_at listed.now s }
{
    listed.sections.as_slice()[s as usize]
}

/// The number of the section's size of this name.
#[tactic(auto, using(crate::proofs::NumberSearch::not_here, crate::proofs::NumberSearch::first_here, crate::proofs::NumberSearch::none_at_all))]
pub(crate) fn size_named(net: &Network, s: u32, name: &Name) -> Option<u32>
    requires { s < section_count net.now.tree }
    ensures value { result ≡ size_named net.now s name.now }
    ensures within { IfSome result (λ k. k < size_count net.now s) }
{
    for k in 0..net.size_count(s) {
        if net.size_name(s, k) == *name {
            return Some(k);
        }
    }
    None
}

/// The number of the section's listed size; 0 where the section has no such size.
pub(crate) fn size_of(net: &Network, listed: &Listed, s: u32) -> u32
    requires section { s < section_count net.now.tree }
    requires lines { length listed.now.sections ≡ section_count net.now.tree }
    ensures value { result ≡ size_of net.now listed.now s }
    ensures within { result < size_count net.now s }
{
    network_is_valid(net);
    match size_named(net, s, &line_at(listed, s).size) {
        Some(k) => k,
        None => 0,
    }
}
