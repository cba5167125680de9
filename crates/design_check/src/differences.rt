//! The differences, one after the other.
ghost use Rattle.std.specs.Prelude.{◌≡◌, ◌↔◌};
ghost use Rattle.design_check.specs.Verdicts.{verdict, NamesSection};
ghost use Rattle.design_check.specs.Designs.{IsOfDesign};
ghost use Rattle.design_check.specs.declared.verdict.Verdict.TheVariants.{Yes};

use crate::cost::cost;
use crate::dampers::{dampers, first_other_damper, heads_agree, path_losses};
use crate::fans::fans_agree;
use crate::names::names_agree;
use crate::pairs::{first_other_loss, first_other_pair};
use crate::verdict::Verdict;
use duct_definitions::{Listed, MAX_SECTIONS};
use net_model::Network;
use net_model::laws::network_is_valid;

/// Whether the text is that of a design that meets the rules, or else the first difference: names, then pairs, then
/// losses and prices, then the fans, then the heads, then the dampers, then the cost.
///
/// Takes no memory, and steps in proportion to the number of sections. A yes doesn't mean that no design costs less.
pub fn check(net: &Network, listed: &Listed) -> Verdict
    ensures yes { result ≡ Yes ↔ IsOfDesign net.now listed.now }
    ensures value { result ≡ verdict net.now listed.now }
    ensures section { NamesSection net.now result }
{
    network_is_valid(net);
    first_difference(net, listed)
}

#[tactic(auto, using(crate::proofs::AgreeLaws::losses_all, crate::proofs::AgreeLaws::meets_named), unfolding(crate::specs::Verdicts::verdict))]
fn first_difference(net: &Network, listed: &Listed) -> Verdict
    ensures value { result ≡ verdict net.now listed.now }
    ensures section { NamesSection net.now result }
{
    if !names_agree(net, listed) {
        return Verdict::Name;
    }
    if let Some(s) = first_other_pair(net, listed) {
        return Verdict::Pair(s);
    }
    if let Some(s) = first_other_loss(net, listed) {
        return Verdict::Loss(s);
    }
    if !fans_agree(net, listed) {
        return Verdict::Fan;
    }
    let mut numbers = [0; MAX_SECTIONS];
    let numbers = &mut numbers[..net.tree().len() as usize];
    path_losses(net, listed, numbers);
    if !heads_agree(net, listed, numbers) {
        return Verdict::Head;
    }
    dampers(net, listed, numbers);
    if let Some(s) = first_other_damper(net, listed, numbers) {
        return Verdict::Damper(s);
    }
    if listed.total != cost(net, listed) {
        return Verdict::Cost;
    }
    Verdict::Yes
}
