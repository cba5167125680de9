//! The fronts of one section, which borrow their network.
ghost use Rattle.std.specs.Prelude.{◌≡◌, ℕ, ◌<◌, ◌≤◌, ◌^◌, IfSome};
ghost use Rattle.duct_definitions.specs.Network.{IsNetwork, columns, cap};
ghost use Rattle.least_laws.specs.Least.{IsLeast};
ghost use Rattle.pareto_front.specs.Front.{NeedsWithin, CostsWithin, cheapest};
ghost use Rattle.contract_join.specs.SectionFronts.{AreExact, front_of, most_beyond};
ghost use Rattle.contract_join.specs.Kept.{IsKeptOf};
ghost use Rattle.pareto_front.specs.declared.point.TheConstants.{COST_LIMIT};

use crate::kept::Kept;
use duct_units::List;
use net_model::Network;
use net_model::laws::network_is_valid;
use pareto_front::Front;
use std::marker::Model;

/// What each budget buys at the least cost for a section and all beyond it, beside each size of its neighbour.
#[derive(Drop)]
pub struct SectionFronts<'n> {
    net: &'n Network,
    section: u32,
    fronts: List<Front>,
}

impl<'n> Model for SectionFronts<'n> {
    ghost use Rattle.contract_join.specs.SectionFronts.{SectionData, AreExact};

    ghost Value = { SectionData };

    ghost view = { λ a. record { net = a.net.now; section = a.section; fronts = a.fronts } };

    ghost invariant = { λ a. AreExact a.net.now a.section a.fronts };
}

impl<'n> SectionFronts<'n> {
    /// The exact fronts of the section.
    pub(crate) fn of(net: &'n Network, section: u32, fronts: List<Front>) -> SectionFronts<'n>
        requires { AreExact net.now section fronts }
        ensures { result ≡ record { net = net.now; section = section; fronts = fronts } }
    {
        SectionFronts {
            net,
            section,
            fronts,
        }
    }

    /// The network, whose least prices these are.
    pub fn network(&self) -> &'n Network
        ensures value { result.now ≡ self.now.net }
        ensures exact { AreExact self.now.net self.now.section self.now.fronts }
    {
        self.net
    }

    /// The fronts beside the sizes of the neighbour, in order.
    pub(crate) fn fronts(&self) -> &[Front]
        ensures value { result.now ≡ self.now.fronts }
        ensures exact { AreExact self.now.net self.now.section self.now.fronts }
    {
        self.fronts.as_slice()
    }

    /// The section, from 0 in file order.
    pub fn section(&self) -> u32
        ensures { result ≡ self.now.section }
    {
        self.section
    }

    /// The least cost of the section and all beyond it, cents, beside size `g` of the neighbour, 0 at the fan; None
    /// where no choice of sizes is within the budget, dPa.
    pub fn cheapest(&self, g: u32, budget: u64) -> Option<u64>
        requires beside { g < columns self.now.net self.now.section }
        requires within { budget ≤ cap self.now.net }
        ensures least { IsLeast self.now.net self.now.section g budget result }
        ensures value { result ≡ cheapest (front_of self.now.fronts g) budget }
        ensures bounds { IfSome result (λ cost. cost ≤ most_beyond self.now.net) }
        ensures below { IfSome result (λ cost. cost < COST_LIMIT) }
    {
        network_is_valid(self.net);
        self.front(g).cheapest(budget)
    }

    /// The front beside size `g` of the neighbour, 0 at the fan.
    pub fn front(&self, g: u32) -> &Front
        requires { g < columns self.now.net self.now.section }
        ensures value { result.now ≡ front_of self.now.fronts g }
        ensures least { (budget : ℕ) → budget ≤ cap self.now.net →
            IsLeast self.now.net self.now.section g budget (cheapest result.now budget) }
        ensures needs { NeedsWithin (cap self.now.net) result.now }
        ensures costs { CostsWithin (most_beyond self.now.net) result.now }
    {
        &self.fronts.as_slice()[g as usize]
    }
    /// The section and its fronts, which let go of their network. They may be adopted into it again.
    pub fn release(self) -> Kept
        ensures section { result.section ≡ self.entry.section }
        ensures fronts { result.fronts ≡ self.entry.fronts }
        ensures kept { IsKeptOf self.entry.net result }
    {
        let SectionFronts {
            net: _,
            section,
            fronts,
        } = self;
        Kept { section, fronts }
    }
}
