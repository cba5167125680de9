//! Fronts that outlive their network.
ghost use Rattle.std.specs.Prelude.{◌≡◌};
ghost use Rattle.contract_join.specs.Kept.{IsKeptOf};

use crate::section_fronts::SectionFronts;
use duct_units::List;
use net_model::Network;
use pareto_front::Front;
use std::marker::Model;

/// A section and its fronts, which borrow no network: `SectionFronts::release` hands them out, and `adopt` takes them
/// into each network in which they are exact.
#[derive(Drop)]
pub struct Kept {
    pub(crate) section: u32,
    pub(crate) fronts: List<Front>,
}

impl Model for Kept {
    ghost use Rattle.contract_join.specs.Kept.{KeptData};

    ghost Value = { KeptData };

    ghost view = { λ k. record { section = k.section; fronts = k.fronts } };
}

impl Kept {
    /// The section, from 0 in file order.
    pub fn section(&self) -> u32
        ensures { result ≡ self.now.section }
    {
        self.section
    }

    /// The fronts beside the sizes of the neighbour, in order.
    pub fn into_fronts(self) -> List<Front>
        ensures { result ≡ self.fronts }
    {
        self.fronts
    }
}

/// Kept fronts as fronts of this network, in which they are exact.
pub fn adopt<'m>(net: &'m Network, kept: Kept) -> SectionFronts<'m>
    requires { IsKeptOf net.now kept }
    ensures { result ≡ record { net = net.now; section = kept.section; fronts = kept.fronts } }
{
    let Kept { section, fronts } = kept;
    SectionFronts::of(net, section, fronts)
}
