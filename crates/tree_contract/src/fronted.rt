//! The exact fronts of all sections and of each side, with what each worker finished.
ghost use Rattle.std.specs.Prelude.{◌≡◌, ◌<◌, [], IfOk, Some, length, slice_get, slice_index_or};
ghost use Rattle.duct_definitions.specs.Tree.{section_count};
ghost use Rattle.contract_join.specs.SectionFronts.{AreFrontsOf};
ghost use Rattle.child_counter.specs.Closed.{AreWhole};
ghost use Rattle.contract_join.specs.SideFront.{IsSideFront};

use child_counter::Closed;
use contract_join::{SectionFronts, side_of};
use duct_units::{List, NoMemory, Side};
use net_model::Network;
use pareto_front::Front;
use std::alloc::Global;
use std::marker::Model;

/// Closed counters in which no section was refused memory, and the front of each side. `contract_all` alone makes one.
#[derive(Drop)]
pub struct Fronted<'n> {
    net: &'n Network,
    closed: Closed<'n>,
    supply: Front,
    back: Front,
}

impl<'n> Model for Fronted<'n> {
    ghost use Rattle.tree_contract.specs.Fronts.{FrontedData, IsFronted};

    ghost Value = { FrontedData };

    ghost view = { λ f. record { net = f.net.now; closed = f.closed; supply = f.supply; back = f.back } };

    ghost invariant = { λ f. IsFronted f.net.now f.closed f.supply f.back };
}

impl<'n> Fronted<'n> {
    /// The fronts of each side, from closed counters; want of memory, where a section was refused it.
    pub(crate) fn of(
        alloc: Global,
        net: &'n Network,
        closed: Closed<'n>,
    ) -> Result<Fronted<'n>, NoMemory>
        requires { closed.net ≡ net.now }
        ensures network { IfOk result (λ fronted. fronted.net ≡ net.now) }
        ensures closed { IfOk result (λ fronted. fronted.closed ≡ closed.entry) }
    {
        if !closed.refused().is_empty() {
            return Err(NoMemory);
        }
        let supply = side_of(alloc, net, closed.fronts(), Side::Supply)?;
        let back = side_of(alloc, net, closed.fronts(), Side::Return)?;
        Ok(Fronted {
            net,
            closed,
            supply,
            back,
        })
    }

    /// The counters, closed, from which the fronts come.
    pub fn closed(&self) -> &Closed<'n>
        ensures value { result.now ≡ self.now.closed }
        ensures none_refused { result.now.refused ≡ [] }
        ensures network { result.now.net ≡ self.now.net }
    {
        &self.closed
    }

    /// The exact fronts of section `s`.
    pub fn fronts(&self, s: u32) -> &SectionFronts<'n>
        requires { s < section_count self.now.net.tree }
        ensures value { slice_get self.now.closed.fronts s ≡ Some result.now }
        ensures network { result.now.net ≡ self.now.net }
        ensures section { result.now.section ≡ s }
    {
        &self.all()[s as usize]
    }

    /// The exact fronts of each section, in section order.
    pub fn all(&self) -> &[SectionFronts<'n>]
        ensures value { result.now ≡ self.now.closed.fronts }
        ensures all { AreFrontsOf self.now.net result.now }
    {
        self.closed.fronts()
    }

    /// The exact fronts of each section, in section order, without those of the sides.
    pub fn scatter(self) -> List<SectionFronts<'n>>
        ensures value { result ≡ self.entry.closed.fronts }
        ensures all { AreFrontsOf self.entry.net result }
    {
        let Fronted {
            net: _,
            closed,
            supply: _,
            back: _,
        } = self;
        closed.into_fronts()
    }

    /// What each budget buys at the least cost for a side. A side without sections needs nothing and costs nothing.
    pub fn side(&self, side: Side) -> &Front
        ensures { IsSideFront self.now.net side result.now }
    {
        match side {
            Side::Supply => &self.supply,
            Side::Return => &self.back,
        }
    }

    /// The sections that a worker finished, in the order of the finishes. Each section stands in one worker's list,
    /// once, and in a list a child stands before its neighbour.
    pub fn finished(&self, worker: u32) -> &[u32]
        requires { worker < length self.now.closed.finished }
        ensures value { result.now ≡ slice_index_or self.now.closed.finished worker [] }
        ensures whole { AreWhole self.now.net.tree self.now.closed.finished }
    {
        self.closed.finished(worker)
    }
}
