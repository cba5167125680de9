//! The children of a section, added one by one.
ghost use Rattle.std.specs.Prelude.{◌≡◌, ◌<◌, ◌^◌, IfOk, All, length};
ghost use Rattle.duct_definitions.specs.Tree.{section_count};
ghost use Rattle.duct_definitions.specs.Network.{IsNetwork, columns};
ghost use Rattle.pareto_front.specs.FrontSum.{greatest_together};
ghost use Rattle.contract_join.specs.Join.{IsAdding, AddsChild, HaveRoom, AreTotals};

use crate::close::fronts_beside;
use crate::section_fronts::SectionFronts;
use duct_units::{List, NoMemory};
use net_model::Network;
use net_model::laws::network_is_valid;
use pareto_front::{Front, FrontSum};
use std::alloc::Global;
use std::marker::Model;

/// For each size of a section, what the children added so far cost together. A contract sees the network, the section
/// and how many children are added.
#[derive(Drop)]
pub struct Join<'n> {
    net: &'n Network,
    section: u32,
    added: u32,
    /// The sum for each size of the section; None once memory ran out.
    sums: Option<Vec<FrontSum>>,
}

impl<'n> Model for Join<'n> {
    ghost use Rattle.std.specs.Option.{ForSome};
    ghost use Rattle.contract_join.specs.Join.{Joining, IsAdding};

    ghost Value = { Joining };

    ghost view = { λ a. record { net = a.net.now; section = a.section; added = a.added } };

    ghost invariant = { λ a. ForSome a.sums
        (λ sums. IsAdding a.net.now a.section a.added sums.items) };
}

impl<'n> Join<'n> {
    ghost use Rattle.std.specs.Prelude.{◌≡◌, ◌+◌, ◌<◌, Some, IfOk, length, slice_get};
    ghost use Rattle.duct_definitions.specs.Tree.{section_count, children};

    /// No child is added yet.
    pub fn start(alloc: Global, net: &'n Network, s: u32) -> Result<Join<'n>, NoMemory>
        requires { s < section_count net.now.tree }
        ensures { IfOk result (λ join. join ≡ record { net = net.now; section = s; added = 0 }) }
    {
        let sums = no_children(alloc, net, s)?;
        Ok(Join {
            net,
            section: s,
            added: 0,
            sums: Some(sums),
        })
    }

    /// Adds the next child in rising number. When memory runs out the join can only be dropped.
    pub fn add(&mut self, alloc: Global, child: &SectionFronts<'n>) -> Result<(), NoMemory>
        requires network { child.now.net ≡ self.old.net }
        requires next { slice_get (children self.old.net.tree self.old.section) self.old.added
            ≡ Some child.now.section }
        ensures { IfOk result (λ _. self.new ≡ record self.old { added = self.old.added + 1 }) }
    {
        let Some(sums) = self.sums.take() else {
            return Err(NoMemory);
        };
        let sums = with_child(alloc, sums, child)?;
        self.added += 1;
        self.sums = Some(sums);
        Ok(())
    }

    /// The fronts of the section, once every child is added.
    pub fn close(self, alloc: Global) -> Result<SectionFronts<'n>, NoMemory>
        requires { self.added ≡ length (children self.net.tree self.section) }
        ensures network { IfOk result (λ fronts. fronts.net ≡ self.entry.net) }
        ensures section { IfOk result (λ fronts. fronts.section ≡ self.entry.section) }
    {
        let Join {
            net,
            section,
            added: _,
            sums,
        } = self;
        let Some(sums) = sums else {
            return Err(NoMemory);
        };
        let sums = totals(alloc, sums)?;
        let fronts = fronts_beside(alloc, net, section, sums.as_slice())?;
        Ok(SectionFronts::of(net, section, fronts))
    }
}

/// For each size of section `s` the sum of no child.
fn no_children(alloc: Global, net: &Network, s: u32) -> Result<Vec<FrontSum>, NoMemory>
    requires { s < section_count net.now.tree }
    ensures { IfOk result (λ sums. IsAdding net.now s 0 sums.items) }
{
    network_is_valid(net);
    let count = net.size_count(s);
    // Children come one after another. Each is taken to have a point for each size of the section.
    let points = net.tree().children(s).len().saturating_mul(count as usize);
    let mut sums = Vec::with_capacity(alloc, count as usize)?;
    for _ in 0..count {
        sums.push(FrontSum::start(alloc, net.cap(), points)?)?;
    }
    Ok(sums)
}

/// For each size the sum with the front of one more child beside it.
fn with_child(
    alloc: Global,
    mut sums: Vec<FrontSum>,
    child: &SectionFronts,
) -> Result<Vec<FrontSum>, NoMemory>
    requires network { IsNetwork child.now.net }
    requires beside { length sums.items ≡ columns child.now.net child.now.section }
    requires room { HaveRoom child.now.net sums.items }
    ensures { IfOk result
        (λ new. AddsChild child.now.net child.now.section sums.items new.items) }
{
    for k in 0..child.network().columns(child.section()) {
        sums[k as usize].add(alloc, child.front(k))?;
    }
    Ok(sums)
}

/// The front of each sum.
fn totals(alloc: Global, sums: Vec<FrontSum>) -> Result<List<Front>, NoMemory>
    requires { All (λ sum. greatest_together sum < 2 ^ 64) sums.items }
    ensures { IfOk result (AreTotals sums.items) }
{
    let mut fronts = Vec::with_capacity(alloc, sums.len())?;
    for sum in sums {
        fronts.push(sum.total(alloc)?)?;
    }
    Ok(List::from_vec(fronts))
}
