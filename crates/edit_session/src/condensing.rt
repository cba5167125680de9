//! The fronts of a network, condensed whole, or only those that an edit touches.
ghost use Rattle.std.specs.Prelude.{◌≡◌, ◌<◌, ◌≤◌, ◌+◌, false, option_copied, IfOk, IfSome, IfNone};
ghost use Rattle.duct_definitions.specs.Network.{cap};
ghost use Rattle.duct_definitions.specs.Order.{IsBest, NoneMeets};
ghost use Rattle.duct_definitions.specs.Tree.{section_count, children};
ghost use Rattle.contract_join.specs.Kept.{IsKeptOf};
ghost use Rattle.contract_join.specs.SectionFronts.{AreFrontsOf};
ghost use Rattle.project_edit.specs.Touched.{is_touched};
ghost use Rattle.edit_session.specs.Condensed.{AreKeptOf, AreKeptBut, AreLater};

use contract_join::{Join, Kept, SectionFronts, adopt, beyond_one, side_of};
use duct_definitions::Design;
use duct_ports::Gate;
use duct_units::{List, NoMemory, Side};
use net_model::Network;
use net_model::laws::network_is_valid;
use project_edit::{Edit, is_touched};
use std::alloc::Global;
use std::marker::Model;
use std::thread::Threads;
use t_method::{best_of, best_of_fronted};
use tree_contract::contract_all;

/// A network with the exact fronts of its sections and its best design, if any meets the rules.
#[derive(Drop)]
pub(crate) struct Condensed {
    net: Network,
    kept: List<Kept>,
    best: Option<Design>,
}

impl Model for Condensed {
    ghost use Rattle.edit_session.specs.Condensed.{CondensedData, IsCondensed};

    ghost Value = { CondensedData };

    ghost view = { λ a. record { net = a.net; kept = a.kept; best = a.best } };

    ghost invariant = { λ a. IsCondensed (record { net = a.net; kept = a.kept; best = a.best }) };
}

impl Condensed {
    /// The network, condensed by 1 to 32 workers.
    pub fn new<R: Threads + Sync, G: Gate>(
        rt: &R,
        alloc: Global,
        net: Network,
        workers: u32,
        gate: &G,
    ) -> Result<Condensed, NoMemory>
        requires { (0 < workers) × (workers ≤ 32) }
        ensures { IfOk result (λ a. a.net ≡ net) }
    {
        let (kept, best) = all_condensed(rt, alloc, &net, workers, gate)?;
        Ok(Condensed { net, kept, best })
    }

    /// The network, whose touched sections alone are condensed; the others keep their fronts.
    pub fn again(
        alloc: Global,
        net: Network,
        kept: List<Kept>,
        edit: &Edit,
        is_cap_kept: bool,
    ) -> Result<Condensed, NoMemory>
        requires section { edit.now.section < section_count net.tree }
        requires kept { AreKeptBut net (is_touched net.tree edit.now is_cap_kept) kept }
        ensures { IfOk result (λ a. a.net ≡ net) }
    {
        let (kept, best) = touched_condensed(alloc, &net, kept, edit, is_cap_kept)?;
        Ok(Condensed { net, kept, best })
    }

    /// The network.
    pub fn network(&self) -> &Network
        ensures { result.now ≡ self.now.net }
    {
        &self.net
    }

    /// The best design of the network; None where no design meets the rules.
    pub fn best(&self) -> Option<&Design>
        ensures some { IfSome (option_copied result) (IsBest self.now.net) }
        ensures none { IfNone (option_copied result) (NoneMeets self.now.net) }
    {
        self.best.as_ref()
    }

    /// The network and the fronts of its sections, apart.
    pub fn into_parts(self) -> (Network, List<Kept>)
        ensures network { result.0 ≡ self.net }
        ensures kept { AreKeptOf self.net result.1 }
    {
        let Condensed { net, kept, best: _ } = self;
        (net, kept)
    }
}

/// The fronts of all sections and the best design, by 1 to 32 workers.
fn all_condensed<R: Threads + Sync, G: Gate>(
    rt: &R,
    alloc: Global,
    net: &Network,
    workers: u32,
    gate: &G,
) -> Result<(List<Kept>, Option<Design>), NoMemory>
    requires { (0 < workers) × (workers ≤ 32) }
    ensures kept { IfOk result (λ all. AreKeptOf net.now all.0) }
    ensures some { IfOk result (λ all. IfSome all.1 (IsBest net.now)) }
    ensures none { IfOk result (λ all. IfNone all.1 (NoneMeets net.now)) }
{
    let fronted = contract_all(rt, alloc, net, workers, gate)?;
    let best = best_of_fronted(alloc, net, &fronted)?;
    Ok((released(alloc, net, fronted.scatter())?, best))
}

/// The fronts of all sections and the best design, where the touched sections alone are condensed.
fn touched_condensed(
    alloc: Global,
    net: &Network,
    kept: List<Kept>,
    edit: &Edit,
    is_cap_kept: bool,
) -> Result<(List<Kept>, Option<Design>), NoMemory>
    requires section { edit.now.section < section_count net.now.tree }
    requires kept { AreKeptBut net.now (is_touched net.now.tree edit.now is_cap_kept) kept }
    ensures kept { IfOk result (λ all. AreKeptOf net.now all.0) }
    ensures some { IfOk result (λ all. IfSome all.1 (IsBest net.now)) }
    ensures none { IfOk result (λ all. IfNone all.1 (NoneMeets net.now)) }
{
    let fronts = all_fronts(alloc, net, kept, edit, is_cap_kept)?;
    let best = best_design(alloc, net, fronts.as_slice())?;
    Ok((released(alloc, net, fronts)?, best))
}

/// The best design of the network, by the fronts of its sections.
fn best_design(
    alloc: Global,
    net: &Network,
    fronts: &[SectionFronts<'_>],
) -> Result<Option<Design>, NoMemory>
    requires { AreFrontsOf net.now fronts.now }
    ensures some { IfOk result (λ best. IfSome best (IsBest net.now)) }
    ensures none { IfOk result (λ best. IfNone best (NoneMeets net.now)) }
{
    let supply = side_of(alloc, net, fronts, Side::Supply)?;
    let back = side_of(alloc, net, fronts, Side::Return)?;
    best_of(alloc, net, fronts, &supply, &back)
}

/// The fronts of all sections, in order; those of sections that aren't touched are the kept ones.
fn all_fronts<'n>(
    alloc: Global,
    net: &'n Network,
    kept: List<Kept>,
    edit: &Edit,
    is_cap_kept: bool,
) -> Result<List<SectionFronts<'n>>, NoMemory>
    requires section { edit.now.section < section_count net.now.tree }
    requires kept { AreKeptBut net.now (is_touched net.now.tree edit.now is_cap_kept) kept }
    ensures { IfOk result (AreFrontsOf net.now) }
{
    network_is_valid(net);
    let mut left = kept.into_vec();
    let mut fronts = Vec::new(alloc);
    // Children have greater numbers, so the last section comes first.
    while let Some(old) = left.pop() {
        let s = left.len() as u32;
        let is_touched = is_touched(net.tree(), edit, is_cap_kept, s);
        let front = front_of(alloc, net, s, old, is_touched, fronts.as_slice())?;
        fronts.push(front)?;
    }
    fronts.reverse();
    Ok(List::from_vec(fronts))
}

/// The fronts of section `s`: condensed again where it is touched, and else the kept ones.
fn front_of<'n>(
    alloc: Global,
    net: &'n Network,
    s: u32,
    old: Kept,
    is_touched: bool,
    later: &[SectionFronts<'n>],
) -> Result<SectionFronts<'n>, NoMemory>
    requires section { s < section_count net.now.tree }
    requires kept { is_touched ≡ false → (old.section ≡ s) × IsKeptOf net.now old }
    requires later { AreLater net.now (s + 1) later.now }
    ensures network { IfOk result (λ fronts. fronts.net ≡ net.now) }
    ensures section { IfOk result (λ fronts. fronts.section ≡ s) }
{
    if is_touched {
        condensed_section(alloc, net, s, later)
    } else {
        Ok(adopt(net, old))
    }
}

/// The fronts of section `s`, from those of its children.
fn condensed_section<'n>(
    alloc: Global,
    net: &'n Network,
    s: u32,
    later: &[SectionFronts<'n>],
) -> Result<SectionFronts<'n>, NoMemory>
    requires section { s < section_count net.now.tree }
    requires later { AreLater net.now (s + 1) later.now }
    ensures network { IfOk result (λ fronts. fronts.net ≡ net.now) }
    ensures section { IfOk result (λ fronts. fronts.section ≡ s) }
{
    let children = net.tree().children(s);
    if children.len() == 1 {
        return beyond_one(alloc, net, s, fronts_in(net, s, children[0], later));
    }
    let mut join = Join::start(alloc, net, s)?;
    for i in 0..children.len() {
        join.add(alloc, fronts_in(net, s, children[i], later))?;
    }
    join.close(alloc)
}

/// The fronts of section `c` among those of all sections after `s`.
fn fronts_in<'a, 'n>(
    net: &Network,
    s: u32,
    c: u32,
    later: &'a [SectionFronts<'n>],
) -> &'a SectionFronts<'n>
    requires after { s < c }
    requires section { c < section_count net.now.tree }
    requires later { AreLater net.now (s + 1) later.now }
    ensures network { result.now.net ≡ net.now }
    ensures section { result.now.section ≡ c }
{
    &later[(net.tree().len() - 1 - c) as usize]
}

/// The fronts of all sections, let go of their network.
fn released(
    alloc: Global,
    net: &Network,
    fronts: List<SectionFronts<'_>>,
) -> Result<List<Kept>, NoMemory>
    requires { AreFrontsOf net.now fronts }
    ensures { IfOk result (AreKeptOf net.now) }
{
    let mut kept = Vec::new(alloc);
    for front in fronts.into_vec() {
        kept.push(front.release())?;
    }
    Ok(List::from_vec(kept))
}
