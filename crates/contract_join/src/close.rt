//! The fronts of a section, from the sums of its children's fronts.
ghost use Rattle.std.specs.Prelude.{◌≡◌, ℕ, ◌<◌, ◌≤◌, [], IfOk};
ghost use Rattle.duct_units.specs.Prices.{lesser};
ghost use Rattle.duct_definitions.specs.Network.{size_count, columns, cap};
ghost use Rattle.least_laws.specs.LeastFromChildren.{least_in, least_with};
ghost use Rattle.pareto_front.specs.LaidPoints.{least_among};
ghost use Rattle.contract_join.specs.SectionFronts.{AreExact};
ghost use Rattle.contract_join.specs.Join.{AreSums};

use duct_units::{List, NoMemory};
use net_model::Network;
use pareto_front::{Front, LaidPoints};
use std::alloc::Global;

/// The front of section `s` beside each size of its neighbour, where `sums` has for each of its sizes what all
/// children cost together.
pub(crate) fn fronts_beside(
    alloc: Global,
    net: &Network,
    s: u32,
    sums: &[Front],
) -> Result<List<Front>, NoMemory>
    requires { AreSums net.now s sums.now }
    ensures { IfOk result (AreExact net.now s) }
{
    let mut laid = LaidPoints::start(alloc, net.cap(), count_of_points(sums))?;
    let columns = net.columns(s);
    let mut fronts = Vec::with_capacity(alloc, columns as usize)?;
    for g in 0..columns {
        lay_sizes(&mut laid, net, s, g, sums)?;
        fronts.push(laid.front(alloc)?)?;
    }
    Ok(List::from_vec(fronts))
}

/// How many points the fronts have together.
pub(crate) fn count_of_points(fronts: &[Front]) -> usize {
    fronts.iter().fold(
        0,
        |sum: usize, front| sum.saturating_add(front.points().len()),
    )
}

/// Lays the points of all sizes of section `s` that can be joined to size `g` of its neighbour.
fn lay_sizes(
    laid: &mut LaidPoints,
    net: &Network,
    s: u32,
    g: u32,
    sums: &[Front],
) -> Result<(), NoMemory>
    requires clear { laid.old ≡ record { cap = cap net.now; points = [] } }
    requires beside { g < columns net.now s }
    requires sums { AreSums net.now s sums.now }
    ensures least { IfOk result (λ _. (budget : ℕ) → budget ≤ cap net.now →
        least_among laid.new.points budget ≡ least_in net.now s g budget) }
    ensures cap { IfOk result (λ _. laid.new.cap ≡ cap net.now) }
{
    for k in 0..net.size_count(s) {
        lay_size(laid, net, s, g, k, sums)?;
    }
    Ok(())
}

/// Lays the points of size `k` of section `s`, if it can be joined to size `g` of its neighbour.
fn lay_size(
    laid: &mut LaidPoints,
    net: &Network,
    s: u32,
    g: u32,
    k: u32,
    sums: &[Front],
) -> Result<(), NoMemory>
    requires cap { laid.old.cap ≡ cap net.now }
    requires beside { g < columns net.now s }
    requires size { k < size_count net.now s }
    requires sums { AreSums net.now s sums.now }
    ensures least { IfOk result (λ _. (budget : ℕ) → budget ≤ cap net.now →
        least_among laid.new.points budget ≡
        lesser (least_among laid.old.points budget)
        (least_with net.now (least_in net.now) s g budget k)) }
    ensures cap { laid.new.cap ≡ laid.old.cap }
{
    match net.pair(s, k, g) {
        Some(pair) => laid.lay(&sums[k as usize], pair.loss, pair.price),
        None => Ok(()),
    }
}
