//! The fronts of a whole network, by several workers.
ghost use Rattle.std.specs.Prelude.{◌≡◌, ◌<◌, ◌≤◌, IfOk, length};

use crate::condensing::condense_all;
use crate::fronted::Fronted;
use duct_ports::Gate;
use duct_units::NoMemory;
use net_model::Network;
use std::alloc::Global;
use std::thread::Threads;

/// The exact fronts of each section and of each side, condensed by 1 to 32 workers at once, each of whom enters the
/// gate before it condenses a section. The answer is the same whichever worker condenses what.
pub fn contract_all<'n, R: Threads + Sync, G: Gate>(
    rt: &R,
    alloc: Global,
    net: &'n Network,
    workers: u32,
    gate: &G,
) -> Result<Fronted<'n>, NoMemory>
    requires { (0 < workers) × (workers ≤ 32) }
    ensures network { IfOk result (λ fronted. fronted.net ≡ net.now) }
    ensures workers { IfOk result (λ fronted. length fronted.closed.finished ≡ workers) }
{
    let closed = condense_all(rt, alloc, net, workers, gate)?;
    let fronted = Fronted::of(alloc, net, closed)?;
    Ok(fronted)
}
