//! The certificate of a network, by several workers.
ghost use Rattle.std.specs.Prelude.{◌≡◌, ◌<◌, ◌≤◌, IfOk, length};
ghost use Rattle.front_certificate.specs.Certificates.{front_count};
ghost use Rattle.front_certificate.specs.Sound.{IsSound, IsSoundTotal};
ghost use Rattle.exact_certificate.specs.Exact.{IsExactCertificate, IsCostOfBest, IsLeastOfOffers};

use crate::collecting::certificate_of;
use crate::laws::least_of_offers_is_sound;
use duct_ports::Gate;
use duct_units::{NoMemory, Side};
use expand_sizes::expand;
use front_certificate::Certificate;
use net_model::laws::network_is_valid;
use net_model::{Network, cost};
use std::alloc::Global;
use std::thread::Threads;
use t_method::best_choice;
use tree_contract::{Fronted, contract_all};

/// The certificate with the exact fronts of the network and the cost of its best design, which is sound. 1 to 32
/// workers condense at once, each of whom enters the gate before it condenses a section; the certificate is the same
/// whichever of them condenses what.
pub fn certify<R: Threads + Sync, G: Gate>(
    rt: &R,
    alloc: Global,
    net: &Network,
    workers: u32,
    gate: &G,
) -> Result<Certificate, NoMemory>
    requires { (0 < workers) × (workers ≤ 32) }
    ensures exact { IfOk result (IsExactCertificate net.now) }
    ensures sound { IfOk result (IsSound net.now) }
    ensures count { IfOk result (λ c. length c.fronts ≡ front_count net.now) }
{
    least_of_offers_is_sound();
    network_is_valid(net);
    let fronted = contract_all(rt, alloc, net, workers, gate)?;
    let total = least_cost(alloc, net, &fronted)?;
    certificate_of(alloc, net, fronted.scatter(), total)
}

/// What the best design costs, cents; None where no design meets the rules.
fn least_cost(alloc: Global, net: &Network, fronted: &Fronted) -> Result<Option<u64>, NoMemory>
    requires { fronted.now.net ≡ net.now }
    ensures cost { IfOk result (IsCostOfBest net.now) }
    ensures least { IfOk result (IsLeastOfOffers net.now) }
{
    let supply = fronted.side(Side::Supply);
    let back = fronted.side(Side::Return);
    match best_choice(net, supply, back) {
        Some(choice) => {
            let best = expand(alloc, net, fronted.all(), &choice)?;
            Ok(Some(cost(net, &best)))
        }
        None => Ok(None),
    }
}
