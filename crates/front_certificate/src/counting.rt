//! How many fronts a certificate has.
ghost use Rattle.std.specs.Prelude.{◌≡◌, ◌≤◌, ◌*◌};
ghost use Rattle.duct_definitions.specs.declared.limits.TheConstants.{MAX_SECTIONS, MAX_SIZES};
ghost use Rattle.front_certificate.specs.Certificates.{front_count};

use net_model::Network;
use net_model::laws::network_is_valid;

/// How many fronts a certificate of the network has: one for each section and size of its neighbour.
pub fn front_count(net: &Network) -> usize
    ensures value { result ≡ front_count net.now }
    ensures few { result ≤ MAX_SECTIONS * MAX_SIZES }
{
    network_is_valid(net);
    let mut count = 0;
    for s in 0..net.tree().len() {
        count += net.columns(s) as usize;
    }
    count
}
