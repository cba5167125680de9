//! What holds of every network. Each call does nothing: a proof learns its clause where the call stands.
ghost use Rattle.duct_definitions.specs.Network.{IsNetwork};

use crate::network::Network;

/// A network has one entry for each section in each list, and every field is within its bounds.
pub fn network_is_valid(net: &Network)
    ensures { IsNetwork net.now }
{
    let _ = net.tree();
}
