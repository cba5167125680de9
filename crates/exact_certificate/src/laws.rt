//! Laws of exact certificates. Each is the contract of a call that has nothing to do.
ghost use Rattle.std.specs.Prelude.{◌≡◌};
ghost use Rattle.duct_definitions.specs.Tree.{IsTree};
ghost use Rattle.duct_definitions.specs.Network.{Network};
ghost use Rattle.front_certificate.specs.Certificates.{Certificate};
ghost use Rattle.front_certificate.specs.Sound.{IsSound};
ghost use Rattle.exact_certificate.specs.Exact.{HasExactFronts, IsExactCertificate, IsLeastOfOffers};

/// A network has one exact certificate.
pub fn exact_certificate_is_one()
    ensures { (net : Network) (c d : Certificate) → IsExactCertificate net c → IsExactCertificate net d → c ≡ d }
{}

/// Exact fronts are sound, and so is the least cost of fans and budgets as the total beside them.
pub fn least_of_offers_is_sound()
    ensures { (net : Network) → IsTree net.tree → (c : Certificate) → HasExactFronts net c.fronts
        → IsLeastOfOffers net c.total → IsSound net c }
{}
