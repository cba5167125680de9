//! What is found of a certificate and a design, and what it proves. Each law is the contract of a call that has nothing
//! to do.
ghost use Rattle.std.specs.Prelude.{◌≡◌, ℕ, Option};
ghost use Rattle.duct_definitions.specs.declared.listed.Listed.{Listed};
ghost use Rattle.duct_definitions.specs.Network.{Network};
ghost use Rattle.front_certificate.specs.Certificates.{Certificate};
ghost use Rattle.front_certificate.specs.Sound.{NoneCostsLess};
ghost use Rattle.certified_design.specs.Findings.{IsCertified, IsFinding, IsTextOfCheapest};
ghost use Rattle.certified_design.specs.declared.finding.Finding.{Finding};

/// Of one certificate and one design one thing is found.
pub fn finding_is_one()
    ensures { (net : Network) (c : Certificate) (design : Option Listed) (f g : Finding)
        → IsFinding net c design f → IsFinding net c design g → f ≡ g }
{}

/// Where no design costs less than the total, a text of a design that meets the rules and costs it is one of a cheapest
/// design.
pub fn a_certified_design_is_the_cheapest()
    ensures { (net : Network) (total : Option ℕ) (l : Listed) → NoneCostsLess net total → IsCertified net total l
        → IsTextOfCheapest net l }
{}
