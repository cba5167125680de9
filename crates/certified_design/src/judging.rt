//! The test of a certificate and of a design beside it.
ghost use Rattle.std.specs.Prelude.{◌≡◌, ◌↔◌, IsTrue, length};
ghost use Rattle.front_certificate.specs.Certificates.{front_count};
ghost use Rattle.certified_design.specs.Findings.{AreCertified, IsCertified, IsFinding, NamesSection, ProvesOf};

use crate::finding::Finding;
use crate::laws::a_certified_design_is_the_cheapest;
use design_check::{Verdict, check};
use duct_definitions::Listed;
use front_certificate::{Certificate, Judgement, verify};
use net_model::Network;

/// What comes of the certificate, and of the design that the text tells, where there is one. After a yes no design that
/// meets the rules costs less than the total, and the design is one that meets them and costs it. Takes no memory.
pub fn judge(net: &Network, c: &Certificate, design: &Option<Listed>) -> Finding
    requires { length c.now.fronts ≡ front_count net.now }
    ensures found { IsFinding net.now c.now design.now result }
    ensures section { NamesSection net.now result }
    ensures proves { ProvesOf net.now c.now.total design.now result }
{
    a_certified_design_is_the_cheapest();
    match verify(net, c) {
        Judgement::Yes if is_certified(net, c.total(), design) => Finding::Yes,
        Judgement::Yes => Finding::Design,
        Judgement::Section(s) => Finding::Section(s),
        Judgement::Total => Finding::Total,
    }
}

/// Whether the design that the text tells, where there is one, meets the rules and costs the total.
fn is_certified(net: &Network, total: Option<u64>, design: &Option<Listed>) -> bool
    ensures { IsTrue result ↔ AreCertified net.now total design.now }
{
    match design {
        Some(listed) => is_of_total(net, total, listed),
        None => true,
    }
}

/// Whether the text is that of a design that meets the rules and costs the total.
fn is_of_total(net: &Network, total: Option<u64>, listed: &Listed) -> bool
    ensures { IsTrue result ↔ IsCertified net.now total listed.now }
{
    matches!(check(net, listed), Verdict::Yes) && total == Some(listed.total)
}
