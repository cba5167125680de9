//! The fronts of all sections, put into a certificate.
ghost use Rattle.std.specs.Prelude.{◌≡◌, ◌++◌, All, IfOk, OnOk};
ghost use Rattle.contract_join.specs.SectionFronts.{AreExact, AreFrontsOf};
ghost use Rattle.exact_certificate.specs.Exact.{HasExactFronts, collected};

use contract_join::SectionFronts;
use duct_units::{List, NoMemory};
use front_certificate::Certificate;
use net_model::Network;
use std::alloc::Global;

/// The certificate with this total and with the fronts of all sections, which are moved.
pub(crate) fn certificate_of(
    alloc: Global,
    net: &Network,
    sections: List<SectionFronts>,
    total: Option<u64>,
) -> Result<Certificate, NoMemory>
    requires { AreFrontsOf net.now sections }
    ensures total { IfOk result (λ c. c.total ≡ total) }
    ensures fronts { IfOk result (λ c. HasExactFronts net.now c.fronts) }
{
    collected(alloc, sections, total)
}

/// The same, from exact fronts of any networks.
fn collected(
    alloc: Global,
    sections: List<SectionFronts>,
    total: Option<u64>,
) -> Result<Certificate, NoMemory>
    ensures total { IfOk result (λ c. c.total ≡ total) }
    ensures fronts { IfOk result (λ c. c.fronts ≡ collected sections.entry) }
    ensures exact { IfOk result (λ _. All (λ entry. AreExact entry.net entry.section entry.fronts) sections.entry) }
{
    let mut c = Certificate::start(alloc, total);
    for section in sections.into_vec() {
        add_section(&mut c, section)?;
    }
    Ok(c)
}

/// Adds the fronts of the next section.
fn add_section(c: &mut Certificate, section: SectionFronts) -> Result<(), NoMemory>
    ensures added { OnOk result (c.new ≡ record c.old { fronts = c.old.fronts ++ section.entry.fronts }) }
    ensures exact { AreExact section.entry.net section.entry.section section.entry.fronts }
{
    for front in section.release().into_fronts().into_vec() {
        c.push(front)?;
    }
    Ok(())
}
