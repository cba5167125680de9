//! The two texts of a network.
ghost use Rattle.std.specs.Prelude.{◌≡◌, IfOk};
ghost use Rattle.duct_definitions.specs.Designs.{Meets};
ghost use Rattle.duct_definitions.specs.DesignText.{text, listed, none_text};
ghost use Rattle.damper_balance.specs.Balance.{AreDampers};

use crate::lines::{add_heading, add_refusals, text_of};
use crate::listing::listed;
use damper_balance::Dampers;
use duct_definitions::{Design, RuleCount};
use duct_units::{List, Name, NoMemory};
use net_model::Network;
use std::alloc::Global;
use text_lines::Text;

/// The text of a design that meets the rules; `dampers` are its heads and dampers.
pub fn print(
    alloc: Global,
    net: &Network,
    d: &Design,
    dampers: &Dampers,
) -> Result<List<u8>, NoMemory>
    requires meets { Meets net.now d.now }
    requires dampers { AreDampers net.now d.now dampers.now }
    ensures { IfOk result (λ answer. answer ≡ text (listed net.now d.now)) }
{
    text_of(alloc, &listed(alloc, net, d, dampers)?)
}

/// The text of a network of this name in which no design meets the rules, with how many pairs of sizes each rule
/// refused; no rules where none was asked.
pub fn print_none(alloc: Global, name: &Name, refusals: &[RuleCount]) -> Result<List<u8>, NoMemory>
    ensures { IfOk result (λ answer. answer ≡ none_text name.now refusals.now) }
{
    let mut text = Text::new(alloc);
    add_heading(&mut text, b"1", name)?;
    text.line(b"none", &[])?;
    add_refusals(alloc, &mut text, refusals)?;
    text.line(b"end", &[])?;
    Ok(text.into_list())
}
