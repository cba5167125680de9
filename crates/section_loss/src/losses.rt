//! What a section loses beside its neighbour.
ghost use Rattle.std.specs.Prelude.{◌≡◌, ◌↔◌, ◌<◌, ◌≤◌, ◌≤ℤ◌, pos, neg_ℤ, option_copied, option_map, IfSome, IsNone};
ghost use Rattle.std.specs.Option.{ForSome};
ghost use Rattle.std.specs.Prelude.{length as count};
ghost use Rattle.duct_definitions.specs.declared.limits.TheConstants.{MAX_LOSS};
ghost use Rattle.friction_table.specs.Loss.{IsAboveAll};
ghost use Rattle.friction_table.specs.Reading.{table_of};
ghost use Rattle.size_catalogue.specs.Catalogue.{IsSize};
ghost use Rattle.section_loss.specs.Facts.{IsFacts, IsJoined};
ghost use Rattle.section_loss.specs.Loss.{junction_loss_of, junction_loss_beside, junction_coefficient, local_loss_of, loss_of, own_loss_of, together_of};

use crate::facts::SectionFacts;
use crate::fitting::{fitting_loss, ratio};
use crate::limits::{MAX_FITTING_LOSS, MAX_OWN_LOSS};
use fitting_tables::{Fittings, MAX_VALUE, MIN_VALUE};
use friction_table::Friction;
use size_catalogue::Size;

/// What the section loses in the size with the number, beside a size of its neighbour, dPa; None where the size has no
/// friction at the airflow (docs/RULES.md, "Section loss"). It is `own_loss` and `junction_loss` together.
pub fn loss(
    facts: &SectionFacts,
    friction: &Friction,
    fittings: &Fittings,
    number: u32,
    size: &Size,
    beside: Option<&Size>,
) -> Option<u64>
    requires facts { IsFacts facts.now }
    requires junction { IsJoined facts.now fittings.now }
    requires number { number < count friction.now }
    requires size { IsSize size.now }
    requires beside { ForSome (option_copied beside) IsSize }
    ensures none { IsNone result ↔ IsAboveAll facts.now.flow (table_of friction.now number) }
    ensures value { result ≡
        loss_of facts.now (table_of friction.now number) fittings.now size.now (option_copied beside.entry) }
    ensures parts { result ≡
        option_map
        (λ own. together_of own (junction_loss_of facts.now fittings.now size.now (option_copied beside.entry)))
        (own_loss_of facts.now (table_of friction.now number) size.now) }
    ensures most { IfSome result (λ loss. loss ≤ MAX_LOSS) }
{
    let own = own_loss(facts, friction, number, size)?;
    let junction = junction_loss(facts, fittings, size, beside);
    Some(together(own, junction))
}

/// What the section loses in the size with the number whatever stands beside it, dPa: friction, local loss and device,
/// each rounded by itself. None where the size has no friction at the airflow.
pub fn own_loss(facts: &SectionFacts, friction: &Friction, number: u32, size: &Size) -> Option<u64>
    requires facts { IsFacts facts.now }
    requires number { number < count friction.now }
    requires size { IsSize size.now }
    ensures none { IsNone result ↔ IsAboveAll facts.now.flow (table_of friction.now number) }
    ensures value { result ≡ own_loss_of facts.now (table_of friction.now number) size.now }
    ensures most { IfSome result (λ own. own ≤ MAX_OWN_LOSS) }
{
    let friction = friction.loss(number, facts.flow, facts.length)?;
    Some(friction + local_loss(facts, size) + facts.device)
}

// What the local coefficient loses, dPa.
fn local_loss(facts: &SectionFacts, size: &Size) -> u64
    requires facts { IsFacts facts.now }
    requires size { IsSize size.now }
    ensures value { result ≡ local_loss_of facts.now size.now }
    ensures most { result ≤ MAX_FITTING_LOSS }
{
    fitting_loss(facts, size.area, facts.local as i64) as u64
}

/// What the section's junction loses beside a size of its neighbour, dPa, or gains where it is below 0; 0 without a
/// junction, and 0 at the fan.
pub fn junction_loss(
    facts: &SectionFacts,
    fittings: &Fittings,
    size: &Size,
    beside: Option<&Size>,
) -> i64
    requires facts { IsFacts facts.now }
    requires junction { IsJoined facts.now fittings.now }
    requires size { IsSize size.now }
    requires beside { ForSome (option_copied beside) IsSize }
    ensures value { result ≡ junction_loss_of facts.now fittings.now size.now (option_copied beside.entry) }
    ensures bounds { (neg_ℤ (pos MAX_FITTING_LOSS) ≤ℤ result) × (result ≤ℤ pos MAX_FITTING_LOSS) }
{
    let Some(table) = facts.table else {
        return 0;
    };
    let Some(beside) = beside else {
        return 0;
    };
    junction_loss_beside(facts, fittings, table, size, beside)
}

// What the junction of the table loses at the section's own velocity pressure, dPa.
fn junction_loss_beside(
    facts: &SectionFacts,
    fittings: &Fittings,
    table: u32,
    size: &Size,
    beside: &Size,
) -> i64
    requires facts { IsFacts facts.now }
    requires table { table < count fittings.now.grids }
    requires neighbour { 1 ≤ facts.now.neighbour_flow }
    requires size { IsSize size.now }
    requires beside { IsSize beside.now }
    ensures value { result ≡ junction_loss_beside facts.now fittings.now size.now table beside.now }
    ensures bounds { (neg_ℤ (pos MAX_FITTING_LOSS) ≤ℤ result) × (result ≤ℤ pos MAX_FITTING_LOSS) }
{
    let coefficient = coefficient_at(facts, fittings, table, size, beside);
    fitting_loss(facts, size.area, coefficient)
}

// The coefficient of the table at the section's area and airflow over its neighbour's, thousandths.
fn coefficient_at(
    facts: &SectionFacts,
    fittings: &Fittings,
    table: u32,
    size: &Size,
    beside: &Size,
) -> i64
    requires facts { IsFacts facts.now }
    requires table { table < count fittings.now.grids }
    requires neighbour { 1 ≤ facts.now.neighbour_flow }
    requires size { IsSize size.now }
    requires beside { IsSize beside.now }
    ensures value { result ≡ junction_coefficient facts.now fittings.now size.now table beside.now }
    ensures bounds { (MIN_VALUE ≤ℤ result) × (result ≤ℤ MAX_VALUE) }
{
    let area = ratio(size.area, beside.area);
    let flow = ratio(facts.flow, facts.neighbour_flow);
    fittings.coefficient(table, area, flow)
}

/// What a section loses that loses so much by itself and so much at its junction, dPa: the sum, and 0 where it is
/// below 0.
pub fn together(own: u64, junction: i64) -> u64
    requires own { own ≤ MAX_OWN_LOSS }
    requires junction { (neg_ℤ (pos MAX_FITTING_LOSS) ≤ℤ junction) × (junction ≤ℤ pos MAX_FITTING_LOSS) }
    ensures value { result ≡ together_of own junction }
    ensures most { result ≤ MAX_LOSS }
{
    (own as i64 + junction).max(0) as u64
}
