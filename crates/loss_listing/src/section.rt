//! What a section loses beside its neighbour, by a question that gives its facts:
//! `loss,SIZE,NEIGHBOUR'S SIZE,DENSITY,AIRFLOW,NEIGHBOUR'S AIRFLOW,LENGTH,LOCAL,DEVICE,TABLE`, and the same with
//! `junction`. The neighbour's size is empty at the fan, and the table where nothing is lost at the junction.
ghost use Rattle.std.specs.Prelude.{◌≡◌, ◌<◌, length, IfSome};
ghost use Rattle.size_catalogue.specs.Catalogue.{IsSize};
ghost use Rattle.section_loss.specs.Facts.{IsFacts, IsJoined};
ghost use Rattle.loss_listing.specs.Answers.{facts_at, joined_facts, junction_answer, loss_answer, whole_size_at};

use crate::answer::{Answer, amount};
use crate::catalogues::Catalogues;
use csv_fields::Rows;
use duct_definitions::{MAX_DENSITY, MAX_DEVICE, MAX_FLOW, MAX_LENGTH, MAX_LOCAL, MIN_DENSITY};
use friction_table::MIN_FLOW;
use section_loss::{SectionFacts, junction_loss, loss};
use size_catalogue::Size;

/// What the section loses.
pub fn loss_answer(catalogues: &Catalogues, rows: &Rows<'_>) -> Option<Answer>
    ensures { result ≡ loss_answer catalogues.now rows.now.row }
{
    let facts = joined_facts(catalogues, rows)?;
    let number = catalogues.size_at(rows, 1)?;
    let size = catalogues.sizes.size(number);
    let beside = beside_at(catalogues, rows);
    let (friction, fittings) = (&catalogues.friction, &catalogues.fittings);
    Some(amount(loss(&facts, friction, fittings, number, &size, beside.as_ref())))
}

/// What its junction loses.
pub fn junction_answer(catalogues: &Catalogues, rows: &Rows<'_>) -> Option<Answer>
    ensures { result ≡ junction_answer catalogues.now rows.now.row }
{
    let facts = joined_facts(catalogues, rows)?;
    let size = catalogues.sizes.size(catalogues.size_at(rows, 1)?);
    let beside = beside_at(catalogues, rows);
    Some(Answer::Signed(junction_loss(&facts, &catalogues.fittings, &size, beside.as_ref())))
}

/// The size of the neighbour; None at the fan.
fn beside_at(catalogues: &Catalogues, rows: &Rows<'_>) -> Option<Size>
    ensures value { result ≡ whole_size_at catalogues.now rows.now.row 2 }
    ensures size { IfSome result IsSize }
{
    Some(catalogues.sizes.size(catalogues.size_at(rows, 2)?))
}

/// The facts of the section, whose neighbour has an airflow where there is a junction.
fn joined_facts(catalogues: &Catalogues, rows: &Rows<'_>) -> Option<SectionFacts>
    ensures value { result ≡ joined_facts catalogues.now rows.now.row }
    ensures facts { IfSome result IsFacts }
    ensures joined { IfSome result (λ facts. IsJoined facts catalogues.now.fittings) }
{
    let facts = facts_at(catalogues, rows)?;
    (facts.table.is_none() || facts.neighbour_flow > 0).then_some(facts)
}

/// The facts of the section.
fn facts_at(catalogues: &Catalogues, rows: &Rows<'_>) -> Option<SectionFacts>
    ensures value { result ≡ facts_at catalogues.now rows.now.row }
    ensures facts { IfSome result IsFacts }
    ensures table { IfSome result (λ facts. IfSome facts.table (λ table. table < length catalogues.now.fittings.grids)) }
{
    Some(SectionFacts {
        density: rows.number(3, MIN_DENSITY, MAX_DENSITY)?,
        flow: rows.number(4, MIN_FLOW, MAX_FLOW)?,
        neighbour_flow: rows.number(5, 0, MAX_FLOW)?,
        length: rows.number(6, 0, MAX_LENGTH)?,
        local: rows.number(7, 0, MAX_LOCAL)?,
        device: rows.number(8, 0, MAX_DEVICE)?,
        table: catalogues.table_at(rows, 9),
    })
}
