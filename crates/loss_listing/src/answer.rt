//! What a call answers to a question, for each call but those of a section beside its neighbour.
ghost use Rattle.std.specs.Prelude.{◌≡◌};
ghost use Rattle.file_definitions.specs.Rows.{has_field};
ghost use Rattle.loss_listing.specs.Answers.{answer_of, amount_of, friction_answer, coefficient_answer, price_answer, energy_answer, serves_answer};

use crate::catalogues::Catalogues;
use crate::section::{junction_answer, loss_answer};
use csv_fields::Rows;
use duct_definitions::{MAX_FLOW, MAX_LENGTH};
use fan_points::{Energy, MAX_HOURS, MAX_TARIFF, MAX_WORTH, eligible, energy};
use friction_table::MIN_FLOW;
use section_loss::{is_stepped, price};

/// The greatest number of a question that no limit bounds.
const MOST: u64 = 1_000_000_000_000;

/// What a call answered.
#[derive(Clone, Copy)]
pub enum Answer {
    /// No number: the airflow is above every row.
    Nothing,
    /// A number.
    Amount(u64),
    /// A number that may be below 0.
    Signed(i64),
    /// Whether it is so.
    Truth(bool),
}

/// The answer to the question at hand; None where it is no question.
pub fn answer_to(catalogues: &Catalogues, rows: &Rows<'_>) -> Option<Answer>
    ensures { result ≡ answer_of catalogues.now rows.now.row }
{
    if asks(rows, "friction") {
        friction_answer(catalogues, rows)
    } else if asks(rows, "coefficient") {
        coefficient_answer(catalogues, rows)
    } else if asks(rows, "junction") {
        junction_answer(catalogues, rows)
    } else if asks(rows, "loss") {
        loss_answer(catalogues, rows)
    } else if asks(rows, "price") {
        price_answer(catalogues, rows)
    } else if asks(rows, "energy") {
        energy_answer(catalogues, rows)
    } else if asks(rows, "serves") {
        serves_answer(catalogues, rows)
    } else {
        None
    }
}

/// Whether the first field of the row is the word.
fn asks(rows: &Rows<'_>, word: &str) -> bool
    ensures { result ≡ has_field word.now 0 rows.now.row }
{
    match rows.field(0) {
        Some(field) => field == word.as_bytes(),
        None => false,
    }
}

/// A number, or nothing.
pub fn amount(number: Option<u64>) -> Answer
    ensures { result ≡ amount_of number }
{
    match number {
        Some(number) => Answer::Amount(number),
        None => Answer::Nothing,
    }
}

/// `friction,SIZE,AIRFLOW,LENGTH`
fn friction_answer(catalogues: &Catalogues, rows: &Rows<'_>) -> Option<Answer>
    ensures { result ≡ friction_answer catalogues.now rows.now.row }
{
    let size = catalogues.size_at(rows, 1)?;
    let flow = rows.number(2, MIN_FLOW, MAX_FLOW)?;
    let length = rows.number(3, 0, MAX_LENGTH)?;
    Some(amount(catalogues.friction.loss(size, flow, length)))
}

/// `coefficient,TABLE,AREA RATIO,FLOW RATIO`
fn coefficient_answer(catalogues: &Catalogues, rows: &Rows<'_>) -> Option<Answer>
    ensures { result ≡ coefficient_answer catalogues.now rows.now.row }
{
    let table = catalogues.table_at(rows, 1)?;
    let area = rows.number(2, 0, MOST)?;
    let flow = rows.number(3, 0, MOST)?;
    Some(Answer::Signed(catalogues.fittings.coefficient(table, area, flow)))
}

/// `price,SIZE,NEIGHBOUR'S SIZE,LENGTH`, the second size empty at the fan.
fn price_answer(catalogues: &Catalogues, rows: &Rows<'_>) -> Option<Answer>
    ensures { result ≡ price_answer catalogues.now rows.now.row }
{
    let number = catalogues.size_at(rows, 1)?;
    let beside = catalogues.size_at(rows, 2);
    let length = rows.number(3, 0, MAX_LENGTH)?;
    let size = catalogues.sizes.size(number);
    Some(Answer::Amount(price(length, &size, is_stepped(number, beside))))
}

/// `energy,FAN,HOURS,TARIFF,WORTH`, the fan by its number from 1.
fn energy_answer(catalogues: &Catalogues, rows: &Rows<'_>) -> Option<Answer>
    ensures { result ≡ energy_answer catalogues.now rows.now.row }
{
    let fan = catalogues.fan_at(rows, 1)?;
    let terms = Energy {
        hours: rows.number(2, 0, MAX_HOURS)?,
        tariff: rows.number(3, 0, MAX_TARIFF)?,
        worth: rows.number(4, 0, MAX_WORTH)?,
    };
    Some(Answer::Amount(energy(&fan, &terms)))
}

/// `serves,FAN,AIRFLOW`
fn serves_answer(catalogues: &Catalogues, rows: &Rows<'_>) -> Option<Answer>
    ensures { result ≡ serves_answer catalogues.now rows.now.row }
{
    let fan = catalogues.fan_at(rows, 1)?;
    let flow = rows.number(2, 0, MOST)?;
    Some(Answer::Truth(eligible(&fan, flow)))
}
