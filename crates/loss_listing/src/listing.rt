//! A line for each question.
ghost use Rattle.std.specs.Prelude.{◌≡◌, ◌++◌, IfOk, OnOk};
ghost use Rattle.loss_listing.specs.declared.answer.Answer.TheVariants.{Signed};
ghost use Rattle.loss_listing.specs.Listing.{line_of, IsListing};

use crate::answer::{Answer, answer_to};
use crate::catalogues::Catalogues;
use csv_fields::Rows;
use duct_units::{List, NoMemory, ReadError, Reason};
use std::alloc::Global;
use text_lines::Text;

/// The first row of a file of questions.
const HEADER: [&str; 1] = ["question"];

/// The most questions.
const MAX_QUESTIONS: u32 = 1_000_000;

/// The answers to the questions of a file, a line each; or the first row that is no question.
pub fn listing_of(
    alloc: Global,
    catalogues: &Catalogues,
    questions: &[u8],
) -> Result<List<u8>, ReadError>
    ensures { IfOk result (IsListing catalogues.now questions.now) }
{
    let mut rows = Rows::open(alloc, questions, &HEADER)?;
    let mut text = Text::new(alloc);
    for _ in 0..MAX_QUESTIONS {
        if !rows.advance()? {
            return Ok(text.into_list());
        }
        match answer_to(catalogues, &rows) {
            Some(answer) => add_answer(alloc, &mut text, answer)?,
            None => return Err(ReadError::Refused(rows.fault(Reason::Field))),
        }
    }
    Err(ReadError::Refused(rows.fault(Reason::TooMany)))
}

fn add_answer(alloc: Global, text: &mut Text, answer: Answer) -> Result<(), NoMemory>
    ensures { OnOk result (text.new ≡ text.old ++ line_of answer) }
{
    match answer {
        Answer::Nothing => text.line(b"none", &[]),
        Answer::Amount(number) => text.numbers(alloc, b"is", &[number]),
        Answer::Signed(number) => add_signed(alloc, text, number),
        Answer::Truth(true) => text.line(b"yes", &[]),
        Answer::Truth(false) => text.line(b"no", &[]),
    }
}

fn add_signed(alloc: Global, text: &mut Text, number: i64) -> Result<(), NoMemory>
    ensures { OnOk result (text.new ≡ text.old ++ line_of (Signed number)) }
{
    let word: &[u8] = if number < 0 { b"below" } else { b"is" };
    text.numbers(alloc, word, &[number.unsigned_abs()])
}
