//! The lines of refusals and faults.
ghost use Rattle.std.specs.Prelude.{◌≡◌, IfOk};
ghost use Rattle.command_words.specs.RefusalText.{file_word, part_word, reason_word, refusal_line, words_line, fault_line};

use crate::commands::FileKind;
use duct_units::{Fault, List, NoMemory, Part, Reason};
use std::alloc::Global;
use text_lines::{number, one_line};

/// The line of refused words.
#[tactic(auto, unfolding(duct_units::specs::Lines::line))]
pub fn words_text() -> &'static [u8]
    ensures { result.now ≡ words_line }
{
    b"refused words\n"
}

/// The line of a read fault.
#[tactic(auto, unfolding(duct_units::specs::Lines::line))]
pub fn fault_text() -> &'static [u8]
    ensures { result.now ≡ fault_line }
{
    b"fault read\n"
}

/// The line of a file that is refused.
pub fn refusal_text(alloc: Global, file: FileKind, fault: &Fault) -> Result<List<u8>, NoMemory>
    ensures { IfOk result (λ text. text ≡ refusal_line file fault.now) }
{
    let place = number(alloc, u64::from(fault.place))?;
    one_line(
        alloc,
        b"refused",
        &[
            file_word(file),
            part_word(fault.part),
            place.as_bytes(),
            reason_word(fault.reason),
        ],
    )
}

fn file_word(file: FileKind) -> &'static [u8]
    ensures { result.now ≡ file_word file }
{
    match file {
        FileKind::Network => b"network",
        FileKind::Project => b"project",
        FileKind::Sizes => b"sizes",
        FileKind::Ducts => b"ducts",
        FileKind::Friction => b"friction",
        FileKind::Fittings => b"fittings",
        FileKind::Fans => b"fans",
        FileKind::ReturnFans => b"return-fans",
        FileKind::Design => b"design",
        FileKind::Certificate => b"certificate",
        FileKind::Script => b"script",
    }
}

fn part_word(part: Part) -> &'static [u8]
    ensures { result.now ≡ part_word part }
{
    match part {
        Part::File => b"file",
        Part::Fan => b"fan",
        Part::Section => b"section",
        Part::Row => b"row",
        Part::Size => b"size",
        Part::Table => b"table",
        Part::Line => b"line",
    }
}

fn reason_word(reason: Reason) -> &'static [u8]
    ensures { result.now ≡ reason_word reason }
{
    match reason {
        Reason::TooLong => b"too-long",
        Reason::Text => b"text",
        Reason::Key => b"key",
        Reason::Field => b"field",
        Reason::Format => b"format",
        Reason::Empty => b"empty",
        Reason::TooMany => b"too-many",
        Reason::Twice => b"twice",
        Reason::UnknownNeighbour => b"unknown-neighbour",
        Reason::NotBefore => b"not-before",
        Reason::OtherSide => b"other-side",
        Reason::NoSupply => b"no-supply",
        Reason::FlowMissing => b"flow-missing",
        Reason::FlowGiven => b"flow-given",
        Reason::FlowTooLarge => b"flow-too-large",
        Reason::JunctionAtFan => b"junction-at-fan",
        Reason::Header => b"header",
        Reason::Columns => b"columns",
        Reason::Order => b"order",
        Reason::Hole => b"hole",
        Reason::Missing => b"missing",
        Reason::UnknownSize => b"unknown-size",
        Reason::UnknownList => b"unknown-list",
        Reason::UnknownTable => b"unknown-table",
        Reason::UnknownPreset => b"unknown-preset",
        Reason::Pair => b"pair",
        Reason::Form => b"form",
        Reason::Unbuilt => b"unbuilt",
        Reason::UnknownSection => b"unknown-section",
    }
}
