//! A design text read line by line.
ghost use Rattle.std.specs.Prelude.{◌≡◌, ◌+◌, ◌≤◌, ◌<◌, length, IfOk, IfErr, option_map};
ghost use Rattle.duct_units.specs.Rules.{Gives, line_fault};
ghost use Rattle.duct_units.specs.declared.fault.Reason.TheVariants.{Form};
ghost use Rattle.duct_units.specs.declared.fault.ReadError.TheVariants.{Refused};
ghost use Rattle.duct_definitions.specs.declared.limits.TheConstants.{MAX_SECTIONS};
ghost use Rattle.design_text.specs.Texts.{IsTextOf, IsRefusal};
ghost use Rattle.design_text.specs.Fields.{sections_at};
ghost use Rattle.design_text.specs.Reading.{reading, cost_at, back_at, end_at};

use crate::fields::{fan_at, form_at, name_at, number_at, numbers_at, section_at};
use duct_definitions::{Listed, ListedFan, ListedSection, MAX_SECTIONS};
use duct_units::{Fault, List, NoMemory, ReadError, Reason};
use line_words::after_word;
use std::alloc::Global;

/// The fields of a design text; bytes that are none are refused at the first line with which no design text begins.
///
/// A file that ends early is refused at the line that is missing, and a last line without its line feed at that line.
pub fn read(alloc: Global, bytes: &[u8]) -> Result<Listed, ReadError>
    ensures ok { IfOk result (λ l. IsTextOf l bytes.now) }
    ensures refused { IfErr result (IsRefusal bytes.now) }
    ensures value { Gives result (reading bytes.now) }
{
    fields_of(alloc, bytes)
}

/// The fault of a line, counted from 1.
fn form_fault(line: u64) -> ReadError
    requires { line ≤ 1000 }
    ensures { result ≡ Refused (line_fault line Form) }
{
    Fault::of_line(line as u32, Reason::Form).into()
}

/// The fields that the bytes spell.
#[tactic(auto, unfolding(crate::specs::Reading::reading))]
fn fields_of(alloc: Global, bytes: &[u8]) -> Result<Listed, ReadError>
    ensures { Gives result (reading bytes.now) }
{
    let Some((form, rest)) = form_at(bytes) else {
        return Err(form_fault(1));
    };
    let Some((project, rest)) = name_at(rest, b"project") else {
        return Err(form_fault(2));
    };
    let Some((fan, rest)) = fan_at(rest, b"fan") else {
        return Err(form_fault(3));
    };
    let Some((back, rest)) = back_at(rest, form) else {
        return Err(form_fault(4));
    };
    let Some(((supply_worst, supply_head), rest)) = numbers_at(rest, b"supply") else {
        return Err(form_fault(form + 3));
    };
    let Some(((return_worst, return_head), rest)) = numbers_at(rest, b"return") else {
        return Err(form_fault(form + 4));
    };
    let (sections, rest) = sections_at(alloc, rest)?;
    let line = form + 5 + sections.as_slice().len() as u64;
    let Some((total, rest)) = cost_at(rest, sections.as_slice().len()) else {
        return Err(form_fault(line));
    };
    let fields = Listed {
        project,
        fan: fan.name,
        pressure: fan.pressure,
        fan_cost: fan.cost,
        back,
        supply_worst,
        supply_head,
        return_worst,
        return_head,
        sections,
        total,
    };
    end_at(line + 1, fields, rest)
}

/// The fields, where the line of this number is the end and nothing stands behind it.
fn end_at(line: u64, fields: Listed, bytes: &[u8]) -> Result<Listed, ReadError>
    requires { line ≤ 999 }
    ensures { Gives result (end_at line fields bytes.now) }
{
    let Some(rest) = after_word(bytes, b"end", b'\n') else {
        return Err(form_fault(line));
    };
    if !rest.is_empty() {
        return Err(form_fault(line + 1));
    }
    Ok(fields)
}

/// The return fan, on a line of its own where the form is 2.
fn back_at(bytes: &[u8], form: u64) -> Option<(Option<ListedFan>, &[u8])>
    ensures { option_map (λ found. (found.0, found.1.now)) result ≡ back_at form bytes.now }
{
    if form == 1 {
        return Some((None, bytes));
    }
    match fan_at(bytes, b"return-fan") {
        Some((fan, rest)) => Some((Some(fan), rest)),
        None => None,
    }
}

/// The sections on the lines at the front, as many as a network may have.
fn sections_at(alloc: Global, bytes: &[u8]) -> Result<(List<ListedSection>, &[u8]), NoMemory>
    ensures value { IfOk result (λ found. (found.0, found.1.now) ≡ sections_at MAX_SECTIONS bytes.now) }
    ensures few { IfOk result (λ found. length found.0 ≤ MAX_SECTIONS) }
{
    let mut sections = Vec::new(alloc);
    let mut rest = bytes;
    for _ in 0..MAX_SECTIONS {
        let Some((section, after)) = section_at(rest) else {
            return Ok((List::from_vec(sections), rest));
        };
        sections.push(section)?;
        rest = after;
    }
    Ok((List::from_vec(sections), rest))
}

/// The cost on its line, behind one section at least.
fn cost_at(bytes: &[u8], sections: usize) -> Option<(u64, &[u8])>
    ensures { option_map (λ found. (found.0, found.1.now)) result ≡ cost_at sections bytes.now }
{
    if sections == 0 {
        None
    } else {
        number_at(bytes, b"cost")
    }
}
