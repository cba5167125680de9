//! The text of a design, line by line.
ghost use Rattle.std.specs.Prelude.{◌≡◌, ◌++◌, codes, IfOk, OnOk};
ghost use Rattle.std.specs.List.{flat_map};
ghost use Rattle.duct_definitions.specs.DesignText.{text, form_of, heading, fan_line, first_fan, back_line, section_line, refused_line};

use duct_definitions::{Listed, ListedFan, ListedSection, RuleCount};
use duct_units::{List, Name, NoMemory};
use std::alloc::Global;
use text_lines::{Text, number};

/// The text of the fields of a design.
pub(crate) fn text_of(alloc: Global, fields: &Listed) -> Result<List<u8>, NoMemory>
    ensures { IfOk result (λ answer. answer ≡ text fields.now) }
{
    let mut text = Text::new(alloc);
    add_heading(&mut text, form_of(&fields.back), &fields.project)?;
    add_fan(alloc, &mut text, fields)?;
    add_back(alloc, &mut text, &fields.back)?;
    text.numbers(alloc, b"supply", &[fields.supply_worst, fields.supply_head])?;
    text.numbers(alloc, b"return", &[fields.return_worst, fields.return_head])?;
    add_sections(alloc, &mut text, fields.sections.as_slice())?;
    text.numbers(alloc, b"cost", &[fields.total])?;
    text.line(b"end", &[])?;
    Ok(text.into_list())
}

/// The form of a text: 1 with one fan, 2 with a return fan.
fn form_of(back: &Option<ListedFan>) -> &'static [u8]
    ensures { result.now ≡ form_of back.now }
{
    match back {
        None => b"1",
        Some(_) => b"2",
    }
}

/// The lines that each text begins with.
pub(crate) fn add_heading(text: &mut Text, form: &[u8], project: &Name) -> Result<(), NoMemory>
    ensures { OnOk result (text.new ≡ text.old ++ heading form.now project.now) }
{
    text.line(b"design", &[form])?;
    text.line(b"project", &[project.bytes()])
}

fn add_fan(alloc: Global, text: &mut Text, fields: &Listed) -> Result<(), NoMemory>
    ensures { OnOk result (text.new ≡ text.old ++ fan_line (codes "fan") (first_fan fields.now)) }
{
    let fan = ListedFan {
        name: fields.fan,
        pressure: fields.pressure,
        cost: fields.fan_cost,
    };
    add_fan_line(alloc, text, b"fan", &fan)
}

/// The return fan's line, where there is one.
fn add_back(alloc: Global, text: &mut Text, back: &Option<ListedFan>) -> Result<(), NoMemory>
    ensures { OnOk result (text.new ≡ text.old ++ back_line back.now) }
{
    match back {
        Some(fan) => add_fan_line(alloc, text, b"return-fan", fan),
        None => Ok(()),
    }
}

fn add_fan_line(
    alloc: Global,
    text: &mut Text,
    first: &[u8],
    fan: &ListedFan,
) -> Result<(), NoMemory>
    ensures { OnOk result (text.new ≡ text.old ++ fan_line first.now fan.now) }
{
    let pressure = number(alloc, fan.pressure)?;
    let cost = number(alloc, fan.cost)?;
    text.line(
        first,
        &[fan.name.bytes(), pressure.as_bytes(), cost.as_bytes()],
    )
}

fn add_sections(alloc: Global, text: &mut Text, sections: &[ListedSection]) -> Result<(), NoMemory>
    ensures { OnOk result (text.new ≡ text.old ++ flat_map section_line sections.now) }
{
    for section in sections {
        add_section(alloc, text, section)?;
    }
    Ok(())
}

fn add_section(alloc: Global, text: &mut Text, section: &ListedSection) -> Result<(), NoMemory>
    ensures { OnOk result (text.new ≡ text.old ++ section_line section.now) }
{
    let loss = number(alloc, section.loss)?;
    let price = number(alloc, section.price)?;
    let damper = number(alloc, section.damper)?;
    text.line(
        b"section",
        &[
            section.name.bytes(),
            section.size.bytes(),
            loss.as_bytes(),
            price.as_bytes(),
            damper.as_bytes(),
        ],
    )
}

/// The lines of the rules and how many pairs each refused.
pub(crate) fn add_refusals(
    alloc: Global,
    text: &mut Text,
    refusals: &[RuleCount],
) -> Result<(), NoMemory>
    ensures { OnOk result (text.new ≡ text.old ++ flat_map refused_line refusals.now) }
{
    for rule in refusals {
        add_refusal(alloc, text, rule)?;
    }
    Ok(())
}

fn add_refusal(alloc: Global, text: &mut Text, rule: &RuleCount) -> Result<(), NoMemory>
    ensures { OnOk result (text.new ≡ text.old ++ refused_line rule.now) }
{
    let count = number(alloc, rule.count)?;
    text.line(b"refused", &[rule.name.bytes(), count.as_bytes()])
}
