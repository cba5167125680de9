//! The text of a material list, line by line.
ghost use Rattle.std.specs.Prelude.{◌≡◌, ◌++◌, IfOk, OnOk, string_bytes};
ghost use Rattle.std.specs.Fmt.{decimal};
ghost use Rattle.std.specs.List.{flat_map};
ghost use Rattle.material_takeoff.specs.TakeOffText.{takeoff_text, no_cost_text, size_line, section_line, money_line, return_fan_line};

use crate::record::{SizeUse, TakeOff};
use duct_definitions::{Listed, ListedFan, ListedSection};
use duct_units::{List, Name, NoMemory};
use std::alloc::Global;
use text_lines::{Text, number, one_line};

/// The text of a material list, with the listed prices and costs.
pub fn print_takeoff(
    alloc: Global,
    takeoff: &TakeOff,
    listed: &Listed,
) -> Result<List<u8>, NoMemory>
    ensures { IfOk result (λ text. text ≡ takeoff_text takeoff.now listed.now) }
{
    let mut text = Text::new(alloc);
    text.line(b"takeoff", &[b"1"])?;
    text.line(b"project", &[listed.project.bytes()])?;
    add_sizes(alloc, &mut text, takeoff.sizes.as_slice())?;
    add_sections(alloc, &mut text, listed.sections.as_slice())?;
    add_money(alloc, &mut text, b"fan", &listed.fan, listed.fan_cost)?;
    add_return_fan(alloc, &mut text, &listed.back)?;
    text.numbers(alloc, b"cost", &[listed.total])?;
    text.line(b"end", &[])?;
    Ok(text.into_list())
}

/// The text where the listed total isn't the sum.
pub fn print_no_cost(alloc: Global) -> Result<List<u8>, NoMemory>
    ensures { IfOk result (λ text. text ≡ no_cost_text) }
{
    one_line(alloc, b"takeoff", &[b"no", b"cost"])
}

fn add_sizes(alloc: Global, text: &mut Text, sizes: &[SizeUse]) -> Result<(), NoMemory>
    ensures { OnOk result (text.new ≡ text.old ++ flat_map size_line sizes.now) }
{
    for size in sizes {
        add_size(alloc, text, size)?;
    }
    Ok(())
}

fn add_size(alloc: Global, text: &mut Text, size: &SizeUse) -> Result<(), NoMemory>
    ensures { OnOk result (text.new ≡ text.old ++ size_line size.now) }
{
    let count = number(alloc, u64::from(size.count))?;
    let length = number(alloc, size.length)?;
    let price = wide_number(alloc, size.price)?;
    text.line(
        b"size",
        &[
            size.name.bytes(),
            count.as_bytes(),
            length.as_bytes(),
            price.as_bytes(),
        ],
    )
}

/// A number of 128 bits in plain decimals.
fn wide_number(alloc: Global, n: u128) -> Result<String, NoMemory>
    ensures { IfOk result (λ text. string_bytes text ≡ decimal n) }
{
    n.to_string(alloc).map_err(|_| NoMemory)
}

fn add_sections(alloc: Global, text: &mut Text, sections: &[ListedSection]) -> Result<(), NoMemory>
    ensures { OnOk result (text.new ≡ text.old ++ flat_map section_line sections.now) }
{
    for section in sections {
        add_money(alloc, text, b"section", &section.name, section.price)?;
    }
    Ok(())
}

/// The return fan's line, where there is one.
fn add_return_fan(alloc: Global, text: &mut Text, back: &Option<ListedFan>) -> Result<(), NoMemory>
    ensures { OnOk result (text.new ≡ text.old ++ return_fan_line back.now) }
{
    match back {
        Some(fan) => add_money(alloc, text, b"return-fan", &fan.name, fan.cost),
        None => Ok(()),
    }
}

/// A line of a name and an amount of money, cents.
fn add_money(
    alloc: Global,
    text: &mut Text,
    first: &[u8],
    name: &Name,
    cents: u64,
) -> Result<(), NoMemory>
    ensures { OnOk result (text.new ≡ text.old ++ money_line first.now name.now cents) }
{
    let cents = number(alloc, cents)?;
    text.line(first, &[name.bytes(), cents.as_bytes()])
}
