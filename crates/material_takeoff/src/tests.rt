//! Material lists of a project of three sections: main of 10000 mm, left of 5000 mm, and right of 20000 mm.
use crate::{TakeOffError, print_no_cost, print_takeoff, takeoff};
use duct_definitions::{Listed, ListedFan, ListedSection, MAX_LENGTH, MAX_SECTIONS};
use duct_units::{List, Name};
use std::alloc::Global;
use std::test::Fail;

/// A case a line: the printed list behind its first two lines, with a slash for each line feed, or why there is none; a
/// bar; the total, what the fan and the return fan cost, and the sections with their sizes and prices.
const CASES: &str = "
size R2 3 35000 107400/section main 30800/section left 15800/section right 60800/fan F 42500/cost 149900/end/ \
| 149900 42500 0 main R2 30800, left R2 15800, right R2 60800
size R2 2 30000 91600/size R1 1 5000 10800/section main 30800/section left 10800/section right 60800/fan F 63750/\
cost 166150/end/ | 166150 63750 0 main R2 30800, left R1 10800, right R2 60800
size R2 3 35000 107400/section main 30800/section left 15800/section right 60800/fan F 42500/return-fan B 7250/\
cost 157150/end/ | 157150 42500 7250 main R2 30800, left R2 15800, right R2 60800
no cost/ | 149901 42500 0 main R2 30800, left R2 15800, right R2 60800
names 2 | 149900 42500 0 main R2 30800, lefty R2 15800, right R2 60800
names 3 | 89100 42500 0 main R2 30800, left R2 15800
names 4 | 180700 42500 0 main R2 30800, left R2 15800, right R2 60800, back R2 30800
";

#[test]
fn a_design_has_this_material_list(rt: HostRuntime) -> Result<(), Fail> {
    for line in CASES.lines() {
        if let Some((wanted, case)) = line.split_once(" | ") {
            let found = outcome(rt.alloc(), case)?;
            assert_eq!(rt; found.as_str(), wanted, "at {line}");
        }
    }
    Ok(())
}

fn outcome(alloc: Global, case: &str) -> Result<String, Fail> {
    let names = names(alloc)?;
    let lengths = List::from_vec(vec![in alloc; 10_000u64, 5_000, 20_000]?);
    if names.as_slice().len() != lengths.as_slice().len()
        || names.as_slice().len() > MAX_SECTIONS
        || lengths.as_slice().iter().any(|length| *length > MAX_LENGTH)
    {
        return Err(Fail::from("another project"));
    }
    let listed = design(alloc, case)?;
    match takeoff(alloc, &names, &lengths, &listed) {
        Ok(t) => on_a_line(
            alloc,
            &print_takeoff(alloc, &t, &listed)?,
            "takeoff 1/project small/",
        ),
        Err(TakeOffError::Total) => on_a_line(alloc, &print_no_cost(alloc)?, "takeoff "),
        Err(TakeOffError::Names(n)) => Ok(format!(in alloc; "names {n}")?),
        Err(TakeOffError::NoMemory) => Err(Fail::from("out of memory")),
    }
}

/// What follows this beginning, with a slash for each line feed.
fn on_a_line(alloc: Global, text: &List<u8>, beginning: &str) -> Result<String, Fail> {
    let mut line = String::new(alloc);
    for byte in text.as_slice() {
        line.push(if *byte == b'\n' {
            '/'
        } else {
            char::from(*byte)
        })?;
    }
    let rest = line
        .as_str()
        .strip_prefix(beginning)
        .ok_or("another beginning")?;
    Ok(String::from_str(alloc, rest)?)
}

fn names(alloc: Global) -> Result<List<Name>, Fail> {
    let mut names = Vec::new(alloc);
    for word in ["main", "left", "right"] {
        names.push(name(word)?)?;
    }
    Ok(List::from_vec(names))
}

fn name(word: &str) -> Result<Name, Fail> {
    Ok(Name::new(word.as_bytes()).ok_or("no name")?)
}

/// The fields of a design; its losses and heads are 0.
fn design(alloc: Global, case: &str) -> Result<Listed, Fail> {
    let (total, rest) = case.split_once(' ').ok_or("no fan")?;
    let (fan, rest) = rest.split_once(' ').ok_or("no return fan")?;
    let (back, rest) = rest.split_once(' ').ok_or("no sections")?;
    let mut sections = Vec::new(alloc);
    for words in rest.split(", ") {
        sections.push(section(words)?)?;
    }
    Ok(Listed {
        project: name("small")?,
        fan: name("F")?,
        pressure: 400,
        fan_cost: fan.parse::<u64>()?,
        back: return_fan(back.parse::<u64>()?)?,
        supply_worst: 0,
        supply_head: 0,
        return_worst: 0,
        return_head: 0,
        sections: List::from_vec(sections),
        total: total.parse::<u64>()?,
    })
}

/// A return fan of this cost; None where it is 0.
fn return_fan(cost: u64) -> Result<Option<ListedFan>, Fail> {
    if cost == 0 {
        return Ok(None);
    }
    let fan = ListedFan {
        name: name("B")?,
        pressure: 100,
        cost,
    };
    Ok(Some(fan))
}

fn section(words: &str) -> Result<ListedSection, Fail> {
    let (first, rest) = words.split_once(' ').ok_or("no size")?;
    let (size, price) = rest.split_once(' ').ok_or("no price")?;
    Ok(ListedSection {
        name: name(first)?,
        size: name(size)?,
        loss: 0,
        price: price.parse::<u64>()?,
        damper: 0,
    })
}
