//! What project files say.

use crate::texts::file;
use duct_units::{Name, Side};
use project_file::{Project, SectionRow, migrate, read_project};
use std::alloc::Global;
use std::test::Fail;

/// A whole file is `\H\S`, or `\G\S` in format 2. \M, \L and \R are the keys of the three sections, without an airflow.
const WORDS: [(&str, &str); 10] = [
    (
        r"\S",
        r"section = [{\M}, {\L, flow = 150}, {\R, flow = 250}]",
    ),
    (
        r"\M",
        "name = 'main', side = 'supply', length = 10000, list = 'round', local = 100",
    ),
    (
        r"\L",
        r"name = 'left', neighbour = 'main', length = 5000, \C",
    ),
    (
        r"\R",
        r"name = 'right', neighbour = 'main', length = 20000, \C",
    ),
    (
        r"\C",
        "side = 'supply', list = 'round', junction = 'tee', device = 150",
    ),
    (r"\H", r"format = 1\n\T\E rules = {velocity = 10000}\n"),
    (r"\G", r"format = 2\n\T\E rules = {velocity = 10000}\n"),
    (r"\A", r"format = 1\n\T\E"),
    (r"\T", r"name = 'small'\ndensity = 1200\n"),
    (
        r"\E",
        r"energy = {hours = 3000, tariff = 1500, worth = 5000}\n",
    ),
];

/// A case a line: the answer, a bar and the file. Of a file that is read: density, hours, tariff and worth, `taper`, and
/// what each side carries; then of each section its length, list, local coefficient, junction, device, airflow, preset,
/// greatest velocity and height, and leak, where `-` is none. A line without a bar says what the cases below it show.
const CASES: &str = r#"
A small system: its sections carry 400, 150 and 250.
1200 3000 1500 5000 false 400 0; main 10000 round 100 - 0 - - 10000 - 0; left 5000 round 0 tee 150 150 - 10000 - 0; right 20000 round 0 tee 150 250 - 10000 - 0|\H\S
1200 3000 1500 5000 false 400 0; main 10000 round 100 - 0 - - 10000 - 0; left 5000 round 0 tee 150 150 - 10000 - 0; right 20000 round 0 tee 150 250 - 10000 - 0|\B\G\S

One change at a time.
refused at File 0: Text|format = 1\nname = 'sm
refused at Section 1: NotBefore|\Hsection = [{\L, flow = 150}, {\R, flow = 250}, {\M}]
refused at Section 1: FlowGiven|\Hsection = [{\M, flow = 400}, {\L, flow = 150}, {\R, flow = 250}]
refused at Section 2: FlowMissing|\Hsection = [{\M}, {\L}, {\R, flow = 250}]
refused at Section 3: Twice|\Hsection = [{\M}, {\L, flow = 150}, {\L, flow = 250}]
refused at Section 1: JunctionAtFan|\Hsection = [{\M, junction = 'tee'}, {\L, flow = 150}, {\R, flow = 250}]
refused at Section 2: OtherSide|\Hsection = [{\M}, {name = 'left', side = 'return', neighbour = 'main', length = 1, list = 'round', flow = 1}]
refused at Section 2: Key|\Hsection = [{\M}, {\L, flow = 150, lenght = 5}, {\R, flow = 250}]
refused at Section 2: UnknownNeighbour|\Hsection = [{\M}, {name = 'left', neighbour = 'mian', length = 5000, \C, flow = 150}, {\R, flow = 250}]
refused at File 0: Field|format = 1\nname = 'small'\ndensity = 2001\n\E\S
refused at File 0: Field|format = 1\nname = 'small'\ndensity = 1200.0\n\E\S

Formats.
refused at File 0: Format|format = 3\n\T\E\S
refused at File 0: Format|format = 0\n\T\E\S
refused at File 0: Field|format = '1'\n\T\E\S
refused at File 0: Field|\T\E\S

Leaks, in format 2 alone: with 20, 50 and 0 thousandths 158 and 250 are to pass the first section, which carries 417.
1200 3000 1500 5000 false 417 0; main 10000 round 100 - 0 - - 10000 - 20; left 5000 round 0 tee 150 150 - 10000 - 50; right 20000 round 0 tee 150 250 - 10000 - 0|\Gsection = [{\M, leak = 20}, {\L, flow = 150, leak = 50}, {\R, flow = 250, leak = 0}]
refused at Section 2: Key|\Hsection = [{\M}, {\L, flow = 150, leak = 50}, {\R, flow = 250}]
refused at Section 1: Key|\Hsection = [{\M, leak = 0}]
refused at Section 1: Field|\Gsection = [{\M, leak = 201}]
refused at Section 1: Field|\Gsection = [{\M, leak = -1}]
1200 3000 1500 5000 false 120 0; main 10000 round 100 - 0 100 - 10000 - 200|\Gsection = [{\M, flow = 100, leak = 200}]

The top table, key by key; the tables `energy` and `rules` where their keys come.
refused at File 0: Key|\H\S\nmore = 1
refused at File 0: Field|format = 1\ndensity = 1200\n\E\S
refused at File 0: Field|format = 1\nname = 'a b'\ndensity = 1200\n\E\S
refused at File 0: Field|format = 1\nname = 'small'\ndensity = 0\n\E\S
refused at File 0: Field|format = 1\nname = 'small'\n\E\S
refused at File 0: Field|format = 1\n\T\S
refused at File 0: Field|format = 1\n\T energy = 1\n\S
refused at File 0: Key|format = 1\n\T energy = {hours = 1, tariff = 1, worth = 1, power = 1}\n section = 1
refused at File 0: Field|format = 1\n\T energy = {hours = 8785, tariff = 1, worth = 1}\n rules = {size = 1}\n section = 1
refused at File 0: Field|format = 1\n\T energy = {hours = 1, tariff = 1000001, worth = 1}\n\S
refused at File 0: Field|format = 1\n\T energy = {hours = 1, tariff = 1, worth = 1000001}\n\S
refused at File 0: Field|format = 1\n\T energy = {hours = 1, tariff = 1}\n\S
refused at File 0: Field|\A rules = 1\n\S
refused at File 0: Key|\A rules = {size = 1}\n section = 1
refused at File 0: Field|\A rules = {velocity = 0}\n\S
refused at File 0: Field|\A rules = {height = 1000001}\n\S
refused at File 0: Field|\A rules = {taper = 1}\n\S
refused at File 0: Field|\A
refused at File 0: Field|\A section = {}
refused at File 0: Field|\A section = [{\M}, 1]
refused at File 0: Key|format = 4\nmore = 1
refused at File 0: Format|format = 4\nname = 1
2000 8784 1000000 1000000 true 1 0; main 10000 round 100 - 0 1 - 1000000 1 0|format = 1\nname = 'n'\ndensity = 2000\nenergy = {hours = 8784, tariff = 1000000, worth = 1000000}\nrules = {velocity = 1000000, height = 1, taper = true}\nsection = [{\M, flow = 1}]
1 0 0 0 false 1 0; main 10000 round 100 - 0 1 - - - 0|format = 1\nname = 'n'\ndensity = 1\nenergy = {hours = 0, tariff = 0, worth = 0}\nrules = {taper = false}\nsection = [{\M, flow = 1}]

A section's own limits stand before the project's, greater or not; without either there is none.
1200 3000 1500 5000 false 1 0; main 10000 round 100 - 0 1 - 20000 7 0|\A rules = {velocity = 10000, height = 500}\nsection = [{\M, flow = 1, velocity = 20000, height = 7}]
1200 3000 1500 5000 false 1 0; main 10000 round 100 - 0 1 R2 10000 500 0|\A rules = {velocity = 10000, height = 500}\nsection = [{\M, flow = 1, preset = 'R2'}]
1200 3000 1500 5000 false 1 0; main 10000 round 100 - 0 1 - 9 - 0|\A section = [{\M, flow = 1, velocity = 9}]

The table of a section, key by key.
refused at Section 1: Field|\Hsection = [{}]
refused at Section 1: Field|\Hsection = [{side = 'supply', length = 1, list = 'r', flow = 1}]
refused at Section 1: Field|\Hsection = [{name = 'a', length = 1, list = 'r', flow = 1}]
refused at Section 1: Field|\Hsection = [{name = 'a', side = 'exhaust', length = 1, list = 'r', flow = 1}]
refused at Section 1: Field|\Hsection = [{name = 'a', side = 'supply', list = 'r', flow = 1}]
refused at Section 1: Field|\Hsection = [{name = 'a', side = 'supply', length = 1000001, list = 'r', flow = 1}]
refused at Section 1: Field|\Hsection = [{name = 'a', side = 'supply', length = 1, flow = 1}]
refused at Section 1: Field|\Hsection = [{name = 'a', side = 'supply', length = 1, list = 'r', flow = 1, neighbour = 1}]
refused at Section 1: Field|\Hsection = [{name = 'a', side = 'supply', length = 1, list = 'r', flow = 1, local = 1000001}]
refused at Section 1: Field|\Hsection = [{name = 'a', side = 'supply', length = 1, list = 'r', flow = 1, junction = ''}]
refused at Section 1: Field|\Hsection = [{name = 'a', side = 'supply', length = 1, list = 'r', flow = 1, device = 20001}]
refused at Section 1: Field|\Hsection = [{name = 'a', side = 'supply', length = 1, list = 'r', flow = 0}]
refused at Section 1: Field|\Hsection = [{name = 'a', side = 'supply', length = 1, list = 'r', flow = 200001}]
refused at Section 1: Field|\Hsection = [{name = 'a', side = 'supply', length = 1, list = 'r', flow = 1, preset = 1}]
refused at Section 1: Field|\Hsection = [{name = 'a', side = 'supply', length = 1, list = 'r', flow = 1, velocity = 1000001}]
refused at Section 1: Field|\Hsection = [{name = 'a', side = 'supply', length = 1, list = 'r', flow = 1, height = 0}]
1200 3000 1500 5000 false 200000 0; a 0 r 0 - 0 200000 - 1 1000000 0|\Hsection = [{name = 'a', side = 'supply', length = 0, list = 'r', flow = 200000, velocity = 1, height = 1000000}]
1200 3000 1500 5000 false 1 0; a 1000000 r 1000000 - 20000 1 - 10000 - 0|\Hsection = [{name = 'a', side = 'supply', length = 1000000, list = 'r', local = 1000000, device = 20000, flow = 1}]

In order: each section's table, its junction, its name; then the neighbours, the tree and the airflows.
refused at Section 1: JunctionAtFan|\Hsection = [{\M, junction = 'tee'}, {}]
refused at Section 2: JunctionAtFan|\Hsection = [{\M}, {\M, junction = 'tee'}]
refused at Section 1: Field|\Hsection = [{\M, junction = 'tee', flow = 0}]
refused at Section 1: Key|\Hsection = [{\M, junction = 'tee', flow = 0, more = 1}]
refused at Section 3: Twice|\Hsection = [{\L}, {\M}, {\M}]
refused at Section 2: UnknownNeighbour|\Hsection = [{\L}, {name = 'b', side = 'supply', neighbour = 'c', length = 1, list = 'r'}, {\M}]
refused at Section 1: NotBefore|\Hsection = [{\L}, {\M}]
refused at Section 2: FlowMissing|\Hsection = [{\M, flow = 1}, {name = 'b', side = 'supply', length = 1, list = 'r'}]
refused at File 0: Empty|\Hsection = []
refused at File 0: NoSupply|\Hsection = [{name = 'a', side = 'return', length = 1, list = 'r'}]
refused at Section 1: FlowGiven|\Hsection = [{\M, flow = 1}, {\L}]
refused at Section 1: FlowTooLarge|\Hsection = [{\M}, {\L, flow = 150000}, {\R, flow = 100000}]
refused at Section 3: FlowMissing|\Hsection = [{\M}, {\L, flow = 200000}, {\R}]
1200 3000 1500 5000 false 7 9; main 10000 round 100 - 0 7 - 10000 - 0; a 1 r 0 - 0 9 - 10000 - 0|\Hsection = [{\M, flow = 7}, {name = 'a', side = 'return', length = 1, list = 'r', flow = 9}]

At most 500 sections, which are counted before any of them is looked at.
refused at Section 500: FlowMissing|\Hsection = [`499 of {name = 's#', side = 'supply', length = 1, list = 'r', flow = 1}, `{\M}]
refused at File 0: TooMany|\Hsection = [`501 of {}, `]
"#;

#[test]
fn a_file_and_its_migrated_one_are_one_project_or_one_refusal(rt: HostRuntime) -> Result<(), Fail> {
    for line in CASES.lines() {
        if let Some((wanted, text)) = line.split_once('|') {
            let bytes = file(rt.alloc(), text, &WORDS)?;
            let found = outcome(rt.alloc(), &bytes)?;
            assert_eq!(rt; found.as_str(), wanted, "at {line}");
            let again = migrated(rt.alloc(), &bytes)?;
            assert_eq!(rt; again.as_str(), wanted, "migrated, at {line}");
        }
    }
    Ok(())
}

fn outcome(alloc: Global, bytes: &[u8]) -> Result<String, Fail> {
    match read_project(alloc, bytes) {
        Ok(project) => told(alloc, &project),
        Err(error) => Ok(format!(in alloc; "{error}")?),
    }
}

/// What the migrated file says, or why there is none.
fn migrated(alloc: Global, bytes: &[u8]) -> Result<String, Fail> {
    match migrate(alloc, bytes) {
        Ok(text) => in_format_2(alloc, text.as_slice()),
        Err(error) => Ok(format!(in alloc; "{error}")?),
    }
}

fn in_format_2(alloc: Global, bytes: &[u8]) -> Result<String, Fail> {
    let text = std::str::from_utf8(bytes)?;
    if !text.contains("format = 2") {
        return Err(Fail::from("another format"));
    }
    outcome(alloc, bytes)
}

fn told(alloc: Global, project: &Project) -> Result<String, Fail> {
    let mut text = terms(alloc, project)?;
    for row in project.sections.as_slice() {
        push_row(alloc, &mut text, row)?;
    }
    Ok(text)
}

/// What the project says of all sections, and what each side carries.
fn terms(alloc: Global, project: &Project) -> Result<String, Fail> {
    let energy = &project.energy;
    let supply = project.flows.side_flow(Side::Supply);
    let back = project.flows.side_flow(Side::Return);
    let bought = format!(in alloc; "{} {} {}", energy.hours, energy.tariff, energy.worth)?;
    Ok(format!(in alloc;
        "{} {bought} {} {supply} {back}",
        project.density, project.taper
    )?)
}

fn push_row(alloc: Global, text: &mut String, row: &SectionRow) -> Result<(), Fail> {
    let junction = named(&row.junction);
    let preset = named(&row.preset);
    let airflow = number(alloc, row.airflow)?;
    let velocity = number(alloc, row.velocity)?;
    let height = number(alloc, row.height)?;
    let name = spelled(&row.name);
    let list = spelled(&row.list);
    write!(
        text,
        "; {name} {} {list} {} {junction}",
        row.length, row.local
    )?;
    write!(
        text,
        " {} {airflow} {preset} {velocity} {height} {}",
        row.device, row.leak
    )?;
    Ok(())
}

fn number(alloc: Global, number: Option<u64>) -> Result<String, Fail> {
    match number {
        Some(number) => Ok(format!(in alloc; "{number}")?),
        None => Ok(String::from_str(alloc, "-")?),
    }
}

fn named(name: &Option<Name>) -> &str {
    match name {
        Some(name) => spelled(name),
        None => "-",
    }
}

fn spelled(name: &Name) -> &str {
    std::str::from_utf8(name.bytes()).unwrap_or("?")
}
