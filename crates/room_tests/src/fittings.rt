//! What files of fittings say, and the coefficients of a junction.

use crate::texts::file;
use duct_units::Name;
use fitting_tables::{Fittings, read_fittings};
use std::alloc::Global;
use std::test::Fail;

/// The header, and a whole file.
const WORDS: [(&str, &str); 2] = [
    (r"\H", "table,area,flow,value\n"),
    (
        r"\T",
        "table,area,flow,value\ntee,500,250,100\ntee,500,750,300\ntee,1000,250,200\ntee,1000,750,-101\n",
    ),
];

/// A case a line: the answer, what is asked, and the bytes of a file. Asked is the coefficient of a table at an area
/// ratio and a flow ratio, all in thousandths; where nothing is asked, whether the file is read. A line without bars
/// says what the cases below it show.
const CASES: &str = r#"
The first row is the header, and there need be no other.
refused at Row 1: Header||
refused at Row 1: Header||table,area,flow\n
refused at Row 1: Header||table,flow,area,value\n
read||table,area,flow,value
read||\T

Four fields.
refused at Row 2: Columns||\Htee,500,250\n
refused at Row 2: Columns||\Htee,500,250,100,\n
refused at Row 2: Columns||\H"tee,500,250,100\n
refused at Row 2: Field||\H,,,\n

Names and numbers.
refused at Row 2: Field||\Ht e,500,250,100\n
refused at Row 2: Field||\Htee,1000001,250,100\n
refused at Row 2: Field||\Htee,500,1000001,100\n
refused at Row 2: Field||\Htee,-1,250,100\n
refused at Row 2: Field||\Htee,500,250,1000001\n
refused at Row 2: Field||\Htee,500,250,-1000001\n
refused at Row 2: Field||\Htee,500,250,-0\n
1000000|tee 0 1000000|\Htee,0,1000000,1000000\n
-1000000|tee 1000000 0|\Htee,1000000,0,-1000000\n

A cell is given once.
refused at Row 3: Twice||\Htee,500,250,100\ntee,500,250,100\n
refused at Row 6: Twice||\Ttee,500,750,300\n
read||\Htee,500,250,100\nrun,500,250,100\n

A grid is whole; the first table with a hole is named.
refused at Table 1: Hole||\Htee,500,250,100\ntee,500,750,300\ntee,1000,250,200\n
refused at Table 2: Hole||\Hrun,1,1,0\ntee,500,250,100\ntee,1000,750,300\nend,1,1,0\nend,2,2,0\n
refused at Row 4: Field||\Htee,500,250,100\ntee,1000,750,300\ntee,,,\n

At most 32 tables, and 20 area ratios and 20 flow ratios of each.
read||\H`32 of t#,1,1,0\n`
refused at Row 34: TooMany||\H`33 of t#,1,1,0\n`
read||\H`20 of tee,#,1,0\n`
refused at Row 22: TooMany||\H`21 of tee,#,1,0\n`
read||\H`20 of tee,1,#,0\n`
refused at Row 22: TooMany||\H`21 of tee,1,#,0\n`
read||\H`20 of ~20 of tee,#,@,5\n~`
refused at Row 22: Twice||\H`20 of tee,#,1,0\n`tee,20,1,0\n

A ratio beyond the first or the last breakpoint counts as that one. Midway between all four cells their sum, 499, over 4
is 124.75, rounded up to 125.
-101|tee 2000 900|\T
100|tee 100 0|\T
125|tee 750 500|\T
none|run 750 500|\T

On a breakpoint of one ratio the other alone counts: (300 - 101) / 2 = 99.5, and (200 - 101) / 2 = 49.5.
300|tee 500 750|\T
100|tee 750 750|\T
50|tee 1000 500|\T

What is below zero is rounded up too, towards zero: (-100 - 101) / 2 = -100.5.
-100|tee 1 500|\Htee,1,250,-100\ntee,1,750,-101\n

A table of 400 and 1000 by 250 and 750: a quarter of the way from 900 to 700 is 850; from 500 to 300 it is 450, and
three quarters are 350.
850|tee 400 375|\Htee,400,250,900\ntee,400,750,700\ntee,1000,250,500\ntee,1000,750,300\n
450|tee 1000 375|\Htee,400,250,900\ntee,400,750,700\ntee,1000,250,500\ntee,1000,750,300\n
350|tee 1000 625|\Htee,400,250,900\ntee,400,750,700\ntee,1000,250,500\ntee,1000,750,300\n
350|tee 1000 625|\Htee,1000,750,300\ntee,400,750,700\ntee,1000,250,500\ntee,400,250,900\n
"#;

#[test]
fn a_file_is_its_tables_or_the_first_refusal(rt: HostRuntime) -> Result<(), Fail> {
    for line in CASES.lines() {
        if let Some((wanted, case)) = line.split_once('|') {
            let found = outcome(rt.alloc(), case)?;
            assert_eq!(rt; found.as_str(), wanted, "at {line}");
        }
    }
    Ok(())
}

/// What a file says of what is asked.
fn outcome(alloc: Global, case: &str) -> Result<String, Fail> {
    let (asked, text) = case.split_once('|').ok_or("no file")?;
    let bytes = file(alloc, text, &WORDS)?;
    match read_fittings(alloc, &bytes) {
        Ok(fittings) => told(alloc, &fittings, asked),
        Err(error) => Ok(format!(in alloc; "{error}")?),
    }
}

fn told(alloc: Global, fittings: &Fittings, asked: &str) -> Result<String, Fail> {
    let Some((name, ratios)) = asked.split_once(' ') else {
        return Ok(String::from_str(alloc, "read")?);
    };
    let name = Name::new(name.as_bytes()).ok_or("no name")?;
    let Some(table) = fittings.table(&name) else {
        return Ok(String::from_str(alloc, "none")?);
    };
    let (area, flow) = ratios.split_once(' ').ok_or("no flow ratio")?;
    let coefficient = fittings.coefficient(table, area.parse::<u64>()?, flow.parse::<u64>()?);
    Ok(format!(in alloc; "{coefficient}")?)
}
