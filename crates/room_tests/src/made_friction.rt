//! Which rates a file of ducts makes, and that the friction file of them reads back as them.

use crate::texts::file;
use duct_definitions::{MAX_DENSITY, MIN_DENSITY};
use duct_units::List;
use friction_maker::{MAX_VISCOSITY, MIN_VISCOSITY, MadeRow, make_friction, rows_text};
use friction_table::read_friction;
use size_catalogue::{Sizes, read_sizes};
use std::alloc::Global;
use std::str;
use std::test::Fail;

const SIZES: &str =
    "list,size,area,height,metre,join,step\nround,R1,20000,160,2000,500,300\nround,R2,50000,250,3000,800,400\n";

/// The header, and a row of R2 that makes one low rate in any air.
const WORDS: [(&str, &str); 2] = [
    (r"\H", "size,diameter,rough,flow,rows\n"),
    (r"\L", "R2,10000,0,1,1\n"),
];

/// A case a line: the answer, the density and the viscosity of the air, what is asked, and the bytes of a file for the
/// sizes R1 and R2, of 20,000 and 50,000 mm2. Asked is the rows of all sizes, those of R1, or how many rows there are.
/// A line without bars says what the cases below it show.
const CASES: &str = r#"
The first row is the header.
refused at Row 1: Header|1200 18000|all|
refused at Row 1: Header|1200 18000|all|size,diameter,rough,flow\n
refused at Row 1: Header|1200 18000|all|size,rough,diameter,flow,rows\n
refused at Row 1: Header|1200 18000|all|size,flow,rate\n

Rows of the sizes, by size number and then by airflow, whatever their order in the file. For R1 at 100 l/s e/D is
90 / 160,000 and 68/Re is 68 * 20,000 * 18,000 / (1,000,000 * 1,200 * 100 * 160), together 0.0018375, of which the
fourth root is 0.20704, so the factor is 22,775 millionths and the rate 500 * 22,775 * 1,200 * 10,000 over
160 * 400,000,000, which is 2,135.2. R2 has the factor 16,675 before its correction and 16,974 after it.
R1,100,2136 R1,200,7678 R2,500,4074|1200 18000|all|\HR1,160,90,100,2\nR2,250,30,500,1\n
R1,100,2136 R1,200,7678 R2,500,4074|1200 18000|all|\HR2,250,30,500,1\r\n\n"R1",160,90,100,2
R1,100,2136 R2,500,4074|1200 18000|all|\B\HR1,160,90,100,1\nR2,250,30,500,1\n

Every size has a row.
refused at Size 2: Missing|1200 18000|all|\HR1,160,90,100,2\n
refused at Size 1: Missing|1200 18000|all|\HR2,250,30,500,1\n
refused at Size 1: Missing|1200 18000|all|\H

Five fields.
refused at Row 2: Columns|1200 18000|all|\HR1,160,90,100\n
refused at Row 2: Columns|1200 18000|all|\HR1,160,90,100,2,\n
refused at Row 2: Columns|1200 18000|all|\HR3,9,90\n

Names and numbers, and each bound.
refused at Row 2: Field|1200 18000|all|\HR 1,160,90,100,2\n
refused at Row 2: Field|1200 18000|all|\HR1,9,90,100,2\n
refused at Row 2: Field|1200 18000|all|\HR1,10001,90,100,2\n
refused at Row 2: Field|1200 18000|all|\HR1,160,10001,100,2\n
refused at Row 2: Field|1200 18000|all|\HR1,160,-1,100,2\n
refused at Row 2: Field|1200 18000|all|\HR1,160,90,0,2\n
refused at Row 2: Field|1200 18000|all|\HR1,160,90,200001,2\n
refused at Row 2: Field|1200 18000|all|\HR1,160,90,100,0\n
refused at Row 2: Field|1200 18000|all|\HR1,160,90,100,65\n
refused at Row 2: Field|1200 18000|all|\HR1,160,90,0100,2\n
refused at Row 2: Field|1200 18000|all|\HR3,160,90,100,65\n
65 rows|1200 18000|count|\HR1,160,90,1,64\n\L

Sizes of the catalogue, each once; what is wrong with its airflow or its rates comes behind that.
refused at Row 2: UnknownSize|1200 18000|all|\HR3,160,90,100,2\n
refused at Row 2: UnknownSize|1200 18000|all|\HR3,160,90,200000,2\n
refused at Row 3: Twice|1200 18000|all|\HR1,160,90,100,2\nR1,160,90,100,2\n
refused at Row 3: Twice|1200 18000|all|\HR1,160,90,100,2\nR1,160,90,200000,2\n
refused at Row 3: Twice|1200 18000|all|\HR1,160,90,100,2\nR1,160,90,50000,1\nR2\n
refused at Row 3: Columns|1200 18000|all|\HR1,160,90,100,2\nR2\nR1,160,90,100,2\n

The greatest airflow of a size is at most 200,000. In air of 1 g/m3 and 1 nPa s a smooth R2 of 1,700 mm has 68/Re
2 / 100,000,000 at 100,000 l/s and half of that at 200,000, so the factors are 1,309 and 1,100 millionths before the
correction, and 3,913 and 3,735 after it; the rates are 4,603.5 and 17,576.5.
R1,1,1 R2,100000,4604 R2,200000,17577|1 1|all|\HR2,1700,0,100000,2\nR1,10000,0,1,1\n
R1,1,1 R2,200000,17577|1 1|all|\HR2,1700,0,200000,1\nR1,10000,0,1,1\n
refused at Row 2: Field|1 1|all|\HR2,1700,0,100001,2\nR1,10000,0,1,1\n
refused at Row 2: Field|1 1|all|\HR2,1700,0,66667,3\nR1,10000,0,1,1\n
refused at Row 2: Field|1200 18000|all|\HR1,160,90,100001,2\nR2,250,30,500,1\n

A smooth R1 of 100 mm in air of 100,000 nPa s has 68/Re 0.0016 where density by airflow is 850,000, and so the factor
22,000 exactly, which is not raised. The rates are 198,687.5, and 397,375 and 794,750 exactly. At twice 850 l/s the
factor is 22,000 over the fourth root of 2, 18,499.7, and the rate 668,312.5.
R1,850,198688|1000 100000|R1|\HR1,100,0,850,1\n\L
R1,1700,397375|500 100000|R1|\HR1,100,0,1700,1\n\L
R1,3400,794750|250 100000|R1|\HR1,100,0,3400,1\n\L
R1,425,99344|2000 100000|R1|\HR1,100,0,425,1\n\L
R1,850,198688 R1,1700,668313|1000 100000|R1|\HR1,100,0,850,2\n\L

The same with 68/Re 0.0001 gives 11,000, which is corrected to 12,150: the rate is 2,809.08. Without a correction it would
be 2,543.2.
R1,136,2810|1000 1000|R1|\HR1,100,0,136,1\n\L

A rate is at most 1,000,000, and not only a size's first. With e/D 0.00808 and 68/Re 0.00002 the factor is 33,000 and
the rate 999,998.4; with 0.00024 and 0.00136 it is 22,000, and the rate 1,000,000.4 is rounded up. At three times
850 l/s the rate is 1,382,594.
R1,8444,999999|340 42220|R1|\HR1,1000,8080,8444,1\n\L
refused at Row 2: Field|80 6742|R1|\HR1,25,6,3371,1\n\L
refused at Row 2: Field|1000 100000|R1|\HR1,100,0,850,3\n\L
refused at Row 3: Field|1000 100000|R1|\H\LR1,100,0,850,3\n
refused at Row 2: Field|1200 18000|R1|\HR1,10,10000,200000,1\n\L
"#;

#[test]
fn a_file_of_ducts_is_its_rates_or_the_first_refusal(rt: HostRuntime) -> Result<(), Fail> {
    let sizes = read_sizes(rt.alloc(), SIZES.as_bytes())?;
    for line in CASES.lines() {
        if let Some((wanted, case)) = line.split_once('|') {
            let found = outcome(rt.alloc(), &sizes, case)?;
            assert_eq!(rt; found.as_str(), wanted, "at {line}");
        }
    }
    Ok(())
}

/// What a file of ducts makes of what is asked.
fn outcome(alloc: Global, sizes: &Sizes, case: &str) -> Result<String, Fail> {
    let (air, case) = case.split_once('|').ok_or("no air")?;
    let (asked, text) = case.split_once('|').ok_or("no file")?;
    let (density, viscosity) = air.split_once(' ').ok_or("no viscosity")?;
    let (density, viscosity) = (density.parse::<u64>()?, viscosity.parse::<u64>()?);
    if density < MIN_DENSITY || MAX_DENSITY < density {
        return Err(Fail::from("no density"));
    }
    if viscosity < MIN_VISCOSITY || MAX_VISCOSITY < viscosity {
        return Err(Fail::from("no viscosity"));
    }
    let bytes = file(alloc, text, &WORDS)?;
    match make_friction(alloc, sizes, &bytes, density, viscosity) {
        Ok(rows) => {
            let text = rows_text(alloc, sizes, &rows)?;
            told(alloc, sizes, &rows, text.as_slice(), asked)
        }
        Err(error) => Ok(format!(in alloc; "{error}")?),
    }
}

fn told(
    alloc: Global,
    sizes: &Sizes,
    rows: &List<MadeRow>,
    text: &[u8],
    asked: &str,
) -> Result<String, Fail> {
    if !reads_back(alloc, sizes, text, rows.as_slice())? {
        return Err(Fail::from("other rows were read back"));
    }
    match asked {
        "all" => lines_of(alloc, str::from_utf8(text)?, ""),
        "count" => Ok(format!(in alloc; "{} rows", rows.as_slice().len())?),
        name => lines_of(alloc, str::from_utf8(text)?, name),
    }
}

/// The lines behind the first that begin with the name, with a space between each two.
fn lines_of(alloc: Global, text: &str, name: &str) -> Result<String, Fail> {
    let mut lines = String::new(alloc);
    for line in text.lines().skip(1) {
        if line.starts_with(name) {
            if !lines.is_empty() {
                lines.push_str(" ")?;
            }
            lines.push_str(line)?;
        }
    }
    Ok(lines)
}

/// Whether the text is the friction file of the rows.
fn reads_back(alloc: Global, sizes: &Sizes, text: &[u8], rows: &[MadeRow]) -> Result<bool, Fail> {
    let friction = read_friction(alloc, text, sizes)?;
    let mut left = rows.iter();
    for size in 0..sizes.len() {
        for at in friction.rates(size) {
            match left.next() {
                Some(row) if row.size == size && row.flow == at.flow && row.rate == at.rate => {}
                _ => return Ok(false),
            }
        }
    }
    Ok(left.next().is_none())
}
