//! What files of friction rates say, and what a length loses.
ghost use Rattle.std.specs.Prelude.{◌≡◌, length};

use crate::texts::file;
use duct_definitions::{MAX_FLOW, MAX_LENGTH};
use duct_units::Name;
use friction_table::{FlowRate, Friction, MIN_FLOW, read_friction};
use size_catalogue::{Sizes, read_sizes};
use std::alloc::Global;
use std::test::Fail;

const SIZES: &str =
    "list,size,area,height,metre,join,step\nround,R1,20000,160,2000,500,300\nround,R2,50000,250,3000,800,400\n";

/// The header, and a whole file.
const WORDS: [(&str, &str); 2] = [
    (r"\H", "size,flow,rate\n"),
    (
        r"\T",
        "size,flow,rate\nR1,200,400\nR1,300,800\nR2,100,100\nR2,400,200\n",
    ),
];

/// A case a line: the answer, what is asked, and the bytes of a file for the sizes R1 and R2. Asked is the loss, in
/// dPa, of a size at an airflow over a length, or how many rates a size has and the last of them; where nothing is
/// asked, whether the file is read. A line without bars says what the cases below it show.
const CASES: &str = r#"
The first row is the header.
refused at Row 1: Header||
refused at Row 1: Header||\n\n
refused at Row 1: Header||size,flow\n
refused at Row 1: Header||size,flow,rate,\n
refused at Row 1: Header||size,rate,flow\n
refused at Size 1: Missing||size,flow,rate
refused at Size 1: Missing||\B\r\n"size",flow,rate\r\n

Rows of the sizes.
read||\HR1,100,500\nR1,300,2500\nR2,100,100\nR2,500,900\n
read||\HR1,100,500\r\nR1,300,2500\rR2,100,100\n\n"R2",500,900
read||\HR2,100,100\nR1,100,500\nR2,500,900\nR1,300,2500\n
read||\HR1,1,0\nR2,200000,1000000\n
read||\HR1,1,0\nR2,1,0\n

A file that stops short.
refused at Row 5: Columns||\HR1,100,500\nR1,300,2500\nR2,100,100\nR2,500
refused at Row 5: Field||\HR1,100,500\nR1,300,2500\nR2,100,100\nR2,500,
refused at Row 5: Order||\HR1,100,500\nR1,300,2500\nR2,100,100\nR2,500,90
read||\HR1,100,500\nR1,300,2500\nR2,100,100\nR2,500,900
read||\HR1,100,500\nR1,300,2500\nR2,100,100\n

Every size has a row.
refused at Size 2: Missing||\HR1,100,500\nR1,300,2500\n
refused at Size 1: Missing||\HR2,100,100\n
refused at Size 1: Missing||\H

Three fields.
refused at Row 2: Columns||\HR1,100\n
refused at Row 2: Columns||\HR1,100,500,\n
refused at Row 2: Columns||\H"R1,100,500\nR2,1,0\n
refused at Row 2: Field||\H,,\n

Names and numbers.
refused at Row 2: Field||\HR 1,1,0\n
refused at Row 2: Field||\HR1\0,1,0\n
refused at Row 2: Field||\HR\F,1,0\n
refused at Row 2: Field||\HR1,0,0\n
refused at Row 2: Field||\HR1,200001,0\n
refused at Row 2: Field||\HR1,1,1000001\n
refused at Row 2: Field||\HR1,1,-1\n
refused at Row 2: Field||\HR1,01,0\n
refused at Row 2: Field||\HR1,1,99999999999999999999\n

Sizes of the catalogue.
refused at Row 2: UnknownSize||\HR3,1,0\n
refused at Row 2: UnknownSize||\Hround,1,0\n
refused at Row 2: Field||\HR3,0,0\n

Airflows rise, and rates never fall.
refused at Row 3: Order||\HR1,100,500\nR1,100,2500\nR2,100,100\nR2,500,900\n
refused at Row 3: Order||\HR1,100,500\nR1,100,2500\n
refused at Row 3: Order||\HR1,100,500\nR1,99,500\n
refused at Row 3: Order||\HR1,100,500\nR1,101,499\n
read||\HR1,100,500\nR2,50,10\nR1,101,500\n
refused at Row 4: Order||\HR1,100,500\nR2,50,10\nR1,100,500\n

The first row that is refused, and its first refusal.
refused at Row 2: Columns||\HR3,1\n
refused at Row 2: Field||\HR1,0,0\nR3,1,0\n
refused at Row 3: Order||\HR1,100,500\nR1,1,0\nR1\n
refused at Row 3: UnknownSize||\HR2,1,0\nR3,1,0\n

At most 64 rows of a size, which are rows 3 to 66 here. Where there is no room, the order isn't looked at.
read||\HR2,1,0\n`64 of R1,#,7\n`
refused at Row 67: TooMany||\HR2,1,0\n`65 of R1,#,7\n`
refused at Row 67: TooMany||\HR2,1,0\n`100 of R1,#,7\n`
refused at Row 67: TooMany||\HR2,1,0\n`64 of R1,#,7\n`R1,1,0\n

L * rate / 100,000 is in dPa. Airflow 250 lies midway between 200 and 300, so the rate is 600: 10,000 mm lose 60, and
10,001 mm lose 60.006.
60|R1 250 10000|\T
61|R1 250 10001|\T
0|R1 250 0|\T
40|R1 200 10000|\T
80|R1 300 10000|\T
none|R1 301 10000|\T
40|R1 199 10000|\T
41|R1 1 10001|\T
4040|R1 201 1000000|\T

Airflow 200 lies a third of the way from 100 to 400, so the rate is 400 / 3: 30,000 mm lose 40 exactly, where a rate
rounded up to 134 would give 40.2.
40|R2 200 30000|\T
41|R2 200 30001|\T
1|R2 400 1|\T
none|R2 401 0|\T
none|R2 200000 1000000|\T

A size has its own rates, in file order.
2 to 300 800|R1 rates|\T
2 to 400 200|R2 rates|\T
1 to 1 0|R1 rates|\HR1,1,0\nR2,1,0\n

Below its first row a size has its first rate, and above its last row none.
none|R1 300 20000|\HR1,100,300\nR1,200,500\nR2,400,200\nR2,800,600\n
40|R2 300 20000|\HR1,100,300\nR1,200,500\nR2,400,200\nR2,800,600\n

The greatest numbers: 1,000,000 mm at 1,000,000 mPa/m lose 10,000,000 dPa. Between (1, 0) and (200000, 1000000), airflow
199,999 has the rate 199,998 * 1,000,000 / 199,999, which is 5.000025 below 1,000,000, so the loss is 50.00025 below
10,000,000, rounded up to 9,999,950.
10000000|R1 1 1000000|\HR1,200000,1000000\nR2,1,0\nR2,200000,1000000\n
10000000|R2 200000 1000000|\HR1,200000,1000000\nR2,1,0\nR2,200000,1000000\n
9999950|R2 199999 1000000|\HR1,200000,1000000\nR2,1,0\nR2,200000,1000000\n
0|R2 1 1000000|\HR1,200000,1000000\nR2,1,0\nR2,200000,1000000\n
"#;

#[test]
fn a_file_is_its_rates_or_the_first_refusal(rt: HostRuntime) -> Result<(), Fail> {
    let sizes = read_sizes(rt.alloc(), SIZES.as_bytes())?;
    for line in CASES.lines() {
        if let Some((wanted, case)) = line.split_once('|') {
            let found = outcome(rt.alloc(), &sizes, case)?;
            assert_eq!(rt; found.as_str(), wanted, "at {line}");
        }
    }
    Ok(())
}

/// What a file says of what is asked.
fn outcome(alloc: Global, sizes: &Sizes, case: &str) -> Result<String, Fail> {
    let (asked, text) = case.split_once('|').ok_or("no file")?;
    let bytes = file(alloc, text, &WORDS)?;
    match read_friction(alloc, &bytes, sizes) {
        Ok(friction) => told(alloc, sizes, &friction, asked),
        Err(error) => Ok(format!(in alloc; "{error}")?),
    }
}

fn told(alloc: Global, sizes: &Sizes, friction: &Friction, asked: &str) -> Result<String, Fail>
    requires { length friction.now ≡ length sizes.now.sizes }
{
    let Some((name, stretch)) = asked.split_once(' ') else {
        return Ok(String::from_str(alloc, "read")?);
    };
    let name = Name::new(name.as_bytes()).ok_or("no name")?;
    let size = sizes.named(&name).ok_or("no size")?;
    if stretch == "rates" {
        return listed(alloc, friction.rates(size));
    }
    let (flow, length) = stretch.split_once(' ').ok_or("no length")?;
    let (flow, length) = (flow.parse::<u64>()?, length.parse::<u64>()?);
    if flow < MIN_FLOW || MAX_FLOW < flow || MAX_LENGTH < length {
        return Err(Fail::from("out of bounds"));
    }
    match friction.loss(size, flow, length) {
        Some(loss) => Ok(format!(in alloc; "{loss}")?),
        None => Ok(String::from_str(alloc, "none")?),
    }
}

/// How many rates there are, and the last of them.
fn listed(alloc: Global, rates: &[FlowRate]) -> Result<String, Fail> {
    match rates.last() {
        Some(last) => Ok(format!(in alloc; "{} to {} {}", rates.len(), last.flow, last.rate)?),
        None => Ok(String::from_str(alloc, "no rates")?),
    }
}
