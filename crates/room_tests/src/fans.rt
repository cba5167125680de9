//! What files of fans say, which airflows a fan serves, and what its energy costs.
ghost use Rattle.std.specs.Prelude.{IfOk};
ghost use Rattle.fan_points.specs.Energy.{IsEnergy};
ghost use Rattle.fan_points.specs.FanRow.{IsFanInBounds};

use crate::texts::file;
use fan_points::{
    Energy, FanRow, Fans, MAX_HOURS, MAX_TARIFF, MAX_WORTH, eligible, energy, read_fans,
};
use std::alloc::Global;
use std::test::Fail;

/// The header, and a whole file.
const WORDS: [(&str, &str); 2] = [
    (r"\H", "fan,pressure,low,high,price,watts\n"),
    (
        r"\T",
        "fan,pressure,low,high,price,watts\nF1,400,100,600,10000,2000\nF2,900,0,600,60000,500\n",
    ),
];

/// A case a line: the answer, what is asked, and the bytes of a file. Asked is, of the fan of a number from 0, its
/// energy, in cents, at so many hours, a tariff and a worth, or whether it serves an airflow; where nothing is asked,
/// how many fans there are. A line without bars says what the cases below it show.
const CASES: &str = r#"
The first row is the header, and there need be no other.
refused at Row 1: Header||
refused at Row 1: Header||fan,pressure,low,high,price\n
refused at Row 1: Header||fan,pressure,high,low,price,watts\n
0 fans||fan,pressure,low,high,price,watts
2 fans||\T
2 fans||\B\H\r\n"F1",400,100,600,10000,2000\r\nF2,900,0,600,60000,500

Six fields.
refused at Row 2: Columns||\HF1,400,100,600,10000\n
refused at Row 2: Columns||\HF1,400,100,600,10000,2000,\n
refused at Row 2: Field||\H,,,,,\n

Names and numbers.
refused at Row 2: Field||\HF 1,400,100,600,10000,2000\n
refused at Row 2: Field||\HF1,0,100,600,10000,2000\n
refused at Row 2: Field||\HF1,20001,100,600,10000,2000\n
refused at Row 2: Field||\HF1,400,-1,600,10000,2000\n
refused at Row 2: Field||\HF1,400,100,100000001,10000,2000\n
refused at Row 2: Field||\HF1,400,100,600,10000000001,2000\n
refused at Row 2: Field||\HF1,400,100,600,10000,1000001\n
1 fans||\HF1,20000,100000000,100000000,10000000000,1000000\n
1 fans||\HF1,1,0,0,0,0\n

The high isn't below the low, and a name is given once.
refused at Row 2: Order||\HF1,400,700,600,10000,2000\n
1 fans||\HF1,400,600,600,10000,2000\n
refused at Row 3: Twice||\HF1,400,100,600,10000,2000\nF1,900,100,600,10000,2000\n
refused at Row 3: Order||\HF1,400,100,600,10000,2000\nF1,900,700,600,10000,2000\n
refused at Row 3: Field||\HF1,400,100,600,10000,2000\nF1,0,700,600,10000,2000\n

At most 64 fans.
64 fans||\H`64 of F#,400,100,600,10000,2000\n`
refused at Row 66: TooMany||\H`65 of F#,400,100,600,10000,2000\n`
refused at Row 66: Twice||\H`64 of F#,400,100,600,10000,2000\n`F1,400,100,600,10000,2000\n

Both ends of the range count. A side without sections has the airflow 0.
no|0 serves 99|\T
yes|0 serves 100|\T
yes|0 serves 600|\T
no|0 serves 601|\T
no|0 serves 0|\T
yes|1 serves 0|\T

2,000 W over 3,000 h at 15 cents per kWh and a worth of 5 cost 450,000, 500 W a quarter of that; at a worth of 0.5 they
cost a tenth of it.
450000|0 costs 3000 1500 5000|\T
112500|1 costs 3000 1500 5000|\T
45000|0 costs 3000 1500 500|\T
11250|1 costs 3000 1500 500|\T

A part of a cent counts as one: 2,000 * 1 * 1 * 50,000 is 10^8, and one thousandth more is above it.
1|0 costs 1 1 50000|\T
2|0 costs 1 1 50001|\T
1|0 costs 1 1 1|\T
0|0 costs 0 1500 5000|\T

The greatest energy: 1,000,000 W, 8,784 h, 1,000,000 and 1,000,000.
87840000000000|0 costs 8784 1000000 1000000|\HF1,20000,0,0,0,1000000\n
"#;

#[test]
fn a_file_is_its_fans_or_the_first_refusal(rt: HostRuntime) -> Result<(), Fail> {
    for line in CASES.lines() {
        if let Some((wanted, case)) = line.split_once('|') {
            let found = outcome(rt.alloc(), case)?;
            assert_eq!(rt; found.as_str(), wanted, "at {line}");
        }
    }
    Ok(())
}

/// What a file says of what is asked.
fn outcome(alloc: Global, case: &str) -> Result<String, Fail> {
    let (asked, text) = case.split_once('|').ok_or("no file")?;
    let bytes = file(alloc, text, &WORDS)?;
    match read_fans(alloc, &bytes) {
        Ok(fans) => told(alloc, &fans, asked),
        Err(error) => Ok(format!(in alloc; "{error}")?),
    }
}

fn told(alloc: Global, fans: &Fans, asked: &str) -> Result<String, Fail> {
    let Some((number, asked)) = asked.split_once(' ') else {
        return Ok(format!(in alloc; "{} fans", fans.len())?);
    };
    let number = number.parse::<u32>()?;
    if number >= fans.len() {
        return Err(Fail::from("no such fan"));
    }
    fan_told(alloc, &fans.fan(number), asked)
}

fn fan_told(alloc: Global, fan: &FanRow, asked: &str) -> Result<String, Fail>
    requires { IsFanInBounds fan.now }
{
    let (word, numbers) = asked.split_once(' ').ok_or("no numbers")?;
    if word == "costs" {
        let terms = terms_of(numbers)?;
        return Ok(format!(in alloc; "{}", energy(fan, &terms))?);
    }
    match eligible(fan, numbers.parse::<u64>()?) {
        true => Ok(String::from_str(alloc, "yes")?),
        false => Ok(String::from_str(alloc, "no")?),
    }
}

/// The hours, the tariff and the worth.
fn terms_of(numbers: &str) -> Result<Energy, Fail>
    ensures { IfOk result IsEnergy }
{
    let (hours, rest) = numbers.split_once(' ').ok_or("no tariff")?;
    let (tariff, worth) = rest.split_once(' ').ok_or("no worth")?;
    Ok(Energy {
        hours: hours.parse::<u64>()?.min(MAX_HOURS),
        tariff: tariff.parse::<u64>()?.min(MAX_TARIFF),
        worth: worth.parse::<u64>()?.min(MAX_WORTH),
    })
}
