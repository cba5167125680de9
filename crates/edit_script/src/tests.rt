//! Scripts and their lines, and the first bad line of others.
use crate::{Change, ScriptLine, read_script};
use duct_units::ReadError;
use std::alloc::Global;
use std::test::Fail;

/// A case a line: the sections and what they are to have, or the refusal; a bar; and the script, with a slash for each
/// line feed. `n x` before it stands for the script written n times.
const CASES: &str = "
 | \u{20}
right device 155, right device 170,  | device right 155/device right 170/
a length 0, a length 1000000, a_-.9 device 20000,  | length a 0/length a 1000000/device a_-.9 20000/
a airflow 1, a airflow 200000, a preset R2, a free,  | airflow a 1/airflow a 200000/preset a R2/free a/
Form at 1 | length a 1000001/
Form at 1 | device a 20001/
Form at 2 | free a/airflow a 0/
Form at 1 | airflow a 200001/
Form at 1 | length a 05/
Form at 1 | length a +5/
Form at 1 | length a -5/
Form at 1 | length a/
Form at 1 | length a 5 /
Form at 1 | length  a 5/
Form at 1 | Length a 5/
Form at 1 | preset a/
Form at 1 | preset a b c/
Form at 1 | free a b/
Form at 1 | free a\\b/
Form at 1 | free a\r/
Form at 1 | \u{feff}free a/
Form at 1 | /
Form at 3 | free a/free b//
Form at 1 | free a
Form at 2 | free a/free b
1000 lines | 1000 x free a/
TooMany at 1001 | 1001 x free a/
TooMany at 1001 | 1001 x /
Form at 1 | 1000 x /
";

#[test]
fn a_script_is_read_line_by_line(rt: HostRuntime) -> Result<(), Fail> {
    for line in CASES.lines() {
        if let Some((wanted, case)) = line.split_once(" | ") {
            let found = outcome(rt.alloc(), case)?;
            assert_eq!(rt; found.as_str(), wanted, "at {line}");
        }
    }
    Ok(())
}

fn outcome(alloc: Global, case: &str) -> Result<String, Fail> {
    let script = script(alloc, case)?;
    match read_script(alloc, script.as_slice()) {
        Ok(lines) => listed(alloc, lines.as_slice()),
        Err(ReadError::Refused(fault)) => {
            let place = fault.place;
            let reason = fault.reason;
            Ok(format!(in alloc; "{reason:?} at {place}")?)
        }
        Err(ReadError::NoMemory) => Err(Fail::from("out of memory")),
    }
}

/// The bytes of the case.
fn script(alloc: Global, case: &str) -> Result<Vec<u8>, Fail> {
    let (times, text) = match case.split_once(" x ") {
        Some((times, text)) => (times.parse::<u64>()?, text),
        None => (1, case.trim_start()),
    };
    let mut bytes = Vec::new(alloc);
    for _ in 0..times {
        for byte in text.as_bytes() {
            bytes.push(if *byte == b'/' { b'\n' } else { *byte })?;
        }
    }
    Ok(bytes)
}

/// The lines, or how many there are where they are many.
fn listed(alloc: Global, lines: &[ScriptLine]) -> Result<String, Fail> {
    let count = lines.len();
    if count > 10 {
        return Ok(format!(in alloc; "{count} lines")?);
    }
    let mut text = String::new(alloc);
    for line in lines {
        add_line(alloc, &mut text, line)?;
    }
    Ok(text)
}

fn add_line(alloc: Global, text: &mut String, line: &ScriptLine) -> Result<(), Fail> {
    for byte in line.section.bytes() {
        text.push(char::from(*byte))?;
    }
    match &line.change {
        Change::Length(mm) => text.push_str(format!(in alloc; " length {mm}")?.as_str())?,
        Change::Device(loss) => text.push_str(format!(in alloc; " device {loss}")?.as_str())?,
        Change::Airflow(flow) => text.push_str(format!(in alloc; " airflow {flow}")?.as_str())?,
        Change::Preset(Some(size)) => {
            text.push_str(" preset ")?;
            for byte in size.bytes() {
                text.push(char::from(*byte))?;
            }
        }
        Change::Preset(None) => text.push_str(" free")?,
    }
    text.push_str(", ")?;
    Ok(())
}
