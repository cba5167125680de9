//! Runs over files and a sink in memory, calls that fail among them.
ghost use Rattle.std.specs.Prelude.{◌≡◌, [], IfOk};

use crate::run::run;
use design_rules::PresetRule;
use duct_ports::{HeldFile, MemoryFiles, MemorySink, OpenGate};
use duct_units::List;
use std::alloc::Global;
use std::test::Fail;
use std::thread::Threads;

/// What the file `one.toml` holds.
const NETWORK: &str = r#"format = 1
name = "one"
[[fan]]
name = "f1"
pressure = 60
cost = 100
[[section]]
name = "a"
side = "supply"
sizes = ["k1"]
pairs = [[1, 0, 60, 500]]
"#;

/// The design of that network, where a bar stands for a line feed.
const DESIGN: &str =
    "design 1|project one|fan f1 60 100|supply 60 60|return 0 0|section a k1 60 500 0|cost 600|end|";

/// A case a line: what differs from `pick one.toml` over ample files and an ample sink, an arrow, the status and what
/// was written. A bar stands for a line feed, and DESIGN for the design.
///
/// `fails n`: call n of the files fails; call 1 starts the file, call 2 reads its bytes, call 3 finds its end.
/// `length n`: the file is cut, or filled up with line feeds, to so many bytes. `byte n`: it holds this byte alone.
/// `room n`: the sink takes so many bytes, one at a time. `write n`: it takes four at a time, and call n fails.
/// `words`: the words are these, each behind a comma.
const CASES: &str = "
nothing -> 0 DESIGN
fails 1 -> 4 fault read|
fails 2 -> 4 fault read|
fails 3 -> 4 fault read|
fails 4 -> 0 DESIGN
byte 255 -> 1 refused network file 0 text|
length 20 -> 1 refused network file 0 text|
length 4194304 -> 0 DESIGN
length 4194305 -> 1 refused network file 0 too-long|
write 3 -> 5 design 1
room 94 -> 0 DESIGN
words -> 2 refused words|
words,pick -> 2 refused words|
words,pick, -> 2 refused words|
words,pick,-n -> 2 refused words|
words,pick,one.toml,two.toml -> 2 refused words|
words,Pick,one.toml -> 2 refused words|
words,--help -> 2 refused words|
words,design,one.toml -> 2 refused words|
words,design,p,s,f,t -> 2 refused words|
words,design,p,s,f,t,n,r -> 2 refused words|
words,design,p,s,f,t,n,--return-fans -> 2 refused words|
words,design,p,s,f,t,n,--return-fans,-r -> 2 refused words|
words,design,p,s,f,t,--return-fans,r -> 2 refused words|
words,design,--return-fans,r,p,s,f,t,n,--return-fans,r -> 2 refused words|
words,pick,one.toml,--return-fans,one.toml -> 2 refused words|
words,design,one.toml,one.toml,one.toml,one.toml,one.toml -> 1 refused project file 0 key|
words,design,one.toml,--return-fans,two.toml,one.toml,one.toml,one.toml,one.toml -> 4 fault read|
words,migrate -> 2 refused words|
words,migrate,one.toml,one.toml -> 2 refused words|
words,friction,one.toml,one.toml,1200 -> 2 refused words|
words,friction,one.toml,-o,1200,18000 -> 2 refused words|
words,friction,one.toml,one.toml,0,18000 -> 2 refused words|
words,friction,one.toml,one.toml,2001,18000 -> 2 refused words|
words,friction,one.toml,one.toml,01200,18000 -> 2 refused words|
words,friction,one.toml,one.toml,1200,0 -> 2 refused words|
words,friction,one.toml,one.toml,1200,100001 -> 2 refused words|
words,migrate,one.toml -> 1 refused project file 0 key|
words,friction,one.toml,one.toml,1200,18000 -> 1 refused sizes row 1 header|
words,friction,two.toml,one.toml,1200,18000 -> 4 fault read|
room 0 words,pick -> 5
words,pick,two.toml -> 4 fault read|
";

#[test]
fn each_run_has_its_status_and_its_text(rt: HostRuntime) -> Result<(), Fail> {
    for line in CASES.lines() {
        if let Some((case, wanted)) = line.split_once(" -> ") {
            let wanted = wanted.replace(rt.alloc(), "DESIGN", DESIGN)?;
            let found = outcome(&rt, case)?;
            assert_eq!(rt; found.as_str().trim_end(), wanted.as_str(), "of {case}");
        }
    }
    Ok(())
}

#[test]
fn a_sink_that_takes_a_byte_at_a_time_has_a_prefix_of_the_text(
    rt: HostRuntime,
) -> Result<(), Fail> {
    let mut prefix = String::from_str(rt.alloc(), "5 ")?;
    for (room, next) in DESIGN.chars().enumerate() {
        let case = format!(in rt.alloc(); "room {room}")?;
        let found = outcome(&rt, case.as_str())?;
        assert_eq!(rt; found.as_str(), prefix.as_str(), "at {case}");
        prefix.push(next)?;
    }
    Ok(())
}

/// The status of a case's run, and what was written.
fn outcome<T: Threads + Sync + AllocGlobal>(rt: &T, case: &str) -> Result<String, Fail> {
    let alloc = rt.alloc();
    let words = words_of(alloc, case)?;
    let mut files = files_of(alloc, case)?;
    let mut out = sink_of(alloc, case)?;
    let rules: Vec<PresetRule> = Vec::new(alloc);
    let status = run(
        rt,
        alloc,
        words.as_slice(),
        &mut files,
        &mut out,
        rules,
        &OpenGate,
    );
    spelled(alloc, status, out.bytes())
}

fn spelled(alloc: Global, status: u8, written: &[u8]) -> Result<String, Fail> {
    let text = str::from_utf8(written)?.replace(alloc, "\n", "|")?;
    Ok(format!(in alloc; "{status} {text}")?)
}

/// The number behind a word of the case.
fn number(case: &str, word: &str) -> Option<u32> {
    case.split_once(word)?
        .1
        .split_whitespace()
        .next()?
        .parse()
        .ok()
}

fn words_of(alloc: Global, case: &str) -> Result<Vec<String>, Fail> {
    let spelled = case
        .split_once("words")
        .map_or(",pick,one.toml", |parts| parts.1);
    let mut words = Vec::new(alloc);
    for word in spelled.split(',').skip(1) {
        words.push(String::from_str(alloc, word)?)?;
    }
    Ok(words)
}

fn files_of<'w>(alloc: Global, case: &str) -> Result<MemoryFiles<'w>, Fail>
    ensures { IfOk result (λ files. files.asked ≡ []) }
{
    let file = HeldFile {
        name: List::from_vec(b"one.toml".to_vec(alloc)?),
        bytes: List::from_vec(bytes_of(alloc, case)?),
    };
    let files = List::from_vec(vec![in alloc; file]?);
    Ok(MemoryFiles::new(files, failing(alloc, case, "fails ")?))
}

fn bytes_of(alloc: Global, case: &str) -> Result<Vec<u8>, Fail> {
    if let Some(byte) = number(case, "byte ") {
        return Ok(vec![in alloc; byte.to_le_bytes()[0]]?);
    }
    let mut bytes = NETWORK.as_bytes().to_vec(alloc)?;
    if let Some(length) = number(case, "length ") {
        bytes.resize(length as usize, b'\n')?;
    }
    Ok(bytes)
}

fn sink_of(alloc: Global, case: &str) -> Result<MemorySink, Fail> {
    let room = number(case, "room ");
    let most = if room.is_some() { 1 } else { 4 };
    let fails = failing(alloc, case, "write ")?;
    Ok(MemorySink::new(alloc, u64::from(room.unwrap_or(1000)), most, fails)?)
}

/// The numbers of the calls that fail, one or none.
fn failing(alloc: Global, case: &str, word: &str) -> Result<List<u32>, Fail> {
    let mut calls = Vec::new(alloc);
    if let Some(call) = number(case, word) {
        calls.push(call)?;
    }
    Ok(List::from_vec(calls))
}
