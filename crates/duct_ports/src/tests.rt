//! That calls find memory, how often a file is asked for its bytes, and how much a sink is offered.
ghost use Rattle.std.specs.Prelude.{◌<◌, length};
ghost use Rattle.duct_ports.specs.declared.files.TheConstants.{MAX_NAMES};

use crate::{
    Files, Gate, HeldFile, MemoryFiles, MemorySink, OpenGate, Sink, SureFiles, read_all, write_all,
};
use duct_units::List;
use std::alloc::{AllocError, Global};
use std::test::Fail;

/// A case a line: how many bytes are read, or none, how many faults there are, and how many bytes were moved; a bar; the
/// file, how many bytes it holds, and the call that fails. Call 0 is none, of files that never fail.
///
/// Call 1 starts the file, each further call gives up to 65,536 bytes, and one more finds the end. So 4,194,304 bytes
/// take the calls 1 to 66, and of one byte more call 66 reads the last.
const READS: &str = "
a file was not read, 1, 0 | a 5 1
a file was not read, 1, 0 | a 5 2
a file was not read, 1, 5 | a 5 3
5 bytes, 0, 5 | a 5 4
0 bytes, 0, 0 | a 0 3
a file was not read, 1, 0 | b 5 9
a file was not read, 1, 4194304 | a 4194304 66
4194304 bytes, 0, 4194304 | a 4194304 67
a file was not read, 1, 4194304 | a 4194305 66
a file is too long, 0, 4194305 | a 4194305 67
a file is too long, 0, 4259840 | a 4300000 67
5 bytes, 0, 5 | a 5 0
0 bytes, 0, 0 | b 5 0
";

/// A case a line: what was taken, and how many faults there are; a bar; the room, the call that fails, and the text,
/// of which a call takes 4 bytes at most.
const WRITES: &str = "
, 1 | 0 9 abc
a, 1 | 1 9 abc
ab, 1 | 2 9 abc
abc, 0 | 3 9 abc
abc, 0 | 4 9 abc
design 1, 1 | 100 3 design 1, name
";

#[test]
fn a_file_is_read_by_these_calls(rt: HostRuntime) -> Result<(), Fail> {
    for line in READS.lines() {
        if let Some((wanted, case)) = line.split_once(" | ") {
            let found = read(rt.alloc(), case)?;
            assert_eq!(rt; found.as_str(), wanted, "at {line}");
        }
    }
    Ok(())
}

fn read(alloc: Global, case: &str) -> Result<String, Fail> {
    let (name, numbers) = case.split_once(' ').ok_or("no length")?;
    let (len, call) = numbers.split_once(' ').ok_or("no call")?;
    let files = one_file(alloc, len.parse::<usize>()?)?;
    let call = call.parse::<u32>()?;
    if call == 0 {
        return Ok(taken(alloc, SureFiles::new(files), name)?);
    }
    let fails = List::from_vec(vec![in alloc; call]?);
    Ok(taken(alloc, MemoryFiles::new(files, fails), name)?)
}

/// One file, `a`, of so many bytes.
fn one_file(alloc: Global, len: usize) -> Result<List<HeldFile>, AllocError> {
    let file = HeldFile {
        name: List::from_vec(b"a".to_vec(alloc)?),
        bytes: List::from_vec(vec![in alloc; b'x'; len]?),
    };
    Ok(List::from_vec(vec![in alloc; file]?))
}

fn taken<'w, F: Files<'w> + Drop>(
    alloc: Global,
    mut files: F,
    name: &'w str,
) -> Result<String, AllocError>
    requires { length (F.asked files) < MAX_NAMES }
{
    let answer = read_all(alloc, &mut files, name);
    let (faults, moved) = (files.faults(), files.moved());
    match answer {
        Ok(bytes) => format!(in alloc; "{} bytes, {faults}, {moved}", bytes.as_slice().len()),
        Err(error) => format!(in alloc; "{error}, {faults}, {moved}"),
    }
}

#[test]
fn a_sink_takes_what_it_has_room_for(rt: HostRuntime) -> Result<(), Fail> {
    for line in WRITES.lines() {
        if let Some((wanted, case)) = line.split_once(" | ") {
            let found = written(rt.alloc(), case)?;
            assert_eq!(rt; found.as_str(), wanted, "at {line}");
        }
    }
    Ok(())
}

fn written(alloc: Global, case: &str) -> Result<String, Fail> {
    let (room, case) = case.split_once(' ').ok_or("no call")?;
    let (call, text) = case.split_once(' ').ok_or("no text")?;
    let (room, call) = (room.parse::<u64>()?, call.parse::<u32>()?);
    let fails = List::from_vec(vec![in alloc; call]?);
    let mut sink = MemorySink::new(alloc, room, 4, fails)?;
    let _ = write_all(&mut sink, text.as_bytes());
    let taken = std::str::from_utf8(sink.bytes()).unwrap_or("?");
    Ok(format!(in alloc; "{taken}, {}", sink.faults())?)
}

fn pass<G: Gate>(gate: &G) {
    gate.enter(0, 0);
}

#[test]
fn an_open_gate_lets_workers_pass(_rt: HostRuntime) {
    pass(&OpenGate);
}
