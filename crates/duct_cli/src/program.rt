//! What the program does with its arguments.
ghost use Rattle.std.specs.Prelude.{◌≡◌, ℕ, ◌+◌, ◌<◌, ◌≤◌, ◌⊎◌, [], length, map, slice_index, string_bytes, None, IfOk, OnErr, OnOk};
ghost use Rattle.duct_ports.specs.Faults.{Rose};
ghost use Rattle.std.specs.Io.KnownBytes.{Keeps};
ghost use Rattle.duct_cli.specs.Designing.{rules_of};
ghost use Rattle.duct_cli.specs.Run.{Answers};
ghost use Rattle.command_words.specs.Words.{command_of};

use crate::run::run;
use crate::status::{NO_WORDS, OUT_OF_MEMORY, READ_FAULT, REFUSED_WORDS, WRITE_FAULT};
use design_rules::{MAX_RULES, SizeRule};
use duct_ports::{Files, Gate, Sink};
use duct_units::NoMemory;
use std::alloc::Global;
use std::env;
use std::io::{self, ErrorKind};
use std::thread::Threads;

/// The arguments of the command line, without the name of the program.
pub fn arguments<R: std::rt::Env + AllocGlobal>(rt: &R) -> io::Result<Vec<String>> {
    Ok(env::args(rt)?.skip(1).collect(rt.alloc())?)
}

/// Adds a rule of sizes that has refused nothing to others that have refused nothing.
pub fn add_rule<R: SizeRule>(rules: &mut Vec<R>, rule: R) -> Result<(), NoMemory>
    requires new { R.count rule ≡ 0 }
    requires fresh { (i : ℕ) → slice_index (map R.count rules.old.items) i ≡ 0 }
    ensures length { OnOk result (length rules.new.items ≡ length rules.old.items + 1) }
    ensures fresh { OnOk result ((i : ℕ) → slice_index (map R.count rules.new.items) i ≡ 0) }
{
    Ok(rules.push(rule)?)
}

/// Runs on the arguments and gives the status of the run; where the runtime gave none, nothing is written, and the
/// status is 6 where memory ran out and 7 for another cause.
pub fn status_of<'w, T: Threads + Sync, F: Files<'w>, W: Sink, R: SizeRule, G: Gate>(
    rt: &T,
    alloc: Global,
    arguments: &'w io::Result<Vec<String>>,
    files: &mut F,
    out: &mut W,
    rules: Vec<R>,
    gate: &G,
) -> u8
    requires asked { F.asked files.old ≡ [] }
    requires few { length rules.items ≤ MAX_RULES }
    requires fresh { (i : ℕ) → slice_index (map R.count rules.items) i ≡ 0 }

    ensures status { result ≤ NO_WORDS }

    // What `run` says of its status.
    ensures answer { IfOk arguments.now (λ words. result < READ_FAULT
        → Answers (rules_of R.allows R.label rules.items) (map string_bytes words.items) (F.held files.old) result (W.taken out.old) (W.taken out.new)) }
    ensures words { IfOk arguments.now (λ words. command_of (map string_bytes words.items) ≡ None
        → (result ≡ REFUSED_WORDS) ⊎ (result ≡ WRITE_FAULT)) }
    ensures refused_words { IfOk arguments.now (λ words. result ≡ REFUSED_WORDS
        → command_of (map string_bytes words.items) ≡ None) }
    ensures read_fault { result ≡ READ_FAULT → Rose (F.fault_count files.old) (F.fault_count files.new) }
    ensures write_fault { result ≡ WRITE_FAULT → Rose (W.fault_count out.old) (W.fault_count out.new) }
    ensures memory { result ≡ OUT_OF_MEMORY → Keeps (W.taken out.old) (W.taken out.new) }

    // Without arguments nothing is asked for and nothing is written.
    ensures none { OnErr arguments.now ((result ≡ OUT_OF_MEMORY) ⊎ (result ≡ NO_WORDS)) }
    ensures unasked { OnErr arguments.now (files.new ≡ files.old) }
    ensures unwritten { OnErr arguments.now (out.new ≡ out.old) }
{
    match arguments {
        Ok(words) => run(rt, alloc, words.as_slice(), files, out, rules, gate),
        Err(error) => status_without_words(error),
    }
}

/// The status where the runtime gave no arguments.
fn status_without_words(error: &io::Error) -> u8
    ensures { (result ≡ OUT_OF_MEMORY) ⊎ (result ≡ NO_WORDS) }
{
    match error.kind() {
        ErrorKind::OutOfMemory => OUT_OF_MEMORY,
        _ => NO_WORDS,
    }
}
