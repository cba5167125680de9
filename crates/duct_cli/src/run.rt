//! The top call.
ghost use Rattle.std.specs.Prelude.{◌≡◌, ◌≢◌, ℕ, ◌<◌, ◌≤◌, ◌⊎◌, [], length, map, slice_index, string_bytes, None};
ghost use Rattle.std.specs.Io.KnownBytes.{Appends, Keeps};
ghost use Rattle.duct_ports.specs.Faults.{Rose};
ghost use Rattle.duct_ports.specs.Writing.{AppendsPart};
ghost use Rattle.duct_cli.specs.Designing.{rules_of};
ghost use Rattle.command_words.specs.RefusalText.{words_line, fault_line};
ghost use Rattle.duct_cli.specs.Run.{AsksFor, Answers, AnswersPart};
ghost use Rattle.command_words.specs.Words.{command_of};

use crate::reply::{Reply, reply_to};
use crate::status::{OUT_OF_MEMORY, READ_FAULT, REFUSED_WORDS, WRITE_FAULT};
use command_words::{fault_text, words_text};
use design_rules::{MAX_RULES, SizeRule};
use duct_ports::{Files, Gate, Sink, write_all};
use std::alloc::Global;
use std::thread::Threads;

/// Answers the words, from files to a sink, and gives the status: 0 with a design, a file that was made or a check that
/// says yes, 1 with a refusal of bytes, 2 with the line of refused words, 3 where no design meets the rules or a check
/// says no, 4 after a fault of the files, 5 after a fault of the sink, and 6 where memory ran out (`status.rt`).
///
/// As many workers condense as the words say, each of whom enters the gate before a section. No byte and no status
/// depends on their number or on the gate.
pub fn run<'w, T: Threads + Sync, F: Files<'w>, W: Sink, R: SizeRule, G: Gate>(
    rt: &T,
    alloc: Global,
    words: &'w [String],
    files: &mut F,
    out: &mut W,
    rules: Vec<R>,
    gate: &G,
) -> u8
    requires asked { F.asked files.old ≡ [] }
    requires few { length rules.items ≤ MAX_RULES }
    requires fresh { (i : ℕ) → slice_index (map R.count rules.items) i ≡ 0 }

    ensures status { result ≤ OUT_OF_MEMORY }
    ensures names { AsksFor (map string_bytes words.now) (F.asked files.new) }
    ensures kept { F.held files.new ≡ F.held files.old }

    // The answer, whole, whether or not a count of faults rose.
    ensures answer { result < READ_FAULT
        → Answers (rules_of R.allows R.label rules.items) (map string_bytes words.now) (F.held files.old) result (W.taken out.old) (W.taken out.new) }

    // Refused words are the answer's cause, whatever files and memory do.
    ensures words { command_of (map string_bytes words.now) ≡ None → (result ≡ REFUSED_WORDS) ⊎ (result ≡ WRITE_FAULT) }
    ensures words_part { command_of (map string_bytes words.now) ≡ None → result ≡ WRITE_FAULT
        → AppendsPart (W.taken out.old) (W.taken out.new) words_line }
    ensures refused_words { result ≡ REFUSED_WORDS
        → (command_of (map string_bytes words.now) ≡ None) × Appends (W.taken out.old) (W.taken out.new) words_line }

    // Each fault has its cause.
    ensures read_fault { result ≡ READ_FAULT → Rose (F.fault_count files.old) (F.fault_count files.new)
        × Appends (W.taken out.old) (W.taken out.new) fault_line }
    ensures write_fault { result ≡ WRITE_FAULT → Rose (W.fault_count out.old) (W.fault_count out.new)
        × AnswersPart (rules_of R.allows R.label rules.items) (map string_bytes words.now) (F.held files.old)
        (Rose (F.fault_count files.old) (F.fault_count files.new)) (W.taken out.old) (W.taken out.new) }

    // Without a fault there is an answer, or memory ran out.
    ensures complete { ¬ Rose (F.fault_count files.old) (F.fault_count files.new)
        → ¬ Rose (W.fault_count out.old) (W.fault_count out.new) → (result < READ_FAULT) ⊎ (result ≡ OUT_OF_MEMORY) }

    // Nothing is written where memory ran out.
    ensures memory { result ≡ OUT_OF_MEMORY → Keeps (W.taken out.old) (W.taken out.new) }
{
    match reply_to(rt, alloc, words, files, rules, gate) {
        Reply::RefusedWords => finish(out, words_text(), REFUSED_WORDS),
        Reply::ReadFault => finish(out, fault_text(), READ_FAULT),
        Reply::Answered(answer) => finish(out, answer.text.as_slice(), answer.status),
        Reply::NoMemory => OUT_OF_MEMORY,
    }
}

/// Writes a text, and answers the status or a write fault.
fn finish<W: Sink>(out: &mut W, text: &[u8], status: u8) -> u8
    requires { status ≢ WRITE_FAULT }
    ensures known { (result ≡ status) ⊎ (result ≡ WRITE_FAULT) }
    ensures written { result ≡ status → Appends (W.taken out.old) (W.taken out.new) text.now }
    ensures part { result ≡ WRITE_FAULT → Rose (W.fault_count out.old) (W.fault_count out.new)
        × AppendsPart (W.taken out.old) (W.taken out.new) text.now }
{
    match write_all(out, text) {
        Ok(()) => status,
        Err(_) => WRITE_FAULT,
    }
}
