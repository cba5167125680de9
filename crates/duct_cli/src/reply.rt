//! What a command replies, before anything is written.
ghost use Rattle.std.specs.Prelude.{◌≡◌, ℕ, ◌≤◌, ◌++◌, [], length, map, slice_index, string_bytes, IfOk, MatchResult};
ghost use Rattle.duct_units.specs.declared.fault.Reason.TheVariants.{TooLong};
ghost use Rattle.duct_units.specs.Rules.{file_fault};
ghost use Rattle.duct_ports.specs.Faults.{Rose};
ghost use Rattle.duct_cli.specs.Designing.{rules_of};
ghost use Rattle.command_words.specs.RefusalText.{refusal_line};
ghost use Rattle.duct_cli.specs.Reply.{IsReply, IsCommandReply};
ghost use Rattle.duct_cli.specs.Run.{AsksFor};
ghost use Rattle.duct_cli.specs.Taking.{AsksOn};
ghost use Rattle.command_words.specs.Commands.{files_of, names_of, IsInBounds};
ghost use Rattle.command_words.specs.WordsSeen.{command_seen, file_seen};

use crate::answers::{Answer, answer_command, refused};
use crate::crew::Crew;
use crate::status::REFUSED;
use crate::taking::{Taken, take_all};
use command_words::{Asked, Command, FileKind, FileWord};
use design_rules::{MAX_RULES, SizeRule};
use duct_ports::{Files, Gate};
use duct_units::{Fault, NoMemory, Reason};
use std::alloc::Global;
use std::thread::Threads;

/// What is to be written.
#[derive(Drop)]
pub enum Reply {
    /// The words are none of the forms.
    RefusedWords,
    /// A file could not be read.
    ReadFault,
    Answered(Answer),
    NoMemory,
}

/// The reply to the words, from what the files hold.
pub fn reply_to<'w, T: Threads + Sync, F: Files<'w>, R: SizeRule, G: Gate>(
    rt: &T,
    alloc: Global,
    words: &'w [String],
    files: &mut F,
    rules: Vec<R>,
    gate: &G,
) -> Reply
    requires asked { F.asked files.old ≡ [] }
    requires few { length rules.items ≤ MAX_RULES }
    requires fresh { (i : ℕ) → slice_index (map R.count rules.items) i ≡ 0 }
    ensures reply { IsReply (rules_of R.allows R.label rules.items) (map string_bytes words.now) (F.held files.old)
        (Rose (F.fault_count files.old) (F.fault_count files.new)) result }
    ensures names { AsksFor (map string_bytes words.now) (F.asked files.new) }
    ensures kept { F.held files.new ≡ F.held files.old }
{
    match Asked::of_words(words) {
        None => Reply::RefusedWords,
        Some(asked) => {
            let crew = Crew {
                rt,
                gate,
                workers: asked.workers,
            };
            reply_to_command(alloc, &crew, files, &asked.command, rules)
        }
    }
}

/// The reply to a command.
fn reply_to_command<'w, T: Threads + Sync, G: Gate, F: Files<'w>, R: SizeRule>(
    alloc: Global,
    crew: &Crew<'_, T, G>,
    files: &mut F,
    command: &Command<'w>,
    rules: Vec<R>,
) -> Reply
    requires asked { F.asked files.old ≡ [] }
    requires few { length rules.items ≤ MAX_RULES }
    requires fresh { (i : ℕ) → slice_index (map R.count rules.items) i ≡ 0 }
    requires bounds { IsInBounds (command_seen command.now) }
    ensures reply { IsCommandReply (rules_of R.allows R.label rules.items) (command_seen command.now) (F.held files.old)
        (Rose (F.fault_count files.old) (F.fault_count files.new)) result }
    ensures names { AsksOn [] (names_of (command_seen command.now)) (F.asked files.new) }
    ensures kept { F.held files.new ≡ F.held files.old }
{
    match command.files(alloc) {
        Ok(words) => reply_over(alloc, crew, files, command, words.as_slice(), rules),
        Err(_) => Reply::NoMemory,
    }
}

/// The reply to a command, from what its files hold.
fn reply_over<'w, T: Threads + Sync, G: Gate, F: Files<'w>, R: SizeRule>(
    alloc: Global,
    crew: &Crew<'_, T, G>,
    files: &mut F,
    command: &Command<'w>,
    words: &[FileWord<'w>],
    rules: Vec<R>,
) -> Reply
    requires asked { F.asked files.old ≡ [] }
    requires few { length rules.items ≤ MAX_RULES }
    requires fresh { (i : ℕ) → slice_index (map R.count rules.items) i ≡ 0 }
    requires bounds { IsInBounds (command_seen command.now) }
    requires words { map file_seen words.now ≡ files_of (command_seen command.now) }
    ensures reply { IsCommandReply (rules_of R.allows R.label rules.items) (command_seen command.now) (F.held files.old)
        (Rose (F.fault_count files.old) (F.fault_count files.new)) result }
    ensures names { AsksOn [] (names_of (command_seen command.now)) (F.asked files.new) }
    ensures kept { F.held files.new ≡ F.held files.old }
{
    match take_all(alloc, files, words) {
        Taken::Whole(bytes) => replied(answer_command(
            alloc,
            crew,
            command,
            bytes.as_slice(),
            rules,
        )),
        Taken::TooLong(kind) => replied(answer_too_long(alloc, kind)),
        Taken::Fault => Reply::ReadFault,
        Taken::NoMemory => Reply::NoMemory,
    }
}

fn replied(answer: Result<Answer, NoMemory>) -> Reply
    ensures { MatchResult answer (λ a. result ≡ Reply.Answered a) (λ _. result ≡ Reply.NoMemory) }
{
    match answer {
        Ok(answer) => Reply::Answered(answer),
        Err(_) => Reply::NoMemory,
    }
}

fn answer_too_long(alloc: Global, file: FileKind) -> Result<Answer, NoMemory>
    ensures { IfOk result (λ a. (a.status ≡ REFUSED) × (a.text ≡ refusal_line file (file_fault TooLong))) }
{
    refused(alloc, file, &Fault::of_file(Reason::TooLong))
}
