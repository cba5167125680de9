//! What each command answers for the bytes of its files.
ghost use Rattle.std.specs.Prelude.{◌≡◌, ◌≢◌, ℕ, ◌<◌, ◌≤◌, length, map, option_map, slice_get, slice_index, option_copied, IfOk, IfSome, IfNone};
ghost use Rattle.duct_definitions.specs.Designs.{Meets};
ghost use Rattle.duct_definitions.specs.Order.{IsBest, NoneMeets};
ghost use Rattle.duct_definitions.specs.Balance.{IsBalanced};
ghost use Rattle.duct_definitions.specs.DesignText.{text, listed};
ghost use Rattle.duct_load.specs.Made.{made};
ghost use Rattle.duct_ports.specs.Reading.{Contents};
ghost use Rattle.duct_cli.specs.Answer.{AnswersProject, IsRefusalLine, AnswersDucts, AnswersFiles, AnswersFriction, AnswersMade, AnswersMigration, AnswersNetwork};
ghost use Rattle.duct_cli.specs.BestDesign.{AnswersDesign};
ghost use Rattle.duct_cli.specs.Designing.{rules_of};
ghost use Rattle.duct_cli.specs.DesignBytes.{bytes_at};
ghost use Rattle.command_words.specs.RefusalText.{refusal_line};
ghost use Rattle.command_words.specs.Commands.{files_of, names_of, IsInBounds, IsAirInBounds, IsSectionCount};
ghost use Rattle.command_words.specs.WordsSeen.{command_seen, friction_seen};

use crate::certifying::{answer_certify, answer_verify};
use crate::checking::answer_check;
use crate::crew::Crew;
use crate::designing::{DesignBytes, Unread, network_of_files};
use crate::editing::answer_edit;
use crate::status::{FOUND, NONE_FOUND, READ_FAULT, REFUSED, REFUSED_WORDS};
use crate::taking_off::answer_takeoff;
use command_words::{Command, FileKind, FrictionWords, refusal_text};
use damper_balance::balance;
use design_laws::dampers_balance_every_path;
use design_rules::{MAX_RULES, SizeRule};
use design_text::{print, print_none};
use duct_definitions::{Design, RuleCount};
use duct_load::{make_network, print_summary};
use duct_ports::Gate;
use duct_units::{Fault, List, NoMemory, ReadError};
use friction_maker::{make_friction, rows_text};
use net_model::Network;
use net_model::laws::network_is_valid;
use network_file::read_network;
use project_file::migrate;
use size_catalogue::{Sizes, read_sizes};
use std::alloc::Global;
use std::thread::Threads;
use t_method::best_design;

/// A status and a text.
#[derive(Drop)]
pub struct Answer {
    /// The status that the program ends with (docs/FORMATS.md, "Statuses").
    pub status: u8,
    /// The whole text that it writes.
    pub text: List<u8>,
}

/// The answer of a command for the bytes of its files, in the order in which they are taken.
pub fn answer_command<T: Threads + Sync, G: Gate, R: SizeRule>(
    alloc: Global,
    crew: &Crew<'_, T, G>,
    command: &Command<'_>,
    bytes: &[List<u8>],
    rules: Vec<R>,
) -> Result<Answer, NoMemory>
    requires few { length rules.items ≤ MAX_RULES }
    requires fresh { (i : ℕ) → slice_index (map R.count rules.items) i ≡ 0 }
    requires files { length bytes.now ≡ length (files_of (command_seen command.now)) }
    requires bounds { IsInBounds (command_seen command.now) }
    ensures answer { IfOk result (λ a. (contents : Contents) → bytes.now ≡ map contents (names_of (command_seen command.now))
        → AnswersFiles (rules_of R.allows R.label rules.items) contents (command_seen command.now) a.status a.text) }
    ensures status { IfOk result (λ a. (a.status < READ_FAULT) × (a.status ≢ REFUSED_WORDS)) }
{
    match command {
        Command::Pick(_) => answer_network(alloc, crew, bytes[0].as_slice()),
        Command::Migrate(_) => answer_migration(alloc, bytes[0].as_slice()),
        Command::Friction(words) => {
            answer_friction(alloc, words, bytes[0].as_slice(), bytes[1].as_slice())
        }
        Command::Design(_) => answer_project(alloc, crew, bytes, rules),
        Command::Make(n) => answer_made(alloc, crew, *n),
        Command::Certify(_) => answer_certify(alloc, crew, bytes[0].as_slice()),
        Command::Verify(_) => {
            answer_verify(
                alloc,
                bytes[0].as_slice(),
                bytes[1].as_slice(),
                third(bytes),
            )
        }
        Command::Takeoff(_) => answer_takeoff(alloc, bytes[0].as_slice(), bytes[1].as_slice()),
        Command::Check(..) => {
            let last = bytes.len() - 1;
            answer_check(alloc, &bytes[..last], bytes[last].as_slice(), rules)
        }
        Command::Edit(..) => {
            let last = bytes.len() - 1;
            answer_edit(alloc, crew, &bytes[..last], bytes[last].as_slice(), rules)
        }
    }
}

/// The bytes of the third file, where there is one.
fn third(files: &[List<u8>]) -> Option<&[u8]>
    ensures { option_map (λ b. b.now) result ≡ slice_get files.now 2 }
{
    match files.get(2) {
        Some(bytes) => Some(bytes.as_slice()),
        None => None,
    }
}

/// The line of a file that is refused.
pub fn refused(alloc: Global, file: FileKind, fault: &Fault) -> Result<Answer, NoMemory>
    ensures { IfOk result (λ a. (a.status ≡ REFUSED) × (a.text ≡ refusal_line file fault.now)) }
{
    Ok(Answer {
        status: REFUSED,
        text: refusal_text(alloc, file, fault)?,
    })
}

/// The answer for the bytes of a project file that is to be migrated.
fn answer_migration(alloc: Global, bytes: &[u8]) -> Result<Answer, NoMemory>
    ensures answer { IfOk result (λ a. AnswersMigration bytes.now a.status a.text) }
    ensures status { IfOk result (λ a. (a.status < READ_FAULT) × (a.status ≢ REFUSED_WORDS)) }
{
    match migrate(alloc, bytes) {
        Ok(text) => Ok(Answer {
            status: FOUND,
            text,
        }),
        Err(ReadError::Refused(fault)) => refused(alloc, FileKind::Project, &fault),
        Err(ReadError::NoMemory) => Err(NoMemory),
    }
}

/// The answer for the bytes of a catalogue and of its ducts.
fn answer_friction(
    alloc: Global,
    words: &FrictionWords<'_>,
    sizes: &[u8],
    ducts: &[u8],
) -> Result<Answer, NoMemory>
    requires { IsAirInBounds words.now.density words.now.viscosity }
    ensures answer { IfOk result (λ a. AnswersFriction (friction_seen words.now) sizes.now ducts.now a.status a.text) }
    ensures status { IfOk result (λ a. (a.status < READ_FAULT) × (a.status ≢ REFUSED_WORDS)) }
{
    match read_sizes(alloc, sizes) {
        Ok(sizes) => answer_ducts(alloc, words, &sizes, ducts),
        Err(ReadError::Refused(fault)) => refused(alloc, FileKind::Sizes, &fault),
        Err(ReadError::NoMemory) => Err(NoMemory),
    }
}

/// The answer for the bytes of the ducts of a catalogue.
fn answer_ducts(
    alloc: Global,
    words: &FrictionWords<'_>,
    sizes: &Sizes,
    ducts: &[u8],
) -> Result<Answer, NoMemory>
    requires { IsAirInBounds words.now.density words.now.viscosity }
    ensures answer { IfOk result (λ a. AnswersDucts (friction_seen words.now) sizes.now ducts.now a.status a.text) }
    ensures status { IfOk result (λ a. (a.status < READ_FAULT) × (a.status ≢ REFUSED_WORDS)) }
{
    match make_friction(alloc, sizes, ducts, words.density, words.viscosity) {
        Ok(rows) => Ok(Answer {
            status: FOUND,
            text: rows_text(alloc, sizes, &rows)?,
        }),
        Err(ReadError::Refused(fault)) => refused(alloc, FileKind::Ducts, &fault),
        Err(ReadError::NoMemory) => Err(NoMemory),
    }
}

/// The answer for the bytes of the files of a design, by the rules that are handed in.
fn answer_project<T: Threads + Sync, G: Gate, R: SizeRule>(
    alloc: Global,
    crew: &Crew<'_, T, G>,
    bytes: &[List<u8>],
    rules: Vec<R>,
) -> Result<Answer, NoMemory>
    requires few { length rules.items ≤ MAX_RULES }
    requires fresh { (i : ℕ) → slice_index (map R.count rules.items) i ≡ 0 }
    requires files { 5 ≤ length bytes.now }
    ensures answer { IfOk result (λ a. AnswersProject (rules_of R.allows R.label rules.items) (bytes_at bytes.now) a.status a.text) }
    ensures status { IfOk result (λ a. (a.status < READ_FAULT) × (a.status ≢ REFUSED_WORDS)) }
{
    match network_of_files(alloc, &DesignBytes::of_files(bytes), rules) {
        Ok((net, refusals)) => answer_design(alloc, crew, &net, refusals.as_slice()),
        Err(unread) => unread_answer(alloc, &unread),
    }
}

/// The line of the file that is refused.
pub fn unread_answer(alloc: Global, unread: &Unread) -> Result<Answer, NoMemory>
    ensures line { IfOk result (λ a. IsRefusalLine unread.now a.status a.text) }
    ensures status { IfOk result (λ a. (a.status < READ_FAULT) × (a.status ≢ REFUSED_WORDS)) }
{
    match unread {
        Unread::Refused(refusal) => refused(alloc, refusal.file, &refusal.fault),
        Unread::NoMemory => Err(NoMemory),
    }
}

/// The answer for the bytes of a network file.
fn answer_network<T: Threads + Sync, G: Gate>(
    alloc: Global,
    crew: &Crew<'_, T, G>,
    bytes: &[u8],
) -> Result<Answer, NoMemory>
    ensures answer { IfOk result (λ a. AnswersNetwork bytes.now a.status a.text) }
    ensures status { IfOk result (λ a. (a.status < READ_FAULT) × (a.status ≢ REFUSED_WORDS)) }
{
    match read_network(alloc, bytes) {
        Ok(net) => answer_design(alloc, crew, &net, &[]),
        Err(ReadError::Refused(fault)) => refused(alloc, FileKind::Network, &fault),
        Err(ReadError::NoMemory) => Err(NoMemory),
    }
}

/// The best design, or none.
fn answer_design<T: Threads + Sync, G: Gate>(
    alloc: Global,
    crew: &Crew<'_, T, G>,
    net: &Network,
    refusals: &[RuleCount],
) -> Result<Answer, NoMemory>
    ensures answer { IfOk result (λ a. AnswersDesign net.now refusals.now a.status a.text) }
    ensures status { IfOk result (λ a. (a.status < READ_FAULT) × (a.status ≢ REFUSED_WORDS)) }
{
    let best = best_design(crew.rt, alloc, net, crew.workers, crew.gate)?;
    design_answer(alloc, net, best.as_ref(), refusals)
}

/// The answer of a network's best design, or of none.
pub fn design_answer(
    alloc: Global,
    net: &Network,
    best: Option<&Design>,
    refusals: &[RuleCount],
) -> Result<Answer, NoMemory>
    requires some { IfSome (option_copied best) (IsBest net.now) }
    requires none { IfNone (option_copied best) (NoneMeets net.now) }
    ensures answer { IfOk result (λ a. AnswersDesign net.now refusals.now a.status a.text) }
    ensures status { IfOk result (λ a. (a.status < READ_FAULT) × (a.status ≢ REFUSED_WORDS)) }
{
    match best {
        Some(best) => Ok(Answer {
            status: FOUND,
            text: design_text(alloc, net, best)?,
        }),
        None => Ok(Answer {
            status: NONE_FOUND,
            text: print_none(alloc, &net.name(), refusals)?,
        }),
    }
}

/// The summary of the made network of `n` sections, with its best design or without one.
fn answer_made<T: Threads + Sync, G: Gate>(
    alloc: Global,
    crew: &Crew<'_, T, G>,
    n: u32,
) -> Result<Answer, NoMemory>
    requires { IsSectionCount n }
    ensures answer { IfOk result (λ a. AnswersMade (made n) a.status a.text) }
    ensures status { IfOk result (λ a. (a.status < READ_FAULT) × (a.status ≢ REFUSED_WORDS)) }
{
    let net = make_network(alloc, n)?;
    match best_design(crew.rt, alloc, &net, crew.workers, crew.gate)? {
        Some(best) => Ok(Answer {
            status: FOUND,
            text: print_summary(alloc, &net, Some(&best))?,
        }),
        None => Ok(Answer {
            status: NONE_FOUND,
            text: print_summary(alloc, &net, None)?,
        }),
    }
}

/// The text of a design, with its heads and dampers, which balance every path.
fn design_text(alloc: Global, net: &Network, d: &Design) -> Result<List<u8>, NoMemory>
    requires { Meets net.now d.now }
    ensures text { IfOk result (λ answer. answer ≡ text (listed net.now d.now)) }
    ensures balanced { IsBalanced net.now d.now }
{
    dampers_balance_every_path();
    network_is_valid(net);
    let dampers = balance(alloc, net, d)?;
    print(alloc, net, d, &dampers)
}
