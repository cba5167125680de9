//! What `check` answers.
ghost use Rattle.std.specs.Prelude.{◌≡◌, ◌≢◌, ℕ, ◌<◌, ◌≤◌, ◌∷◌, [], codes, length, map, slice_index, IfOk};
ghost use Rattle.duct_units.specs.Lines.{line};
ghost use Rattle.duct_definitions.specs.Network.{section_name};
ghost use Rattle.duct_definitions.specs.Tree.{section_count};
ghost use Rattle.design_check.specs.Verdicts.{NamesSection};
ghost use Rattle.duct_cli.specs.Answer.{AnswersCheck};
ghost use Rattle.duct_cli.specs.Checking.{verdict_line, verdict_status};
ghost use Rattle.duct_cli.specs.Designing.{rules_of};
ghost use Rattle.duct_cli.specs.DesignBytes.{bytes_at};

use crate::answers::{Answer, unread_answer};
use crate::designing::{DesignBytes, network_and_text};
use crate::status::{FOUND, NONE_FOUND, READ_FAULT, REFUSED_WORDS};
use design_check::{Verdict, check};
use design_rules::{MAX_RULES, SizeRule};
use duct_units::{List, NoMemory};
use net_model::Network;
use std::alloc::Global;
use text_lines::one_line;

/// The answer for the bytes of the files of a project and of a design text.
pub fn answer_check<R: SizeRule>(
    alloc: Global,
    files: &[List<u8>],
    text: &[u8],
    rules: Vec<R>,
) -> Result<Answer, NoMemory>
    requires few { length rules.items ≤ MAX_RULES }
    requires fresh { (i : ℕ) → slice_index (map R.count rules.items) i ≡ 0 }
    requires files { 5 ≤ length files.now }
    ensures answer { IfOk result (λ a. AnswersCheck (rules_of R.allows R.label rules.items) (bytes_at files.now) text.now a.status a.text) }
    ensures status { IfOk result (λ a. (a.status < READ_FAULT) × (a.status ≢ REFUSED_WORDS)) }
{
    match network_and_text(alloc, &DesignBytes::of_files(files), text, rules) {
        Ok((net, listed)) => verdict_answer(alloc, &net, check(&net, &listed)),
        Err(unread) => unread_answer(alloc, &unread),
    }
}

/// The status and the line of a verdict.
fn verdict_answer(alloc: Global, net: &Network, verdict: Verdict) -> Result<Answer, NoMemory>
    requires { NamesSection net.now verdict }
    ensures answer { IfOk result (λ a. (a.status ≡ verdict_status verdict) × (a.text ≡ verdict_line net.now verdict)) }
    ensures status { IfOk result (λ a. (a.status < READ_FAULT) × (a.status ≢ REFUSED_WORDS)) }
{
    Ok(Answer {
        status: verdict_status(verdict),
        text: verdict_line(alloc, net, verdict)?,
    })
}

fn verdict_status(verdict: Verdict) -> u8
    ensures value { result ≡ verdict_status verdict }
    ensures status { (result < READ_FAULT) × (result ≢ REFUSED_WORDS) }
{
    match verdict {
        Verdict::Yes => FOUND,
        _ => NONE_FOUND,
    }
}

fn verdict_line(alloc: Global, net: &Network, verdict: Verdict) -> Result<List<u8>, NoMemory>
    requires { NamesSection net.now verdict }
    ensures { IfOk result (λ text. text ≡ verdict_line net.now verdict) }
{
    match verdict {
        Verdict::Yes => one_line(alloc, b"check", &[b"yes"]),
        Verdict::Name => one_line(alloc, b"check", &[b"no", b"name"]),
        Verdict::Pair(s) => section_line(alloc, net, b"pair", s),
        Verdict::Loss(s) => section_line(alloc, net, b"loss", s),
        Verdict::Fan => one_line(alloc, b"check", &[b"no", b"fan"]),
        Verdict::Head => one_line(alloc, b"check", &[b"no", b"head"]),
        Verdict::Damper(s) => section_line(alloc, net, b"damper", s),
        Verdict::Cost => one_line(alloc, b"check", &[b"no", b"cost"]),
    }
}

/// The line of a difference in section `s`.
fn section_line(alloc: Global, net: &Network, what: &[u8], s: u32) -> Result<List<u8>, NoMemory>
    requires { s < section_count net.now.tree }
    ensures { IfOk result (λ text. text ≡ line (codes "check") (codes "no" ∷ what.now ∷ section_name net.now s ∷ [])) }
{
    let name = net.section_name(s);
    one_line(alloc, b"check", &[b"no", what, name.bytes()])
}
