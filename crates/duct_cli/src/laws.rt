//! Laws of the answer. Each is the contract of a call that has nothing to do.
ghost use Rattle.std.specs.Prelude.{◌≡◌, ℕ, ◌<◌, ◌≤◌, ◌⊎◌, List, [], length, map, slice_index};
ghost use Rattle.duct_cli.specs.declared.status.TheConstants.{FOUND, REFUSED, REFUSED_WORDS, NONE_FOUND, READ_FAULT, WRITE_FAULT, OUT_OF_MEMORY, NO_WORDS};
ghost use Rattle.duct_cli.specs.Answer.{AreOneText, IsAnswer};
ghost use Rattle.duct_cli.specs.Designing.{Rules};
ghost use Rattle.command_words.specs.Words.{command_of};

use crate::run::run;
use design_rules::{MAX_RULES, SizeRule};
use duct_ports::{Files, Gate, SureFiles, SureSink};
use std::alloc::Global;
use std::thread::Threads;

/// The same words over the same files have one answer: one status, and one text, or texts of one document where a
/// project is migrated.
pub fn answer_is_one()
    ensures { (rules : Rules) → (words : List (List ℕ)) → (contents : List ℕ → List ℕ) → (s t : ℕ) → (text other : List ℕ)
        → IsAnswer rules words contents s text → IsAnswer rules words contents t other → (s ≡ t) × AreOneText (command_of words) text other }
{}

/// The statuses as numbers, as scripts see them.
pub fn statuses_as_numbers()
    ensures found { FOUND ≡ 0 }
    ensures refused { REFUSED ≡ 1 }
    ensures refused_words { REFUSED_WORDS ≡ 2 }
    ensures none_found { NONE_FOUND ≡ 3 }
    ensures read_fault { READ_FAULT ≡ 4 }
    ensures write_fault { WRITE_FAULT ≡ 5 }
    ensures out_of_memory { OUT_OF_MEMORY ≡ 6 }
    ensures no_words { NO_WORDS ≡ 7 }
{}

/// Over files and a sink that never fail there is an answer, or memory ran out.
pub fn sure_files_are_answered<'w, T: Threads + Sync, R: SizeRule, G: Gate>(
    rt: &T,
    alloc: Global,
    words: &'w [String],
    files: &mut SureFiles<'w>,
    out: &mut SureSink,
    rules: Vec<R>,
    gate: &G,
) -> u8
    requires asked { ⟦<SureFiles<'w> as Files<'w>>⟧.asked files.old ≡ [] }
    requires few { length rules.items ≤ MAX_RULES }
    requires fresh { (i : ℕ) → slice_index (map R.count rules.items) i ≡ 0 }
    ensures { (result < READ_FAULT) ⊎ (result ≡ OUT_OF_MEMORY) }
{
    run(rt, alloc, words, files, out, rules, gate)
}
