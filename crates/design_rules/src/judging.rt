//! Which of several rules refuses.
ghost use Rattle.std.specs.Prelude.{◌≡◌, ◌↔◌, ℕ, ◌<◌, ◌≤◌, ◌+◌, length, map, slice_index, IsNone, IfSome, IsTrue, if◌then◌else◌};
ghost use Rattle.design_rules.specs.Meanings.{all_allow, first_refusal, refuses_first, counted, SameRules};

use crate::facts::PairFacts;
use crate::limits::MAX_RULES;
use crate::rule::SizeRule;

/// Asks the rules in order up to the first that refuses, and answers its place, from 0; None where all allow the facts.
/// The rule that refuses counts it.
pub fn judge<R: SizeRule>(rules: &mut Vec<R>, facts: &PairFacts) -> Option<u32>
    requires few { length rules.old.items ≤ MAX_RULES }
    requires room { (i : ℕ) → slice_index (map R.count rules.old.items) i < u64.MAX }
    ensures value { result ≡ first_refusal (map R.allows rules.old.items) facts.now }
    ensures none { IsNone result ↔ IsTrue (all_allow (map R.allows rules.old.items) facts.now) }
    ensures some { IfSome result (λ i. IsTrue (refuses_first (map R.allows rules.old.items) i facts.now)) }
    ensures within { IfSome result (λ i. i < length rules.old.items) }
    ensures counts { map R.count rules.new.items ≡ counted result (map R.count rules.old.items) }
    ensures same { SameRules R.allows R.label rules.old.items rules.new.items }
{
    for i in 0..rules.len() {
        if !ask(&mut rules[i], facts) {
            return Some(i as u32);
        }
    }
    None
}

// Asks one rule.
fn ask<R: SizeRule>(rule: &mut R, facts: &PairFacts) -> bool
    requires room { R.count rule.old < u64.MAX }
    ensures answer { result ≡ R.allows rule.old facts.now }
    ensures counted { R.count rule.new ≡ (if result then R.count rule.old else R.count rule.old + 1) }
    ensures meaning { R.allows rule.new ≡ R.allows rule.old }
    ensures label { R.label rule.new ≡ R.label rule.old }
{
    rule.permits(facts)
}
