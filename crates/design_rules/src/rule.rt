//! A rule of sizes.
ghost use Rattle.std.specs.Prelude.{◌≡◌, ℕ, ◌<◌, ◌+◌, Bool, List as Sequence, if◌then◌else◌};
ghost use Rattle.design_rules.specs.declared.facts.PairFacts.{PairFacts};

use crate::facts::PairFacts;
use duct_units::Name;

/// A rule of sizes. It has a meaning, which says for any facts whether they are allowed and which no call changes, and
/// counts what it refuses.
pub trait SizeRule: Drop {
    ghost allows: { Self → PairFacts → Bool };

    ghost count: { Self → ℕ };

    ghost label: { Self → Sequence ℕ };

    /// The name of the rule.
    fn name(&self) -> Name
        ensures { result ≡ label self.now };

    /// Whether the rule allows the facts. A refusal is counted.
    fn permits(&mut self, facts: &PairFacts) -> bool
        requires room { count self.old < u64.MAX }
        ensures answer { result ≡ allows self.old facts.now }
        ensures counted { count self.new ≡ (if result then count self.old else count self.old + 1) }
        ensures meaning { allows self.new ≡ allows self.old }
        ensures label { label self.new ≡ label self.old };

    /// How often it refused.
    fn refused(&self) -> u64
        ensures { result ≡ count self.now };
}

/// A rule in a box.
impl SizeRule for Box<dyn SizeRule> {
    ghost allows = { λ b. (SizeRule-box b).allows b.value };

    ghost count = { λ b. (SizeRule-box b).count b.value };

    ghost label = { λ b. (SizeRule-box b).label b.value };

    fn name(&self) -> Name {
        (**self).name()
    }

    fn permits(&mut self, facts: &PairFacts) -> bool {
        (**self).permits(facts)
    }

    fn refused(&self) -> u64 {
        (**self).refused()
    }
}
