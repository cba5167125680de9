//! Four rules of sizes.
ghost use Rattle.std.specs.Prelude.{◌≡◌, ◌<◌, ◌+◌, IsTrue, if◌then◌else◌};
ghost use Rattle.duct_units.specs.Name.{is_name};
ghost use Rattle.design_rules.specs.Pairs.{is_preset, is_slow_enough, is_low_enough, is_tapered, is_within_velocity};

use crate::facts::PairFacts;
use crate::limits::VELOCITY_UNITS;
use crate::rule::SizeRule;
use duct_units::Name;

/// A section has the size that the project presets for it.
#[derive(Drop)]
pub struct PresetRule {
    refused: u64,
}

impl PresetRule {
    /// Nothing is refused yet.
    pub fn new() -> PresetRule
        ensures { result.refused ≡ 0 }
    {
        PresetRule { refused: 0 }
    }
}

impl SizeRule for PresetRule {
    ghost use Rattle.std.specs.Prelude.{codes};
    ghost use Rattle.design_rules.specs.Pairs.{is_preset};

    ghost allows = { λ rule facts. is_preset facts };

    ghost count = { λ rule. rule.refused };

    ghost label = { λ rule. codes "preset" };

    fn name(&self) -> Name {
        rule_name(b"preset")
    }

    fn permits(&mut self, facts: &PairFacts) -> bool {
        let allowed = is_preset(facts);
        count_refusal(&mut self.refused, allowed);
        allowed
    }

    fn refused(&self) -> u64 {
        self.refused
    }
}

/// The air in a section is no faster than its limit.
#[derive(Drop)]
pub struct VelocityRule {
    refused: u64,
}

impl VelocityRule {
    /// Nothing is refused yet.
    pub fn new() -> VelocityRule
        ensures { result.refused ≡ 0 }
    {
        VelocityRule { refused: 0 }
    }
}

impl SizeRule for VelocityRule {
    ghost use Rattle.std.specs.Prelude.{codes};
    ghost use Rattle.design_rules.specs.Pairs.{is_slow_enough};

    ghost allows = { λ rule facts. is_slow_enough facts };

    ghost count = { λ rule. rule.refused };

    ghost label = { λ rule. codes "velocity" };

    fn name(&self) -> Name {
        rule_name(b"velocity")
    }

    fn permits(&mut self, facts: &PairFacts) -> bool {
        let allowed = is_slow_enough(facts);
        count_refusal(&mut self.refused, allowed);
        allowed
    }

    fn refused(&self) -> u64 {
        self.refused
    }
}

/// A size is no higher than the section's limit.
#[derive(Drop)]
pub struct HeightRule {
    refused: u64,
}

impl HeightRule {
    /// Nothing is refused yet.
    pub fn new() -> HeightRule
        ensures { result.refused ≡ 0 }
    {
        HeightRule { refused: 0 }
    }
}

impl SizeRule for HeightRule {
    ghost use Rattle.std.specs.Prelude.{codes};
    ghost use Rattle.design_rules.specs.Pairs.{is_low_enough};

    ghost allows = { λ rule facts. is_low_enough facts };

    ghost count = { λ rule. rule.refused };

    ghost label = { λ rule. codes "height" };

    fn name(&self) -> Name {
        rule_name(b"height")
    }

    fn permits(&mut self, facts: &PairFacts) -> bool {
        let allowed = is_low_enough(facts);
        count_refusal(&mut self.refused, allowed);
        allowed
    }

    fn refused(&self) -> u64 {
        self.refused
    }
}

/// Where the project asks for it, no section has a greater area than its neighbour.
#[derive(Drop)]
pub struct TaperRule {
    refused: u64,
}

impl TaperRule {
    /// Nothing is refused yet.
    pub fn new() -> TaperRule
        ensures { result.refused ≡ 0 }
    {
        TaperRule { refused: 0 }
    }
}

impl SizeRule for TaperRule {
    ghost use Rattle.std.specs.Prelude.{codes};
    ghost use Rattle.design_rules.specs.Pairs.{is_tapered};

    ghost allows = { λ rule facts. is_tapered facts };

    ghost count = { λ rule. rule.refused };

    ghost label = { λ rule. codes "taper" };

    fn name(&self) -> Name {
        rule_name(b"taper")
    }

    fn permits(&mut self, facts: &PairFacts) -> bool {
        let allowed = is_tapered(facts);
        count_refusal(&mut self.refused, allowed);
        allowed
    }

    fn refused(&self) -> u64 {
        self.refused
    }
}

// One refusal more, where the facts aren't allowed.
fn count_refusal(refused: &mut u64, allowed: bool)
    requires { refused.old < u64.MAX }
    ensures { refused.new ≡ (if allowed then refused.old else refused.old + 1) }
{
    if !allowed {
        *refused += 1;
    }
}

// The name that these bytes spell.
fn rule_name(bytes: &[u8]) -> Name
    requires { IsTrue (is_name bytes.now) }
    ensures { result ≡ bytes.now }
{
    Name::new(bytes).unwrap()
}

fn is_preset(facts: &PairFacts) -> bool
    ensures { result ≡ is_preset facts.now }
{
    match facts.preset {
        Some(preset) => facts.size == preset,
        None => true,
    }
}

fn is_slow_enough(facts: &PairFacts) -> bool
    ensures { result ≡ is_slow_enough facts.now }
{
    match facts.velocity_limit {
        Some(limit) => is_within_velocity(facts.flow, facts.area, limit),
        None => true,
    }
}

// Whether the airflow in l/s through the area in mm2 is no faster than the limit in mm/s.
fn is_within_velocity(flow: u64, area: u64, limit: u64) -> bool
    ensures { result ≡ is_within_velocity flow area limit }
{
    u128::from(flow) * u128::from(VELOCITY_UNITS) <= u128::from(limit) * u128::from(area)
}

fn is_low_enough(facts: &PairFacts) -> bool
    ensures { result ≡ is_low_enough facts.now }
{
    match facts.height_limit {
        Some(limit) => facts.height <= limit,
        None => true,
    }
}

fn is_tapered(facts: &PairFacts) -> bool
    ensures { result ≡ is_tapered facts.now }
{
    facts.at_fan || !facts.taper || facts.area <= facts.beside_area
}
