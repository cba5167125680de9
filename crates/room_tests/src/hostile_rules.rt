//! Rules of sizes that refuse everything, or all but single pairs, up to sixteen of them.
ghost use Rattle.std.specs.Prelude.{◌≡◌, ℕ, ◌≤◌, IfOk, length, map, slice_index};
ghost use Rattle.net_build.specs.Catalogues.{HasFriction};
ghost use Rattle.project_file.specs.Projects.{IsProject};
ghost use Rattle.design_rules.specs.declared.limits.TheConstants.{MAX_RULES};

use crate::texts::file;
use design_rules::{MAX_RULES, PairFacts, SizeRule};
use duct_definitions::RuleCount;
use duct_units::Name;
use fan_points::{Fans, read_fans};
use fitting_tables::{Fittings, read_fittings};
use friction_table::{Friction, read_friction};
use net_build::build;
use project_file::{Project, read_project};
use size_catalogue::{Sizes, read_sizes};
use std::alloc::Global;
use std::test::Fail;

const PROJECT: &str = r"format = 1\nname = 'small'\ndensity = 1200
energy = {hours = 3000, tariff = 1500, worth = 5000}
section = [
{name = 'main', side = 'supply', length = 10000, list = 'round'},
{name = 'left', side = 'supply', neighbour = 'main', length = 5000, list = 'round', flow = 150},
{name = 'right', side = 'supply', neighbour = 'main', length = 20000, list = 'round', flow = 250},
]";

const SIZES: &str = "list,size,area,height,metre,join,step
round,R1,20000,160,2000,500,300
round,R2,50000,250,3000,800,400
";

const FRICTION: &str = "size,flow,rate\nR1,300,2500\nR2,500,900\n";

/// A case a line: how many pairs each rule refuses, a bar, and the rules. Of the pairs 2 `main` has its second size; 4 and
/// 5 `left` has its first beside both of `main`, and 6 and 7 its second; 8 to 11 are those of `right`. The first size of
/// `main` is pair 0, which has no friction at 400 l/s, so no rule is asked of it.
const CASES: &str = "
0|all
9|none
8|only 2
8|only 7
9|only 0
1|but 2
0|but 0
9 0|none, none
0 9|all, none
8 1|only 2, only 6
8 0|only 2, only 2
1 8|but 4, none
1 1 1 1 1 1 1 1 1 0 0 0 0 0 0 0|but 2, but 4, but 5, but 6, but 7, but 8, but 9, but 10, but 11`7 of , none`
0 0 0 0 0 0 0 0 0 0 0 0 0 0 0 9|all`14 of , all`, none
1 0 0 0 0 0 0 0 0 0 0 0 0 0 0 0|but 11`15 of , but 11`
8 1 0 0 0 0 0 0 0 0 0 0 0 0 0 0|only 11`15 of , only 2`
";

/// A rule that allows some of the pairs, by their numbers.
#[derive(Drop)]
struct Listed {
    allowed: [bool; 12],
    refused: u64,
}

impl SizeRule for Listed {
    ghost use Rattle.std.specs.Prelude.{◌+◌, ◌*◌, false, codes, slice_index_or};

    ghost allows = { λ rule facts. slice_index_or rule.allowed (facts.section * 4 + facts.size * 2 + facts.beside) false };

    ghost count = { λ rule. rule.refused };

    ghost label = { λ _. codes "listed" };

    fn name(&self) -> Name {
        Name::new(b"listed").unwrap()
    }

    fn permits(&mut self, facts: &PairFacts) -> bool {
        let pair = facts.section as usize * 4 + facts.size as usize * 2 + facts.beside as usize;
        let allowed = self.allowed.get(pair).copied().unwrap_or(false);
        if !allowed {
            self.refused += 1;
        }
        allowed
    }

    fn refused(&self) -> u64 {
        self.refused
    }
}

#[test]
fn each_rule_counts_what_it_is_the_first_to_refuse(rt: HostRuntime) -> Result<(), Fail> {
    let said = read(rt.alloc())?;
    for line in CASES.lines() {
        if let Some((wanted, case)) = line.split_once('|') {
            let found = outcome(rt.alloc(), &said, case)?;
            assert_eq!(rt; found.as_str(), wanted, "at {line}");
        }
    }
    Ok(())
}

/// What the files say.
#[derive(Drop)]
struct Said {
    project: Project,
    sizes: Sizes,
    friction: Friction,
    fittings: Fittings,
    fans: Fans,
}

fn read(alloc: Global) -> Result<Said, Fail>
    ensures project { IfOk result (λ said. IsProject said.project) }
    ensures friction { IfOk result (λ said. HasFriction said.sizes said.friction) }
{
    let text = file(alloc, PROJECT, &[])?;
    let project = read_project(alloc, &text)?;
    let sizes = read_sizes(alloc, SIZES.as_bytes())?;
    let friction = read_friction(alloc, FRICTION.as_bytes(), &sizes)?;
    let fittings = read_fittings(alloc, b"table,area,flow,value\n")?;
    let fans = read_fans(alloc, b"fan,pressure,low,high,price,watts\n")?;
    Ok(Said {
        project,
        sizes,
        friction,
        fittings,
        fans,
    })
}

fn outcome(alloc: Global, said: &Said, case: &str) -> Result<String, Fail>
    requires project { IsProject said.now.project }
    requires friction { HasFriction said.now.sizes said.now.friction }
{
    let words = file(alloc, case, &[])?;
    let rules = rules_of(alloc, std::str::from_utf8(&words)?)?;
    counts(alloc, said, rules)
}

/// How many pairs each rule refuses.
fn counts(alloc: Global, said: &Said, rules: Vec<Listed>) -> Result<String, Fail>
    requires project { IsProject said.now.project }
    requires friction { HasFriction said.now.sizes said.now.friction }
    requires few { length rules.items ≤ MAX_RULES }
    requires fresh { (i : ℕ) → slice_index (map (λ rule. rule.refused) rules.items) i ≡ 0 }
{
    let (_net, refusals) = build(
        alloc,
        &said.project,
        &said.sizes,
        &said.friction,
        &said.fittings,
        &said.fans,
        rules,
    )?;
    spelled(alloc, refusals.as_slice())
}

fn spelled(alloc: Global, refusals: &[RuleCount]) -> Result<String, Fail> {
    let mut text = String::new(alloc);
    for refused in refusals {
        let space = if text.is_empty() { "" } else { " " };
        write!(text, "{space}{}", refused.count)?;
    }
    Ok(text)
}

/// The rules, of which none has refused anything.
fn rules_of(alloc: Global, words: &str) -> Result<Vec<Listed>, Fail>
    ensures few { IfOk result (λ rules. length rules.items ≤ MAX_RULES) }
    ensures fresh { IfOk result (λ rules. (i : ℕ) → slice_index (map (λ rule. rule.refused) rules.items) i ≡ 0) }
{
    let mut rules = Vec::new(alloc);
    'rules: for word in words.split(", ") {
        if rules.len() == MAX_RULES {
            return Err(Fail::from("too many rules"));
        }
        rules.push(rule_of(word)?)?;
    }
    Ok(rules)
}

/// The rule that allows all pairs or none, only one of them or all but one.
fn rule_of(word: &str) -> Result<Listed, Fail>
    ensures { IfOk result (λ rule. rule.refused ≡ 0) }
{
    let (kind, pair) = word.split_once(' ').unwrap_or((word, "12"));
    let others = kind == "all" || kind == "but";
    let mut allowed = [others; 12];
    if let Some(one) = allowed.get_mut(pair.parse::<usize>()?) {
        *one = !others;
    }
    Ok(Listed {
        allowed,
        refused: 0,
    })
}
