//! Designs by rules of the test's own.
ghost use Rattle.std.specs.Prelude.{◌≡◌, ◌≤◌, ℕ, [], IfOk, IsTrue, length, map, slice_index};
ghost use Rattle.duct_units.specs.Name.{is_name};

use crate::program::add_rule;
use crate::run::run;
use design_rules::{
    HeightRule, MAX_RULES, PairFacts, PresetRule, SizeRule, TaperRule, VelocityRule,
};
use duct_ports::{HeldFile, MemoryFiles, MemorySink, OpenGate};
use duct_units::{List, Name};
use std::alloc::Global;
use std::test::Fail;
use std::thread::Threads;

/// A project whose air is faster than 7 m/s in five of nine pairs with friction: `main` in R2, and `left` and `right`
/// in R1 beside both sizes of `main`.
const PROJECT: &str = r#"format = 1
name = "small"
density = 1200
energy = { hours = 3000, tariff = 1500, worth = 5000 }
rules = { velocity = 10000 }
section = [
{ name = "main", side = "supply", length = 10000, list = "round", local = 100 },
{ name = "left", side = "supply", neighbour = "main", length = 5000, list = "round", junction = "tee", device = 150, flow = 150 },
{ name = "right", side = "supply", neighbour = "main", length = 20000, list = "round", junction = "tee", device = 150, flow = 250 },
]
"#;

const SIZES: &str = "list,size,area,height,metre,join,step
round,R1,20000,160,2000,500,300
round,R2,50000,250,3000,800,400
";

const FRICTION: &str = "size,flow,rate
R1,100,500
R1,300,2500
R2,100,100
R2,500,900
";

const FITTINGS: &str = "table,area,flow,value
tee,400,250,900
tee,400,750,700
tee,1000,250,500
tee,1000,750,300
";

const FANS: &str = "fan,pressure,low,high,price,watts
F1,400,100,600,20000,100
F2,900,100,600,30000,150
";

/// The least-cost design by the velocity rule, where a bar stands for a line feed.
const DESIGN: &str = "0 design 1|project small|fan F1 400 42500|supply 392 400|return 0 0|\
    section main R2 109 30800 8|section left R2 185 15800 98|section right R2 283 60800 0|cost 149900|end|";

/// A rule that leaves each of three sections one size or none.
#[derive(Drop)]
struct OneSize {
    name: Name,
    /// The place of each section's size in its list, from 0; None where the section has none.
    sizes: [Option<u32>; 3],
    refused: u64,
}

impl OneSize {
    fn new(name: &[u8], sizes: [Option<u32>; 3]) -> OneSize
        requires { IsTrue (is_name name.now) }
        ensures { result.refused ≡ 0 }
    {
        OneSize {
            name: Name::new(name).unwrap(),
            sizes,
            refused: 0,
        }
    }
}

impl SizeRule for OneSize {
    ghost use Rattle.std.specs.Prelude.{◌==◌, None, false, slice_index_or};
    ghost use Rattle.std.specs.Option.{option_map_or};

    ghost allows = { λ rule facts. option_map_or (λ k. k == facts.size) (slice_index_or rule.sizes facts.section None) false };

    ghost count = { λ rule. rule.refused };

    ghost label = { λ rule. rule.name };

    fn name(&self) -> Name {
        self.name
    }

    fn permits(&mut self, facts: &PairFacts) -> bool {
        let allowed = match self.sizes.get(facts.section as usize) {
            Some(Some(size)) => *size == facts.size,
            _ => false,
        };
        if !allowed {
            self.refused += 1;
        }
        allowed
    }

    fn refused(&self) -> u64 {
        self.refused
    }
}

#[test]
fn a_rule_that_comes_last_counts_what_no_other_refused(rt: HostRuntime) -> Result<(), Fail> {
    let alloc = rt.alloc();
    let mut rules: Vec<Box<dyn SizeRule>> = Vec::new(alloc);
    add_rule(&mut rules, Box::new(alloc, PresetRule::new())?)?;
    add_rule(&mut rules, Box::new(alloc, VelocityRule::new())?)?;
    add_rule(&mut rules, Box::new(alloc, HeightRule::new())?)?;
    add_rule(&mut rules, Box::new(alloc, TaperRule::new())?)?;
    add_rule(
        &mut rules,
        Box::new(alloc, OneSize::new(b"all", [None; 3]))?,
    )?;
    let found = designed(&rt, "velocity = 7000", rules)?;
    let counts =
        "refused preset 0|refused velocity 5|refused height 0|refused taper 0|refused all 4|";
    assert_eq!(rt; found.as_str(), none_with(alloc, counts)?.as_str());
    Ok(())
}

#[test]
fn a_rule_that_comes_first_refuses_before_all_others(rt: HostRuntime) -> Result<(), Fail> {
    let alloc = rt.alloc();
    let mut rules: Vec<Box<dyn SizeRule>> = Vec::new(alloc);
    add_rule(
        &mut rules,
        Box::new(alloc, OneSize::new(b"all", [None; 3]))?,
    )?;
    add_rule(&mut rules, Box::new(alloc, PresetRule::new())?)?;
    add_rule(&mut rules, Box::new(alloc, VelocityRule::new())?)?;
    add_rule(&mut rules, Box::new(alloc, HeightRule::new())?)?;
    add_rule(&mut rules, Box::new(alloc, TaperRule::new())?)?;
    let found = designed(&rt, "velocity = 7000", rules)?;
    let counts =
        "refused all 9|refused preset 0|refused velocity 0|refused height 0|refused taper 0|";
    assert_eq!(rt; found.as_str(), none_with(alloc, counts)?.as_str());
    Ok(())
}

#[test]
fn a_rule_alone_decides_the_design(rt: HostRuntime) -> Result<(), Fail> {
    let alloc = rt.alloc();
    let all = designed(&rt, "", vec![in alloc; OneSize::new(b"all", [None; 3])]?)?;
    assert_eq!(rt; all.as_str(), none_with(alloc, "refused all 9|")?.as_str());
    let only = designed(
        &rt,
        "",
        vec![in alloc; OneSize::new(b"only", [Some(1), None, None])]?,
    )?;
    assert_eq!(rt;
        only.as_str(),
        none_with(alloc, "refused only 8|")?.as_str()
    );
    let three = designed(
        &rt,
        "",
        vec![in alloc; OneSize::new(b"three", [Some(1), Some(0), Some(1)])]?,
    )?;
    let wanted = "0 design 1|project small|fan F2 900 63750|supply 596 900|return 0 0|\
        section main R2 109 30800 304|section left R1 487 10800 0|section right R2 283 60800 204|cost 166150|end|";
    assert_eq!(rt; three.as_str(), wanted);
    Ok(())
}

/// The calls 1 to 15 start five files, read the bytes of each and find its end.
#[test]
fn a_design_needs_each_of_its_reads(rt: HostRuntime) -> Result<(), Fail> {
    let alloc = rt.alloc();
    for call in 1..17 {
        let rules = vec![in alloc; VelocityRule::new()]?;
        let found = designed_where(&rt, "velocity = 10000", call, rules)?;
        let wanted = if call < 16 { "4 fault read|" } else { DESIGN };
        assert_eq!(rt; found.as_str(), wanted, "at {call}");
    }
    Ok(())
}

/// The status and the text of `design` on the project by the rules, where `limit` stands in place of its velocity
/// limit.
fn designed<T: Threads + Sync + AllocGlobal, R: SizeRule>(
    rt: &T,
    limit: &str,
    rules: Vec<R>,
) -> Result<String, Fail>
    requires few { length rules.items ≤ MAX_RULES }
    requires fresh { (i : ℕ) → slice_index (map R.count rules.items) i ≡ 0 }
{
    designed_where(rt, limit, 0, rules)
}

/// The same where this call of the files fails; 0 is none.
fn designed_where<T: Threads + Sync + AllocGlobal, R: SizeRule>(
    rt: &T,
    limit: &str,
    call: u32,
    rules: Vec<R>,
) -> Result<String, Fail>
    requires few { length rules.items ≤ MAX_RULES }
    requires fresh { (i : ℕ) → slice_index (map R.count rules.items) i ≡ 0 }
{
    let alloc = rt.alloc();
    let words = words_of(alloc)?;
    let mut files = files_of(alloc, limit, call)?;
    let mut out = MemorySink::new(alloc, 1000, 1000, List::from_vec(Vec::new(alloc)))?;
    let status = run(
        rt,
        alloc,
        words.as_slice(),
        &mut files,
        &mut out,
        rules,
        &OpenGate,
    );
    let text = str::from_utf8(out.bytes())?.replace(alloc, "\n", "|")?;
    Ok(format!(in alloc; "{status} {text}")?)
}

/// What is written where no design meets the rules, with these lines of counts.
fn none_with(alloc: Global, counts: &str) -> Result<String, Fail> {
    Ok(format!(in alloc; "3 design 1|project small|none|{counts}end|")?)
}

fn words_of(alloc: Global) -> Result<Vec<String>, Fail> {
    let mut words = Vec::new(alloc);
    for word in ["design", "project", "sizes", "friction", "fittings", "fans"] {
        words.push(String::from_str(alloc, word)?)?;
    }
    Ok(words)
}

fn files_of<'w>(alloc: Global, limit: &str, call: u32) -> Result<MemoryFiles<'w>, Fail>
    ensures { IfOk result (λ files. files.asked ≡ []) }
{
    let project = PROJECT.replace(alloc, "velocity = 10000", limit)?;
    let mut files = Vec::new(alloc);
    files.push(held(alloc, "project", project.as_str())?)?;
    files.push(held(alloc, "sizes", SIZES)?)?;
    files.push(held(alloc, "friction", FRICTION)?)?;
    files.push(held(alloc, "fittings", FITTINGS)?)?;
    files.push(held(alloc, "fans", FANS)?)?;
    let fails = List::from_vec(vec![in alloc; call]?);
    Ok(MemoryFiles::new(List::from_vec(files), fails))
}

fn held(alloc: Global, name: &str, text: &str) -> Result<HeldFile, Fail> {
    Ok(HeldFile {
        name: List::from_vec(name.as_bytes().to_vec(alloc)?),
        bytes: List::from_vec(text.as_bytes().to_vec(alloc)?),
    })
}
