//! What the sections of a tree carry.
ghost use Rattle.std.specs.Prelude.{◌≤◌, All, IfOk, IfSome, length};
ghost use Rattle.duct_definitions.specs.declared.airflow.TheConstants.{MAX_FLOW, MAX_LEAK};

use crate::trees::tree_of;
use air_tree::Flows;
use duct_definitions::{MAX_FLOW, MAX_LEAK};
use duct_units::List;
use duct_units::Side::{Return, Supply};
use std::alloc::Global;
use std::test::Fail;

/// A case a line: what each section carries, l/s, then each side and a fan for both, or the refusal; a bar; the
/// sections, as `trees` spells them; a bar; the airflow of each leaf, `-` for a section without one; a bar; the leaks,
/// thousandths. A line without bars says what the cases below it show.
const CASES: &str = "
A section carries what its leaves do, and a fan for both sides the greater of the two.
400 150 250, supply 400, return 0, fan 400 | s s:0 s:0 | - 150 250 | 0 0 0
7, supply 7, return 0, fan 7 | s | 7 | 0
100 300, supply 100, return 300, fan 300 | s r | 100 300 | 0 0
300 100, supply 300, return 100, fan 300 | s r | 300 100 | 0 0
6 1 5 2 3 4, supply 10, return 0, fan 10 | s s:0 s:0 s:2 s:2 s | - 1 - 2 3 4 | 0 0 0 0 0 0

Of 150 a leak of 50 thousandths is 7.5, so 158 pass; of 158 and 250 one of 20 is 8.16, so 417 pass.
417 158 250, supply 417, return 0, fan 417 | s s:0 s:0 | - 150 250 | 20 50 0
2, supply 2, return 0, fan 2 | s | 1 | 1
240, supply 240, return 0, fan 240 | s | 200 | 200
2 3, supply 2, return 3, fan 3 | s r | 2 2 | 0 200

A leaf has an airflow, and no other section has one. The first section that is wrong is named.
refused at Section 2: FlowMissing | s s:0 s:0 | - - 250 | 0 0 0
refused at Section 3: FlowMissing | s s:0 s:0 | - 150 - | 0 0 0
refused at Section 1: FlowGiven | s s:0 s:0 | 400 150 250 | 0 0 0
refused at Section 1: FlowGiven | s s:0 s:0 | 1 - - | 0 0 0
refused at Section 3: FlowMissing | s s s:1 | 1 - - | 0 0 0

At most 200,000 l/s pass a section. The smallest number is named, though the airflows come from the leaves.
200000 100000 100000, supply 200000, return 0, fan 200000 | s s:0 s:0 | - 100000 100000 | 0 0 0
refused at Section 1: FlowTooLarge | s s:0 s:0 | - 150000 100000 | 0 0 0
refused at Section 1: FlowTooLarge | s | 200000 | 1
refused at Section 2: FlowTooLarge | s s s:1 | 10 - 200000 | 0 0 1
refused at Section 3: FlowTooLarge | s s r | 1 1 200000 | 0 0 1
refused at Section 3: FlowMissing | s s:0 s:0 | - 200000 - | 0 1 0

Neither a side nor a fan has a greatest airflow.
150000 150000, supply 300000, return 0, fan 300000 | s s | 150000 150000 | 0 0
";

#[test]
fn a_section_carries_its_leaves_and_leaks(rt: HostRuntime) -> Result<(), Fail> {
    for line in CASES.lines() {
        if let Some((wanted, case)) = line.split_once(" | ") {
            let found = outcome(rt.alloc(), case)?;
            assert_eq!(rt; found.as_str(), wanted, "at {line}");
        }
    }
    Ok(())
}

/// What the sections of a case carry, or the refusal.
fn outcome(alloc: Global, case: &str) -> Result<String, Fail> {
    let (sections, case) = case.split_once(" | ").ok_or("no airflows")?;
    let (flows, leaks) = case.split_once(" | ").ok_or("no leaks")?;
    let tree = tree_of(alloc, sections)?;
    let leaf_flows = leaf_flows(alloc, flows)?;
    let leaks = leaks_of(alloc, leaks)?;
    let sections = tree.len() as usize;
    if leaf_flows.as_slice().len() != sections || leaks.as_slice().len() != sections {
        return Err(Fail::from("an airflow or a leak too few"));
    }
    match Flows::new(alloc, &tree, &leaf_flows, &leaks) {
        Ok(flows) => told(alloc, tree.len(), &flows),
        Err(error) => Ok(format!(in alloc; "{error}")?),
    }
}

/// The airflow of each leaf, `-` where there is none.
fn leaf_flows(alloc: Global, text: &str) -> Result<List<Option<u64>>, Fail>
    ensures { IfOk result (All (λ given. IfSome given (λ q. q ≤ MAX_FLOW))) }
{
    let mut flows = Vec::new(alloc);
    for word in text.split_whitespace() {
        flows.push(leaf_flow(word)?)?;
    }
    Ok(List::from_vec(flows))
}

/// The airflow of a leaf, none for `-`.
fn leaf_flow(word: &str) -> Result<Option<u64>, Fail>
    ensures { IfOk result (λ given. IfSome given (λ q. q ≤ MAX_FLOW)) }
{
    match word {
        "-" => Ok(None),
        _ => Ok(Some(word.parse::<u64>()?.min(MAX_FLOW))),
    }
}

/// The leak of each section.
fn leaks_of(alloc: Global, text: &str) -> Result<List<u64>, Fail>
    ensures { IfOk result (All (λ leak. leak ≤ MAX_LEAK)) }
{
    let mut leaks = Vec::new(alloc);
    for word in text.split_whitespace() {
        leaks.push(word.parse::<u64>()?.min(MAX_LEAK))?;
    }
    Ok(List::from_vec(leaks))
}

/// What each section carries, each side, and a fan for both.
fn told(alloc: Global, sections: u32, flows: &Flows) -> Result<String, Fail>
    requires { sections ≤ length flows.now.sections }
{
    let mut text = String::new(alloc);
    for s in 0..sections {
        write!(text, "{} ", flows.flow(s))?;
    }
    let supply = flows.side_flow(Supply);
    let back = flows.side_flow(Return);
    let text = text.trim();
    Ok(format!(in alloc;
        "{text}, supply {supply}, return {back}, fan {}",
        flows.fan_flow()
    )?)
}
