//! Which events of an interleaving are refused, and which section an event claims.
ghost use Rattle.schedule_core.specs.CoreFields.{IsCoreOf};

use crate::trees::tree_of;
use air_tree::AirTree;
use duct_units::List;
use schedule_core::{Core, Event, laws};
use std::alloc::Global;
use std::test::Fail;

/// Sections 0 to 6: 1 and 2 beyond 0, 3 and 4 beyond 2, and the return sections 5 and 6 at the fan.
const TREE: &str = "s s:0 s:0 s:2 s:2 r r";

/// An event a line: the section that it claims, none, or its refusal; a bar; the event.
const CASES: &str = "
NotLeaf | claim 0
3 | claim 3
Claimed | claim 3
NotClaimed | finish 4
none | finish 3
Done | finish 3
4 | claim 4
2 | finish 4
none | finish 2
1 | claim 1
0 | finish 1
none | finish 0
Outside | claim 7
";

#[test]
fn a_section_is_claimed_by_its_last_child(rt: HostRuntime) -> Result<(), Fail> {
    let tree = tree_of(rt.alloc(), TREE)?;
    let told = told(rt.alloc(), &tree)?;
    assert_eq!(rt; told.as_str(), CASES);
    Ok(())
}

#[test]
fn refused_events_are_skipped(rt: HostRuntime) -> Result<(), Fail> {
    let tree = tree_of(rt.alloc(), TREE)?;
    let events = events(rt.alloc())?;
    let core = laws::after(rt.alloc(), &tree, &events)?;
    assert_eq!(rt; core.done(), [3, 4, 2, 1, 0].as_slice());
    Ok(())
}

/// The events of all cases.
fn events(alloc: Global) -> Result<List<Event>, Fail> {
    let mut events = Vec::new(alloc);
    for line in CASES.lines() {
        if let Some((_, text)) = line.split_once(" | ") {
            events.push(event_of(text)?)?;
        }
    }
    Ok(List::from_vec(events))
}

fn event_of(text: &str) -> Result<Event, Fail> {
    let (word, number) = text.split_once(' ').ok_or("no number")?;
    let s = number.parse::<u32>()?;
    match word {
        "claim" => Ok(Event::Claim(s)),
        _ => Ok(Event::Finish(s)),
    }
}

/// The cases, each with what its event is answered, where the events of all cases follow each other.
fn told(alloc: Global, tree: &AirTree) -> Result<String, Fail> {
    let mut core = Core::new(alloc, tree)?;
    let mut told = String::from_str(alloc, "\n")?;
    for line in CASES.lines() {
        if let Some((_, text)) = line.split_once(" | ") {
            let answer = answer_of(alloc, tree, &mut core, event_of(text)?)?;
            told.push_str(answer.as_str())?;
            told.push_str(" | ")?;
            told.push_str(text)?;
            told.push_str("\n")?;
        }
    }
    Ok(told)
}

/// What a step answers.
fn answer_of(alloc: Global, tree: &AirTree, core: &mut Core, event: Event) -> Result<String, Fail>
    requires { IsCoreOf tree.now core.old }
    ensures { IsCoreOf tree.now core.new }
{
    match core.step(tree, event) {
        Ok(Some(s)) => Ok(format!(in alloc; "{s}")?),
        Ok(None) => Ok(String::from_str(alloc, "none")?),
        Err(why) => Ok(format!(in alloc; "{why:?}")?),
    }
}
