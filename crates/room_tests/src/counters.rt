//! Counters of two passes by turns, and of passes one of which finds no memory for a section.
ghost use Rattle.std.specs.Prelude.{◌≡◌, ◌<◌, ◌+◌, ◌++◌, ◌∷◌, [], ℕ, false, true, None, Some, All, IfOk, IfSome, IsTrue, length, slice_get, slice_index};
ghost use Rattle.duct_definitions.specs.Tree.{section_count, children, is_leaf};
ghost use Rattle.schedule_core.specs.Schedule.{is_in};
ghost use Rattle.contract_join.specs.Outcomes.{IsOutcomeOf};
ghost use Rattle.child_counter.specs.Public.{Belongs, IsNew};
ghost use Rattle.tree_contract.specs.Turns.{HasTurn, KeepsTurn};

use child_counter::{Closed, Counters, Pass, Turn};
use contract_join::Outcome;
use duct_units::List;
use net_model::Network;
use network_file::read_network;
use std::alloc::Global;
use std::marker::Model;
use std::test::Fail;
use tree_contract::outcome_of;

/// Sections 0 to 6: 1 and 2 beyond 0, 3 and 4 beyond 2, and the return sections 5 and 6 at the fan.
const NETWORK: &str = "format = 1
name = 'tree'
fan = [{ name = 'f1', pressure = 130, cost = 10 }]
section = [
  { name = 't', side = 'supply', sizes = ['k'], pairs = [[1, 0, 20, 1]] },
  { name = 't1', side = 'supply', neighbour = 't', sizes = ['k'], pairs = [[1, 1, 10, 1]] },
  { name = 't2', side = 'supply', neighbour = 't', sizes = ['k'], pairs = [[1, 1, 15, 1]] },
  { name = 't3', side = 'supply', neighbour = 't2', sizes = ['k'], pairs = [[1, 1, 40, 1]] },
  { name = 't4', side = 'supply', neighbour = 't2', sizes = ['k'], pairs = [[1, 1, 5, 1]] },
  { name = 'r1', side = 'return', sizes = ['k'], pairs = [[1, 0, 30, 1]] },
  { name = 'r2', side = 'return', sizes = ['k'], pairs = [[1, 0, 10, 1]] },
]
";

/// A step a line: the section of the turn that it gives, or none; a bar; the pass and what it does.
const TURNS: &str = "
3 | a claim 3
none | b claim 3
4 | b claim 4
none | a finish 3
2 | b finish 4
1 | a claim 1
none | b finish 2
0 | a finish 1
5 | b claim 5
none | a finish 0
none | a claim 5
6 | a claim 6
none | b finish 5
none | a finish 6
";

#[test]
fn passes_take_turns_as_the_schedule_says(rt: HostRuntime) -> Result<(), Fail> {
    let found = ending(rt.alloc(), TURNS, None)?;
    assert_eq!(rt;
        found.as_str(),
        "a 3 1 0 6; b 4 2 5; refused; fronts 0 1 2 3 4 5 6"
    );
    Ok(())
}

#[test]
fn a_section_without_memory_stops_those_towards_the_fan(rt: HostRuntime) -> Result<(), Fail> {
    let found = ending(rt.alloc(), TURNS, Some(3))?;
    assert_eq!(rt;
        found.as_str(),
        "a 3 1 0 6; b 4 2 5; refused 0 2 3; fronts 1 4 5 6"
    );
    Ok(())
}

/// A pass, which has no child handed out, and its turn.
#[derive(Drop)]
struct Worker<'n> {
    pass: Pass<'n>,
    turn: Option<Turn>,
}

impl<'n> Model for Worker<'n> {
    ghost use Rattle.std.specs.Prelude.{◌≡◌, ◌<◌, false, IfSome};
    ghost use Rattle.duct_definitions.specs.Tree.{section_count};
    ghost use Rattle.child_counter.specs.Public.{PassData};

    ghost Value = { PassData };

    ghost view = { λ worker. worker.pass };

    ghost invariant = { λ worker. (worker.pass.view.turn ≡ worker.turn)
        × (worker.pass.away ≡ false) × (worker.pass.view.parts ≡ 1)
        × IfSome worker.turn (λ s. s < section_count worker.pass.view.net.tree) };
}

/// The lists of the two passes, the refused sections and those with fronts, after these steps.
fn ending(alloc: Global, steps: &str, refused: Option<u32>) -> Result<String, Fail> {
    let net = read_network(alloc, NETWORK.as_bytes())?;
    played(alloc, &net, steps, refused)
}

fn played(alloc: Global, net: &Network, steps: &str, refused: Option<u32>) -> Result<String, Fail> {
    let (counters, passes) = Counters::start(alloc, net, 2)?;
    let (mut a, mut b) = workers(&counters, passes)?;
    play(alloc, &counters, net, &mut a, &mut b, steps, refused)?;
    note_all(&counters, net, &mut a)?;
    end(alloc, counters, a, b)
}

/// Makes the steps, each of which gives what is wanted.
fn play<'n>(
    alloc: Global,
    counters: &Counters<'n>,
    net: &'n Network,
    a: &mut Worker<'n>,
    b: &mut Worker<'n>,
    steps: &str,
    refused: Option<u32>,
) -> Result<(), Fail>
    requires network { counters.now.net ≡ net.now }
    requires belongs { Belongs counters.now a.old × Belongs counters.now b.old }
    ensures belongs { Belongs counters.now a.new × Belongs counters.now b.new }
{
    for line in steps.lines() {
        play_line(alloc, counters, net, a, b, line, refused)?;
    }
    Ok(())
}

fn play_line<'n>(
    alloc: Global,
    counters: &Counters<'n>,
    net: &'n Network,
    a: &mut Worker<'n>,
    b: &mut Worker<'n>,
    line: &str,
    refused: Option<u32>,
) -> Result<(), Fail>
    requires network { counters.now.net ≡ net.now }
    requires belongs { Belongs counters.now a.old × Belongs counters.now b.old }
    ensures belongs { Belongs counters.now a.new × Belongs counters.now b.new }
{
    let Some((wanted, text)) = line.split_once(" | ") else {
        return Ok(());
    };
    let (name, step) = text.split_once(' ').ok_or("no step")?;
    let found = match name {
        "a" => step_of(alloc, counters, net, a, step, refused)?,
        _ => step_of(alloc, counters, net, b, step, refused)?,
    };
    if found.as_str() == wanted {
        Ok(())
    } else {
        Err(Fail::from(format!(in alloc; "{found} at {line}")?))
    }
}

/// The two passes as workers.
fn workers<'n>(
    counters: &Counters<'n>,
    passes: List<Pass<'n>>,
) -> Result<(Worker<'n>, Worker<'n>), Fail>
    requires { All (IsNew counters.now) passes }
    ensures { IfOk result (λ both. Belongs counters.now both.0 × Belongs counters.now both.1) }
{
    let mut each = passes.into_vec().into_iter();
    let (Some(a), Some(b)) = (each.next(), each.next()) else {
        return Err(Fail::from("no two passes"));
    };
    Ok((idle(counters, a), idle(counters, b)))
}

fn idle<'n>(counters: &Counters<'n>, pass: Pass<'n>) -> Worker<'n>
    requires { IsNew counters.now pass }
    ensures { Belongs counters.now result }
{
    Worker { pass, turn: None }
}

/// What the step gives.
fn step_of<'n>(
    alloc: Global,
    counters: &Counters<'n>,
    net: &'n Network,
    worker: &mut Worker<'n>,
    step: &str,
    refused: Option<u32>,
) -> Result<String, Fail>
    requires network { counters.now.net ≡ net.now }
    requires belongs { Belongs counters.now worker.old }
    ensures belongs { Belongs counters.now worker.new }
{
    let (word, number) = step.split_once(' ').ok_or("no section")?;
    let s = number.parse::<u32>()?;
    match word {
        "claim" => claim(counters, net, worker, s)?,
        _ => finish(alloc, counters, net, worker, s, refused)?,
    }
    turn_told(alloc, worker)
}

fn turn_told(alloc: Global, worker: &Worker) -> Result<String, Fail> {
    match &worker.turn {
        Some(turn) => Ok(format!(in alloc; "{}", turn.section())?),
        None => Ok(format!(in alloc; "none")?),
    }
}

fn claim<'n>(
    counters: &Counters<'n>,
    net: &'n Network,
    worker: &mut Worker<'n>,
    leaf: u32,
) -> Result<(), Fail>
    requires network { counters.now.net ≡ net.now }
    requires belongs { Belongs counters.now worker.old }
    ensures belongs { Belongs counters.now worker.new }
    ensures noted { IfOk result (λ _. worker.new.view.noted ≡ worker.old.view.noted ++ leaf ∷ []) }
{
    if worker.turn.is_some() || leaf >= net.tree().len() || !net.tree().is_leaf(leaf) {
        return Err(Fail::from("no claim of this leaf"));
    }
    worker.turn = counters.claim(&mut worker.pass, leaf);
    Ok(())
}

fn finish<'n>(
    alloc: Global,
    counters: &Counters<'n>,
    net: &'n Network,
    worker: &mut Worker<'n>,
    s: u32,
    refused: Option<u32>,
) -> Result<(), Fail>
    requires network { counters.now.net ≡ net.now }
    requires belongs { Belongs counters.now worker.old }
    ensures belongs { Belongs counters.now worker.new }
{
    let Some(mut turn) = worker.turn.take() else {
        return Err(Fail::from("no turn"));
    };
    if turn.section() != s {
        worker.turn = Some(turn);
        return Err(Fail::from("the turn of another section"));
    }
    let outcome = came_of(alloc, counters, net, &mut worker.pass, &mut turn, refused);
    worker.turn = counters.finish(&mut worker.pass, turn, outcome);
    Ok(())
}

/// What comes of the turn's section, which finds no memory where it is `refused`.
fn came_of<'n>(
    alloc: Global,
    counters: &Counters<'n>,
    net: &'n Network,
    pass: &mut Pass<'n>,
    turn: &mut Turn,
    refused: Option<u32>,
) -> Outcome<'n>
    requires network { counters.now.net ≡ net.now }
    requires turn { HasTurn counters.now turn.old pass.old }
    ensures fits { IsOutcomeOf net.now turn.old result }
    ensures turn { KeepsTurn counters.now turn.old pass.old turn.new pass.new }
{
    if refused == Some(turn.section()) {
        return Outcome::NoMemory(turn.section());
    }
    outcome_of(alloc, counters, net, pass, turn)
}

/// Claims every leaf, each of which is claimed already.
fn note_all<'n>(
    counters: &Counters<'n>,
    net: &'n Network,
    worker: &mut Worker<'n>,
) -> Result<(), Fail>
    requires network { counters.now.net ≡ net.now }
    requires belongs { Belongs counters.now worker.old }
    ensures belongs { Belongs counters.now worker.new }
    ensures noted { IfOk result (λ _. (s : ℕ) → IsTrue (is_leaf net.now.tree s) → IsTrue (is_in worker.new.view.noted s)) }
{
    for s in 0..net.tree().len() {
        note(counters, net, worker, s)?;
    }
    Ok(())
}

/// Claims a leaf that is claimed already.
fn note<'n>(
    counters: &Counters<'n>,
    net: &'n Network,
    worker: &mut Worker<'n>,
    s: u32,
) -> Result<(), Fail>
    requires network { counters.now.net ≡ net.now }
    requires belongs { Belongs counters.now worker.old }
    requires section { s < section_count net.now.tree }
    ensures belongs { Belongs counters.now worker.new }
    ensures noted { IfOk result (λ _. IsTrue (is_leaf net.now.tree s) → IsTrue (is_in worker.new.view.noted s)) }
    ensures kept { IfOk result (λ _. (x : ℕ) → IsTrue (is_in worker.old.view.noted x) → IsTrue (is_in worker.new.view.noted x)) }
{
    if !net.tree().is_leaf(s) {
        return Ok(());
    }
    claim(counters, net, worker, s)
}

/// What the counters come to.
fn end<'n>(
    alloc: Global,
    counters: Counters<'n>,
    a: Worker<'n>,
    b: Worker<'n>,
) -> Result<String, Fail>
    requires passes { counters.passes ≡ 2 }
    requires belongs { Belongs counters a × Belongs counters b }
    requires noted { (s : ℕ) → IsTrue (is_leaf counters.net.tree s) → IsTrue (is_in a.view.noted s) }
{
    if a.turn.is_some() || b.turn.is_some() {
        return Err(Fail::from("a turn is left"));
    }
    let Worker {
        pass: first,
        turn: _,
    } = a;
    let Worker {
        pass: second,
        turn: _,
    } = b;
    let passes = vec![in alloc; first, second]?;
    let closed = counters.close(alloc, List::from_vec(passes))?;
    told(alloc, &closed)
}

fn told(alloc: Global, closed: &Closed) -> Result<String, Fail>
    requires { 1 < length closed.now.finished }
{
    let mut text = format!(in alloc; "a")?;
    push_numbers(&mut text, closed.finished(0))?;
    text.push_str("; b")?;
    push_numbers(&mut text, closed.finished(1))?;
    text.push_str("; refused")?;
    push_numbers(&mut text, closed.refused())?;
    text.push_str("; fronts")?;
    for fronts in closed.fronts() {
        write!(text, " {}", fronts.section())?;
    }
    Ok(text)
}

fn push_numbers(text: &mut String, numbers: &[u32]) -> Result<(), Fail> {
    for number in numbers {
        write!(text, " {number}")?;
    }
    Ok(())
}
