//! What a worker does with a turn: it joins the fronts of the section's children.
ghost use Rattle.std.specs.Prelude.{◌≡◌, ◌<◌, ◌+◌, IfSome, IsTrue, length, slice_index};
ghost use Rattle.duct_definitions.specs.Tree.{section_count, children};
ghost use Rattle.contract_join.specs.Outcomes.{IsOutcomeOf};
ghost use Rattle.tree_contract.specs.Turns.{HasTurn, KeepsTurn};

use child_counter::{Counters, Pass, Turn};
use contract_join::{Join, Outcome, SectionFronts, beyond_one};
use net_model::Network;
use std::alloc::Global;

/// What condensing the turn's section comes to. It finds no memory where a child has no fronts.
pub fn outcome_of<'n>(
    alloc: Global,
    counters: &Counters<'n>,
    net: &'n Network,
    pass: &mut Pass<'n>,
    turn: &mut Turn,
) -> Outcome<'n>
    requires network { counters.now.net ≡ net.now }
    requires turn { HasTurn counters.now turn.old pass.old }
    ensures fits { IsOutcomeOf net.now turn.old result }
    ensures turn { KeepsTurn counters.now turn.old pass.old turn.new pass.new }
{
    let s = turn.section();
    match fronts_of(alloc, counters, net, pass, turn) {
        Some(fronts) => Outcome::Fronts(fronts),
        None => Outcome::NoMemory(s),
    }
}

/// The fronts of the turn's section, if each child has fronts and memory suffices. Where it has one child, nothing is
/// added up.
fn fronts_of<'n>(
    alloc: Global,
    counters: &Counters<'n>,
    net: &'n Network,
    pass: &mut Pass<'n>,
    turn: &mut Turn,
) -> Option<SectionFronts<'n>>
    requires network { counters.now.net ≡ net.now }
    requires turn { HasTurn counters.now turn.old pass.old }
    ensures network { IfSome result (λ fronts. fronts.net ≡ net.now) }
    ensures section { IfSome result (λ fronts. fronts.section ≡ turn.old) }
    ensures turn { KeepsTurn counters.now turn.old pass.old turn.new pass.new }
{
    if net.tree().children(turn.section()).len() == 1 {
        return from_only_child(alloc, counters, net, pass, turn);
    }
    match joined(alloc, counters, net, pass, turn) {
        Some(join) => join.close(alloc).ok(),
        None => None,
    }
}

/// The fronts of the turn's section from those of its only child, if it has any and memory suffices.
fn from_only_child<'n>(
    alloc: Global,
    counters: &Counters<'n>,
    net: &'n Network,
    pass: &mut Pass<'n>,
    turn: &mut Turn,
) -> Option<SectionFronts<'n>>
    requires network { counters.now.net ≡ net.now }
    requires turn { HasTurn counters.now turn.old pass.old }
    requires only { length (children net.now.tree turn.old) ≡ 1 }
    ensures network { IfSome result (λ fronts. fronts.net ≡ net.now) }
    ensures section { IfSome result (λ fronts. fronts.section ≡ turn.old) }
    ensures turn { KeepsTurn counters.now turn.old pass.old turn.new pass.new }
{
    let s = turn.section();
    let child = counters.take_child(pass, turn, 0);
    let fronts = beyond_child(alloc, net, s, &child);
    counters.put_child(pass, turn, child);
    fronts
}

/// The fronts of section `s` from what came of its only child, if that is fronts and memory suffices.
fn beyond_child<'n>(
    alloc: Global,
    net: &'n Network,
    s: u32,
    child: &Outcome<'n>,
) -> Option<SectionFronts<'n>>
    requires section { s < section_count net.now.tree }
    requires only { length (children net.now.tree s) ≡ 1 }
    requires fits { IsOutcomeOf net.now (slice_index (children net.now.tree s) 0) child.now }
    ensures network { IfSome result (λ fronts. fronts.net ≡ net.now) }
    ensures section { IfSome result (λ fronts. fronts.section ≡ s) }
{
    match child {
        Outcome::Fronts(fronts) => beyond_one(alloc, net, s, fronts).ok(),
        Outcome::NoMemory(_) => None,
    }
}

/// The join of all children of the turn's section, if each has fronts and memory suffices.
fn joined<'n>(
    alloc: Global,
    counters: &Counters<'n>,
    net: &'n Network,
    pass: &mut Pass<'n>,
    turn: &mut Turn,
) -> Option<Join<'n>>
    requires network { counters.now.net ≡ net.now }
    requires turn { HasTurn counters.now turn.old pass.old }
    ensures join { IfSome result (λ join. join ≡ record {
      net = net.now;
      section = turn.old;
      added = length (children net.now.tree turn.old);
    }) }
    ensures turn { KeepsTurn counters.now turn.old pass.old turn.new pass.new }
{
    let s = turn.section();
    let Ok(mut join) = Join::start(alloc, net, s) else {
        return None;
    };
    for j in 0..net.tree().children(s).len() as u32 {
        let child = counters.take_child(pass, turn, j);
        let is_added = add_child(alloc, &mut join, &child);
        counters.put_child(pass, turn, child);
        if !is_added {
            return None;
        }
    }
    Some(join)
}

/// Adds the fronts of the next child, if it has fronts and memory suffices.
fn add_child<'n>(alloc: Global, join: &mut Join<'n>, child: &Outcome<'n>) -> bool
    requires place { join.old.added < length (children join.old.net.tree join.old.section) }
    requires fits { IsOutcomeOf join.old.net
        (slice_index (children join.old.net.tree join.old.section) join.old.added) child.now }
    ensures { IsTrue result → join.new ≡ record join.old { added = join.old.added + 1 } }
{
    match child {
        Outcome::Fronts(fronts) => join.add(alloc, fronts).is_ok(),
        Outcome::NoMemory(_) => false,
    }
}
