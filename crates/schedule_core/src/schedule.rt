//! The core, and what an event changes in it.
ghost use Rattle.std.specs.Prelude.{◌≡◌, ◌<◌, length, None, Some, IfSome, IfOk, IfErr, OnOk, IsTrue, slice_index};
ghost use Rattle.duct_definitions.specs.Tree.{section_count};
ghost use Rattle.schedule_core.specs.declared.events.Event.TheVariants.{Claim, Finish};
ghost use Rattle.schedule_core.specs.Schedule.{at_start, is_claimed, accepts, added, after_event};
ghost use Rattle.schedule_core.specs.Answers.{refusal, next_of};
ghost use Rattle.schedule_core.specs.CoreFields.{IsCoreOf, AreNumbers, number_of, one_less, next_at};

use crate::events::{Event, Refused};
use air_tree::AirTree;
use duct_units::NoMemory;
use std::alloc::Global;
use std::marker::Model;

/// Which leaves of a tree are claimed, and which of its sections are done.
#[derive(Debug, Drop)]
pub struct Core {
    /// Of a leaf 1, and 0 once it is claimed; of another section the number of its children that aren't done.
    numbers: Vec<u32>,
    /// Of each section whether it is done.
    marks: Vec<bool>,
    claimed: Vec<u32>,
    done: Vec<u32>,
}

impl Model for Core {
    ghost use Rattle.schedule_core.specs.CoreData.{CoreData};

    ghost Value = { CoreData };

    ghost use Rattle.schedule_core.specs.CoreInside.{data_of, HasRoom};

    ghost view = { data_of };

    ghost invariant = { HasRoom };
}

impl Core {
    /// Nothing is claimed, and nothing is done. All memory that the steps need is taken here.
    pub fn new(alloc: Global, tree: &AirTree) -> Result<Core, NoMemory>
        ensures own { IfOk result (IsCoreOf tree.now) }
        ensures state { IfOk result (λ core. core.state ≡ at_start) }
    {
        let count = tree.len() as usize;
        Ok(Core {
            numbers: first_numbers(alloc, tree)?,
            marks: vec![in alloc; false; count]?,
            claimed: Vec::with_capacity(alloc, count)?,
            done: Vec::with_capacity(alloc, count)?,
        })
    }

    /// Lets the event happen in the tree that the core was made for, and answers the section that is claimed by it, if
    /// one is. It takes no memory, and as long in a large tree as in a small one.
    pub fn step(&mut self, tree: &AirTree, event: Event) -> Result<Option<u32>, Refused>
        requires own { IsCoreOf tree.now self.old }

        ensures own { IsCoreOf tree.now self.new }
        ensures state { self.new.state ≡ after_event tree.now self.old.state event }
        ensures next { IfOk result (λ next. next ≡ next_of tree.now self.new.state event) }
        ensures ok { OnOk result (refusal tree.now self.old.state event ≡ None) }
        ensures refused { IfErr result (λ why. refusal tree.now self.old.state event ≡ Some why) }
    {
        match event {
            Event::Claim(leaf) => self.claim(tree, leaf),
            Event::Finish(s) => self.finish(tree, s),
        }
    }

    /// The sections that are done, in the order in which they were finished.
    pub fn done(&self) -> &[u32]
        ensures { result.now ≡ self.now.state.done }
    {
        self.done.as_slice()
    }

    fn claim(&mut self, tree: &AirTree, leaf: u32) -> Result<Option<u32>, Refused>
        requires own { IsCoreOf tree.now self.old }

        ensures own { IsCoreOf tree.now self.new }
        ensures state { self.new.state ≡ after_event tree.now self.old.state (Claim leaf) }
        ensures next { IfOk result (λ next. next ≡ Some leaf) }
        ensures ok { OnOk result (refusal tree.now self.old.state (Claim leaf) ≡ None) }
        ensures refused { IfErr result (λ why. refusal tree.now self.old.state (Claim leaf) ≡ Some why) }
    {
        if let Some(why) = self.claim_refusal(tree, leaf) {
            return Err(why);
        }
        self.add_claim(tree, leaf);
        Ok(Some(leaf))
    }

    fn claim_refusal(&self, tree: &AirTree, leaf: u32) -> Option<Refused>
        requires own { IsCoreOf tree.now self.now }
        ensures { result ≡ refusal tree.now self.now.state (Claim leaf) }
    {
        if leaf >= tree.len() {
            Some(Refused::Outside)
        } else if !tree.is_leaf(leaf) {
            Some(Refused::NotLeaf)
        } else if self.is_claimed(tree, leaf) {
            Some(Refused::Claimed)
        } else {
            None
        }
    }

    fn is_claimed(&self, tree: &AirTree, s: u32) -> bool
        requires own { IsCoreOf tree.now self.now }
        ensures { result ≡ is_claimed tree.now self.now.state s }
    {
        s < tree.len() && self.numbers[s as usize] == 0
    }

    fn add_claim(&mut self, tree: &AirTree, leaf: u32)
        requires own { IsCoreOf tree.now self.old }
        requires accepted { IsTrue (accepts tree.now self.old.state (Claim leaf)) }
        ensures own { IsCoreOf tree.now self.new }
        ensures state { self.new.state ≡ added self.old.state (Claim leaf) }
    {
        self.numbers[leaf as usize] = 0;
        self.claimed.push_reserved(leaf);
    }

    fn finish(&mut self, tree: &AirTree, s: u32) -> Result<Option<u32>, Refused>
        requires own { IsCoreOf tree.now self.old }

        ensures own { IsCoreOf tree.now self.new }
        ensures state { self.new.state ≡ after_event tree.now self.old.state (Finish s) }
        ensures next { IfOk result (λ next. next ≡ next_of tree.now self.new.state (Finish s)) }
        ensures ok { OnOk result (refusal tree.now self.old.state (Finish s) ≡ None) }
        ensures refused { IfErr result (λ why. refusal tree.now self.old.state (Finish s) ≡ Some why) }
    {
        if let Some(why) = self.finish_refusal(tree, s) {
            return Err(why);
        }
        Ok(self.add_finish(tree, s))
    }

    fn finish_refusal(&self, tree: &AirTree, s: u32) -> Option<Refused>
        requires own { IsCoreOf tree.now self.now }
        ensures { result ≡ refusal tree.now self.now.state (Finish s) }
    {
        if s >= tree.len() {
            Some(Refused::Outside)
        } else if !self.is_claimed(tree, s) {
            Some(Refused::NotClaimed)
        } else if self.marks[s as usize] {
            Some(Refused::Done)
        } else {
            None
        }
    }

    fn add_finish(&mut self, tree: &AirTree, s: u32) -> Option<u32>
        requires own { IsCoreOf tree.now self.old }
        requires accepted { IsTrue (accepts tree.now self.old.state (Finish s)) }
        ensures own { IsCoreOf tree.now self.new }
        ensures state { self.new.state ≡ added self.old.state (Finish s) }
        ensures next { result ≡ next_of tree.now self.new.state (Finish s) }
    {
        self.marks[s as usize] = true;
        self.done.push_reserved(s);
        count_down(&mut self.numbers, tree.neighbour(s))
    }
}

/// Takes 1 from the number of the neighbour, and answers the neighbour where nothing is left.
fn count_down(numbers: &mut [u32], neighbour: Option<u32>) -> Option<u32>
    requires { IfSome neighbour (λ n. (n < length numbers.old) × (0 < slice_index numbers.old n)) }
    ensures numbers { numbers.new ≡ one_less neighbour numbers.old }
    ensures next { result ≡ next_at numbers.new neighbour }
{
    let n = neighbour?;
    numbers[n as usize] -= 1;
    if numbers[n as usize] == 0 {
        Some(n)
    } else {
        None
    }
}

/// The number of each section before the first event.
fn first_numbers(alloc: Global, tree: &AirTree) -> Result<Vec<u32>, NoMemory>
    ensures { IfOk result (λ numbers. AreNumbers tree.now at_start (section_count tree.now) numbers.items) }
{
    let mut numbers = Vec::with_capacity(alloc, tree.len() as usize)?;
    for s in 0..tree.len() {
        numbers.push(first_number(tree, s))?;
    }
    Ok(numbers)
}

#[tactic(auto, using(crate::proofs::Numbers::number_start))]
fn first_number(tree: &AirTree, s: u32) -> u32
    requires { s < section_count tree.now }
    ensures { result ≡ number_of tree.now at_start s }
{
    (tree.children(s).len() as u32).max(1)
}
