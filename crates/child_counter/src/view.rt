//! What a pass knows, and what is counted.
use contract_join::Outcome;
use net_model::Network;
use std::collections::LinkedList;
use std::marker::Model;

/// What a pass knows. No value of it is made: it stands in proofs alone.
pub struct PassView<'n> {
    /// The network whose sections are counted.
    pub net: Network,
    /// What came of the sections that it finished, in the order of the finishes.
    pub own: LinkedList<Outcome<'n>>,
    /// The lists of the passes that it took in.
    pub joined: LinkedList<LinkedList<Outcome<'n>>>,
    /// The section that it may condense.
    pub turn: Option<u32>,
    /// The leaves that it found claimed, whoever claimed them.
    pub noted: LinkedList<u32>,
    /// How many of the passes that there were at the start it stands for.
    pub parts: u64,
    /// The child whose slot is out with it.
    pub out: Option<Outcome<'n>>,
}

/// The network whose sections are counted, and the number of passes.
#[derive(Drop)]
pub struct Job<'n> {
    pub net: &'n Network,
    pub passes: u32,
}

impl<'n> Model for Job<'n> {
    ghost use Rattle.child_counter.specs.Shown.{Plan};

    ghost Value = { Plan };

    ghost view = { λ job. record { net = job.net.now; passes = job.passes } };
}
