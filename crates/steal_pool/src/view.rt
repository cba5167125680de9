//! What a hand knows of a deque.
use std::collections::LinkedList;

/// What a hand's pass for one deque knows. No value of it is made: it stands in proofs alone.
pub struct DequeView {
    /// How many of the parts of the right to know the whole deque it has.
    pub parts: u64,
    /// What the hand took from the deque, in order.
    pub got: LinkedList<u32>,
    /// What was pushed, in order. The owner's view alone has it.
    pub pushed: LinkedList<u32>,
}
