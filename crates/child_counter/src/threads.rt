//! What may be shared by threads, and what may go from one to another.
use crate::counters::Counters;
use crate::pass::Pass;

/// Counters are shared by threads, and each pass goes to one of them.
pub fn counters_are_shared(counters: &Counters, pass: &Pass) {
    is_shared(counters);
    is_sent(pass);
}

fn is_shared<T: Sync>(_shared: &T) {}

fn is_sent<T: Send>(_sent: &T) {}
