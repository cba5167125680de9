//! A design beside a certificate: whether a third party may take the design for the cheapest.
//!
//! A sound certificate bounds the cost of every design from below. A design that meets the rules and costs no more than
//! the certificate's total is therefore the cheapest. Money is in cents; sections count from 0, in file order.
#![tactic(auto)]

mod finding;
mod judging;
pub mod laws;

pub use finding::Finding;
pub use judging::judge;
