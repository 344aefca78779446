//! Security invariants of the flows of a network. An [`Invariant`] is a predicate on sets of flows
//! with its laws; an [`EdgeRule`] is a test of single flows with one law, and [`EdgeWise`] makes an
//! invariant of every lawful rule.
#![tactic(auto)]

mod edge_rule;
mod edge_trial;
mod edge_wise;
mod invariant;
mod stepwise;
mod strategy;

pub use edge_rule::EdgeRule;
pub use edge_trial::EdgeTrial;
pub use edge_wise::EdgeWise;
pub use invariant::Invariant;
pub use stepwise::{Stepwise, Trial};
pub use strategy::Strategy;
