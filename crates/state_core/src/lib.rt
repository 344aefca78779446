//! Flows whose answers may pass. A packet filter with connection tracking lets the answers of a
//! stateful flow pass. This crate finds the flows whose answers no invariant forbids.
#![tactic(auto)]

mod answers;
mod refinement;
mod refinement_by_steps;

pub use answers::with_answers;
pub use refinement::{is_strict, refine};
pub use refinement_by_steps::refine_by_steps;
