//! Explains why a flow or its answers are denied: every invariant that fails with it, and a minimal failing
//! set of each (a minimal unsatisfiable core).
//!
//! The crate is generic over lawful invariants (`Stepwise`), and independent of the templates.
#![tactic(auto)]

mod denial;
mod direction;
mod failing;
mod finding;
mod findings;
mod minimal;
mod reason;
mod reasons;
mod strict;
mod transitions;

pub use denial::{invariants_denying, invariants_denying_answers};
pub use failing::failing_with;
pub use finding::Finding;
pub use findings::{answer_denials, denials};
pub use minimal::minimal_failing_set;
pub use reason::Reason;
pub use reasons::{why_answers_denied, why_denied};
pub use strict::Strict;
