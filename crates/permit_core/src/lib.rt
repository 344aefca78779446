//! The permitted policy and its explanation: the first subset of the requested flows on which every
//! invariant holds, the flows that violate one invariant, and the invariant that denies a flow. The
//! crate is generic over lawful invariants and knows no template.
#![tactic(auto)]

mod choice;
mod chosen;
mod condition;
mod denial;
mod denial_by_steps;
mod growth;
mod offence;
mod offence_by_steps;
mod pass;
mod policy;
mod policy_by_steps;
mod steps;
mod trials;
mod tried;

pub use choice::{Choice, Every};
pub use chosen::{step_chosen, trials_together};
pub use condition::Condition;
pub use denial::blame;
pub use denial_by_steps::blame_by_steps;
pub use growth::{chosen_still_hold, still_holds};
pub use offence::offending;
pub use offence_by_steps::offending_by_steps;
pub use pass::first_subset;
pub use policy::permit;
pub use policy_by_steps::permit_by_steps;
pub use steps::{SteppedCondition, first_subset_by_steps};
pub use trials::trials_of;
pub use tried::TriedInvariant;
