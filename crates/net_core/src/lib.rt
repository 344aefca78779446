//! A network, independent of the file that describes it, and its policy: the flows that its
//! invariants permit, and the permitted flows whose answers may pass.
#![tactic(auto)]

mod counts;
mod description;
mod evaluation;
mod failing;
mod network_with_policy;
mod one_flow;
mod policy;
mod steps;

pub use description::Description;
pub use network_with_policy::NetworkWithPolicy;
pub use policy::{Policy, policy_of};
