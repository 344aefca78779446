//! The changes from an old policy to a new one: the packets that only one of them permits, or permits answers
//! to, by pair of owners of their addresses. Also, which flows the invariants of a new network no longer deny,
//! and which of its gaps an old network does not have. The order and the names of hosts are irrelevant.
#![tactic(auto)]

mod candidates;
mod change;
mod changes;
mod covering;
mod gained;
mod gaps;
mod kind;
mod named;
mod named_owner;
mod owner_pair;
mod owners;
mod policy_flows;
mod services;
mod sharing;
mod weaker;

pub use change::Change;
pub use changes::changes_between;
pub use gaps::new_gaps;
pub use kind::ChangeKind;
pub use named_owner::NamedOwner;
pub use weaker::{Weaker, weaker_flows};
