//! The decision of a policy on the packets of a box.
#![tactic(auto)]

mod policy_box;

pub use policy_box::{answers_are_of_within_flow, flow_within, is_of_within, is_of_within_flow};
