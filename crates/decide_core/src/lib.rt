//! Deciding rules: the rules that let new packets pass, for each pair of owners, and the rules that decide no
//! packet.
#![tactic(auto)]

mod between;
mod classifier;
mod dead;
mod deciders;
mod deciding;
mod flows;
mod marked;
mod pair_sets;
mod rule_marks;
mod ruleset_walk;
mod service_block;

pub use between::deciders_between;
pub use dead::{dead_entries, dead_places};
pub use deciders::{Deciders, deciders_of};
pub use flows::{FlowRange, PairFlows, flows_by_pairs};
pub use service_block::service_boxes;
