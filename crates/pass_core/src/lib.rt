//! The services that pass between two sets of addresses, or for each pair of owners, as exact and complete
//! ranges. A packet passes if a question holds for it: for instance, whether rules accept it. Also the dead
//! rules of a rule set, which no packet that enters FORWARD meets.
#![tactic(auto)]

mod area;
mod asked_area;
mod dead;
mod met_rules;
mod met_sets;
mod new_services;
mod pair_services;
mod pair_survey;
mod pairs;
mod passes_new;
mod passing;
mod passing_range;
mod sample_packets;
mod service;
mod survey;

pub use dead::dead_rules;
pub use new_services::{passing_between, passing_by_pairs};
pub use pairs::{PairServices, hull, services_by_pairs};
pub use passes_new::PassesNew;
pub use passing::services_between;
pub use passing_range::PassingRange;
