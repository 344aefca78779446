//! The description of a network: a TOML document with the hosts, the requested flows and the
//! invariants that have to hold. This crate computes the network that it specifies, or the first
//! condition that refuses it.
#![tactic(auto)]

mod choice;
mod description;
mod document;
mod fault;
mod flows;
mod invariants;
mod known;
mod migration;
mod names;
mod network;
mod own_table;
mod services;
mod templates;

pub use desc_form::{Place, Refusal, Why};
pub use description::{describe, describe_table};
pub use document::read_table;
pub use fault::{BYTE_LIMIT, DescFault};
pub use migration::migrate;
pub use net_core::Description;
