//! What a table of nftables lets pass between the hosts of a network, which rules and elements of its verdict maps let it
//! pass, and which are dead. The questions are asked of the chains of iptables with the verdicts of the table; their
//! answers are given by the places of the table.
#![tactic(auto)]

mod dead;
mod flows;
mod place;
mod search;
mod selected;
mod span;

pub use dead::dead_of_table;
pub use flows::{PairTableFlows, TableFlowRange, flows_of_table};
pub use place::TablePlace;
