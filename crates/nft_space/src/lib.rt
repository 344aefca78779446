//! A table of nftables that can be loaded, and its verdict on packets and on boxes of packets.
#![tactic(auto)]

mod check;
mod interval;
mod loadable_table;
mod rule;
mod walk;

pub use check::{is_chain_name, is_rule};
pub use loadable_table::LoadableTable;
