//! A parser for the texts of nftables that `nft list table` prints: intervals of addresses, and whole
//! tables that can be loaded.
#![tactic(auto)]

mod fault;
mod interval;
mod matches;
mod ranges;
mod reader;
mod rule;
mod verdict;
mod whole;
mod words;

pub use fault::{NftFault, NftWhy};
pub use interval::read_interval;
pub use ranges::table_ranges;
pub use whole::{BYTE_LIMIT, read_table};
