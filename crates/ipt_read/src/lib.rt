//! A parser for rulesets in iptables-save format.
#![tactic(auto)]

mod fault;
mod option;
mod reader;
mod rule_line;
mod service;
mod stage;
mod table;
mod whole;

pub use fault::{IptFault, IptWhy};
pub use reader::BYTE_LIMIT;
pub use whole::read;
