//! The chains of iptables that have the same verdicts as a table of nftables. All that is asked of
//! rule sets of iptables can be asked of a table by its chains.
#![tactic(auto)]

mod chains;
mod prefixes;
mod refusal;
mod rules;

pub use chains::chains_of_table;
pub use prefixes::prefixes_of;
pub use refusal::ChainsRefusal;
