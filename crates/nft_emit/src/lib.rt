//! The layout of a policy as a table of nftables: the base chain finds the chain of the sender by a
//! verdict map, which finds the verdict on the receiver by another. Packets whose flow is restricted
//! to services, or whose answers alone may pass, continue in a chain for these services. Hosts with
//! the same services share such a chain.
#![tactic(auto)]

mod classes;
mod cuts;
mod emit;
mod link;
mod maps;
mod names;
mod rules;
mod same;
mod sender;
mod served;

pub use cuts::{Cut, cuts_of};
pub use emit::nft_layout;
pub use maps::fall_rules;
