//! The packets that chains of iptables forward, as sets. The effect of a list of rules is composed of the effects
//! of its halves: the second half decides the packets that continue after the first half.
#![tactic(auto)]

mod accepted;
mod effect;
mod header;
mod known;
mod met;
mod pair;

pub use accepted::accepted_by;
pub use met::{MeetRefusal, MetSet, MetSets, met_by};
pub use pair::PairSets;
