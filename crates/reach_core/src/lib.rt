//! Walks along flows: the hosts that a host reaches, and the hosts that are joined. The closure of
//! a set of flows stores both as rows of bits that grow flow by flow.
#![tactic(auto)]

mod closure;
mod join_closure;
mod reach_closure;
mod rows;
mod stepped;

pub use closure::Closure;
pub use join_closure::JoinClosure;
pub use reach_closure::ReachClosure;
