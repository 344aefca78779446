//! The three templates that depend on paths: dependability, non-interference and no-reach. Each is
//! an invariant with its own file, and none of them is edge-wise.
#![tactic(auto)]

mod dependability;
mod host_wise;
mod no_reach;
mod non_interference;
mod trial;

pub use dependability::Dependability;
pub use no_reach::NoReach;
pub use non_interference::NonInterference;
pub use trial::ReachTrial;
