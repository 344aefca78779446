//! Flows between numbered hosts, and sets of flows. Policies, offending flows and stateful flows
//! are such sets, so every layer above is specified in terms of this crate's lists.
#![tactic(auto)]

mod flow;
mod host_set;
mod iter;
mod set;
mod steps;

pub use crate::host_set::HostSet;
pub use flow::Flow;
pub use iter::Iter;
pub use set::FlowSet;
pub use steps::UndoableFlowSet;
