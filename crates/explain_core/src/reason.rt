//! An invariant that denies a flow or its answers, with a minimal failing set.

use flow_set::FlowSet;

/// An invariant, by its number from 0, and a minimal failing set of it.
#[derive(Drop)]
pub struct Reason {
    pub number: u16,
    pub by: FlowSet,
}
