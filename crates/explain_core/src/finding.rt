//! A flow with the invariants that deny it or its answers.

use flow_set::Flow;

/// A flow, and the numbers, from 0, of the invariants that deny it or its answers.
#[derive(Drop)]
pub struct Finding {
    pub flow: Flow,
    pub by: Vec<u16>,
}
