//! The direction of the packets of a flow.

ghost use Rattle.std.specs.Prelude.{◌≡◌};
ghost use Rattle.explain_core.specs.inner.Directions.{directed};

use flow_set::Flow;

/// The direction of packets, in the terms of connection tracking.
#[derive(Clone, Copy)]
pub(crate) enum Direction {
    /// The packets of the flow.
    Original,
    /// The answers to these packets.
    Reply,
}

impl Direction {
    /// Returns the flow of the packets in this direction.
    pub(crate) fn of(self, flow: Flow) -> Flow
        ensures { result ≡ directed self flow }
    {
        match self {
            Direction::Original => flow,
            Direction::Reply => flow.back(),
        }
    }
}
