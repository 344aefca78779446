//! Pairs of owners under one description.

ghost use Rattle.std.specs.Prelude.{◌≡◌};
ghost use Rattle.pkt_core.specs.FlowPolicy.{flow_of_owners};

use flow_set::Flow;

/// The owners of the source and of the destination of a packet under one description.
#[derive(Clone, Copy)]
pub(crate) struct OwnerPair {
    pub(crate) from: Option<u16>,
    pub(crate) to: Option<u16>,
}

impl OwnerPair {
    /// Returns the flow from one owner to the other, if both are hosts and differ.
    pub(crate) fn flow(self) -> Option<Flow>
        ensures { result ≡ flow_of_owners self.from self.to }
    {
        match (self.from, self.to) {
            (Some(from), Some(to)) if from != to => Some(Flow { from, to }),
            _ => None,
        }
    }
}
