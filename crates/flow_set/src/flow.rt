//! Flows between hosts, which are identified by their numbers. Flows are ordered by sender first
//! and receiver second, and every iteration over flows uses this order.

ghost use Rattle.std.specs.Prelude.{◌≡◌};
ghost use Rattle.flow_set.specs.Flow.{reverse_of};

/// Packets from host `from` to host `to`.
#[derive(Clone, Copy, PartialEq, Eq, PartialOrd, Ord, Debug)]
pub struct Flow {
    pub from: u16,
    pub to: u16,
}

impl Flow {
    /// Returns the flow in the other direction.
    pub fn back(self) -> Flow
        ensures { result ≡ reverse_of self }
    {
        Flow {
            from: self.to,
            to: self.from,
        }
    }
}
