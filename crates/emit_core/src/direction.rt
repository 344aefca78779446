//! The direction of a packet, as seen from a host.

ghost use Rattle.std.specs.Prelude.{◌≡◌};
ghost use Rattle.emit_core.specs.Directions.{flow_on, other_direction};

use flow_set::Flow;

/// Whether a host sends a packet, or receives it.
#[derive(Clone, Copy, Debug, PartialEq, Eq)]
pub enum Direction {
    Outbound,
    Inbound,
}

impl Direction {
    /// Returns the direction of the answers, as seen from the host.
    pub fn other(self) -> Direction
        ensures { result ≡ other_direction self }
    {
        match self {
            Direction::Outbound => Direction::Inbound,
            Direction::Inbound => Direction::Outbound,
        }
    }

    /// Returns the flow that a host has with another in this direction.
    pub(crate) fn flow(self, host: u16, other: u16) -> Flow
        ensures { result ≡ flow_on self host other }
    {
        match self {
            Direction::Outbound => Flow {
                from: host,
                to: other,
            },
            Direction::Inbound => Flow {
                from: other,
                to: host,
            },
        }
    }
}
