//! The tracked connection to which a packet belongs.

ghost use Rattle.std.specs.Prelude.{◌≡◌};
ghost use Rattle.pkt_core.specs.inner.ConnectionTable.{state_by};

use host_net::CtState;

/// The connection of a packet. A connection is stored under its first packet, with a flag for
/// whether it is answered.
#[derive(Clone, Copy, Debug, PartialEq, Eq)]
pub enum Connection {
    /// The packet goes in the reverse direction of the first packet.
    Answers(bool),
    /// The packet equals the first packet.
    Begun(bool),
    /// No connection of the packet is tracked.
    Unknown,
}

impl Connection {
    /// Returns the state of a packet of this connection.
    pub fn state(self) -> CtState
        ensures { result ≡ state_by self }
    {
        match self {
            Connection::Answers(_) | Connection::Begun(true) => CtState::Established,
            Connection::Begun(false) | Connection::Unknown => CtState::New,
        }
    }
}
