//! The events at a firewall.

use host_net::Packet;

/// A packet arrives, or the firewall forgets a connection.
#[derive(Clone, Copy, Debug, PartialEq, Eq)]
pub enum Event {
    /// The packet is seen.
    Seen(Packet),
    /// The connection of the packet is forgotten, in both directions.
    Forget(Packet),
}
