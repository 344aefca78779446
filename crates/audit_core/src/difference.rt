//! Differences between rules and a policy, by pairs of owners.

use crate::finding::Trace;
use crate::kind::Kind;

/// A list of packets at whose end rules and policy differ, with the owners of its last packet.
#[derive(Clone, Copy, Debug, PartialEq, Eq)]
pub struct Difference {
    /// The number of the host that owns the source. `None` if no host owns it.
    pub from: Option<u16>,
    /// The number of the host that owns the destination. `None` if no host owns it.
    pub to: Option<u16>,
    /// The packets in the order in which they are seen. The kind of list is their number: one packet, a
    /// packet after its swap, or a packet after itself and its swap. `forwards` is true if the rules forward
    /// the last packet and the policy expects that it is dropped (the rules forward more), and false if the
    /// rules drop it and the policy expects that it passes (the rules forward less).
    pub trace: Trace,
}

/// A kind of list, and whether the rules forward its last packet.
#[derive(Clone, Copy)]
pub(crate) struct Direction {
    pub(crate) kind: Kind,
    pub(crate) forwards: bool,
}
