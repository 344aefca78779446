//! The finding of an audit.

ghost use Rattle.std.specs.Prelude.{◌≡◌};
ghost use Rattle.audit_core.specs.Findings.{trace_of};

use crate::kind::Kind;
use host_net::Packet;
use std::alloc::AllocError;

/// Whether rules implement a policy, or the first list of packets on which they differ from it.
#[derive(Clone, Copy, Debug, PartialEq, Eq)]
pub enum Finding {
    Equal,
    Differ(Trace),
}

/// At most three packets, seen in this order, and whether the rules forward the last one.
#[derive(Clone, Copy, Debug, PartialEq, Eq)]
pub struct Trace {
    pub first: Packet,
    pub second: Option<Packet>,
    pub third: Option<Packet>,
    pub forwards: bool,
}

/// The reason that there is no finding.
#[derive(Clone, Copy, Debug, PartialEq, Eq)]
pub enum AuditRefusal {
    /// There are more than 4,000,000 classes of packets.
    TooManyClasses { count: u128 },
    /// An allocation failed.
    Memory,
}

impl From<AllocError> for AuditRefusal {
    ghost use Rattle.std.specs.Prelude.{◌≡◌};
    ghost use Rattle.audit_core.specs.declared.finding.AuditRefusal.TheVariants.{Memory};

    ghost from_gives = { λ _ why. why ≡ Memory };

    fn from(_: AllocError) -> AuditRefusal {
        AuditRefusal::Memory
    }
}

impl Trace {
    /// Returns the list of that kind at a packet.
    pub(crate) fn of(kind: Kind, packet: Packet, forwards: bool) -> Trace
        ensures value { result ≡ trace_of kind packet forwards }
        ensures forwards { result.forwards ≡ forwards }
    {
        match kind {
            Kind::Alone => Trace {
                first: packet,
                second: None,
                third: None,
                forwards,
            },
            Kind::AfterSwap => Trace {
                first: packet.swap(),
                second: Some(packet),
                third: None,
                forwards,
            },
            Kind::AfterBoth => Trace {
                first: packet,
                second: Some(packet.swap()),
                third: Some(packet),
                forwards,
            },
        }
    }
}
