//! The causes to refuse a host, and the size limits of a network.

use std::alloc::AllocError;

/// The greatest number of hosts.
pub const HOST_LIMIT: usize = 256;

/// The greatest number of prefixes of all hosts together.
pub const PREFIX_LIMIT: usize = 1024;

/// The greatest number of invariants.
pub const INVARIANT_LIMIT: usize = 16;

/// The cause to refuse a host: the first one in this order. Hosts and prefixes are identified by
/// their indices, from 0.
#[derive(Clone, Copy, Debug, PartialEq, Eq)]
pub enum HostRefusal {
    /// The host limit is reached, or the prefix limit would be exceeded.
    TooMany,
    /// The text is not a valid name.
    BadName,
    /// Host `other` already has the name.
    Duplicate { other: u16 },
    /// The host has neither prefixes nor the rest mark, or both.
    NoAddress,
    /// A rest host, `other`, already exists.
    TwoRests { other: u16 },
    /// The prefix at index `item` shares an address with an earlier prefix. `other` is the host of
    /// the earliest of these; it may be the new host.
    Overlap { item: u16, other: u16 },
    /// Memory allocation failed.
    Memory,
}

impl From<AllocError> for HostRefusal {
    ghost use Rattle.std.specs.Prelude.{◌≡◌};
    ghost use Rattle.host_net.specs.declared.refusal.HostRefusal.TheVariants.{Memory};

    ghost from_gives = { λ _ why. why ≡ Memory };

    fn from(_: AllocError) -> HostRefusal {
        HostRefusal::Memory
    }
}
