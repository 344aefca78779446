//! Owners of addresses under two descriptions.

ghost use Rattle.std.specs.Prelude.{◌≡◌, ℕ, ◌≤◌};
ghost use Rattle.std.specs.Bool.{Decides};
ghost use Rattle.change_core.specs.Names.{name_from, named_owner};
ghost use Rattle.change_core.specs.inner.Naming.{name_of};

use host_net::Hosts;

/// The owner of an address under a new and an old description: the host of the new description that owns the
/// address. If there is none, the host of the old description that owns it. If there is none either, nobody.
#[derive(Clone, Copy, Debug, PartialEq, Eq)]
pub enum NamedOwner {
    /// The number of a host of the new description.
    New(u16),
    /// The number of a host of the old description.
    Old(u16),
    /// No host of either description owns the address.
    Nobody,
}

impl NamedOwner {
    /// Returns the owner with the number, if the new description has `count` hosts.
    pub(crate) fn of_number(number: Option<u16>, count: u16) -> NamedOwner
        ensures { result ≡ name_of count number }
    {
        match number {
            None => NamedOwner::Nobody,
            Some(host) if host < count => NamedOwner::New(host),
            Some(host) => NamedOwner::Old(host - count),
        }
    }

    /// Returns the owner of an address, if these hosts of the two descriptions own it.
    fn of_hosts(new: Option<u16>, old: Option<u16>) -> NamedOwner
        ensures { result ≡ name_from new old }
    {
        match (new, old) {
            (Some(host), _) => NamedOwner::New(host),
            (None, Some(host)) => NamedOwner::Old(host),
            (None, None) => NamedOwner::Nobody,
        }
    }

    /// Whether the owners are equal.
    pub(crate) fn is(self, other: NamedOwner) -> bool
        ensures { Decides result (self ≡ other) }
    {
        self == other
    }
}

/// An owner, and the last address up to which it owns all addresses.
#[derive(Clone, Copy)]
pub(crate) struct NamedUntil {
    pub(crate) owner: NamedOwner,
    pub(crate) last: u32,
}

/// Returns the owner of an address, and the last address up to which all have the same owner.
pub(crate) fn named_until(new: &Hosts, old: &Hosts, first: u32) -> NamedUntil
    ensures first { first ≤ result.last }
    ensures last { result.last ≤ 4294967295 }
    ensures owned { (a : ℕ) → first ≤ a → a ≤ result.last → named_owner new.now old.now a ≡ result.owner }
{
    let newer = new.owner_until(first, u32::MAX);
    let older = old.owner_until(first, newer.last);
    NamedUntil {
        owner: NamedOwner::of_hosts(newer.host, older.host),
        last: older.last,
    }
}
