//! The hosts of a network, by name and by address.

ghost use Rattle.std.specs.Prelude.{◌≡◌, ℕ, ◌<◌, ◌≤◌, ◌^◌, ◌++◌, ◌∷◌, [], Some, None, Ok, Err, IsTrue, IsFalse, IfSome, OnOk, OnErr, MatchResult, length, slice_get};
ghost use Rattle.std.specs.List.{list_all};
ghost use Rattle.std.specs.Option.{option_map, ForSome};
ghost use Rattle.host_net.specs.Host.{Host, covers_any, host_named, owner_of, rest_of};
ghost use Rattle.host_net.specs.Hosts.{all_prefixes};
ghost use Rattle.host_net.specs.inner.Hosts.{is_network, IsHosts};
ghost use Rattle.host_net.specs.inner.Overlaps.{IsFirstOverlap};
ghost use Rattle.host_net.specs.inner.Refusal.{bad_name, duplicate, is_full, no_address, overlap, refusal_of, two_rests};
ghost use Rattle.host_net.specs.declared.refusal.HostRefusal.{HostRefusal};

use crate::addresses::{Addresses, prefix_count, rest_host};
use crate::name::Name;
use crate::overlap::overlap;
use crate::prefix::Prefix;
use crate::ranges::{Held, Range, boundary_between, holder_until, prefix_owner, with_host};
use crate::refusal::{HOST_LIMIT, HostRefusal, PREFIX_LIMIT};
use indexmap::IndexMap;
use std::alloc::{AllocError, Global};
use std::marker::Model;
use text_core::is_name;

/// Hosts in order of declaration. The number of a host is its index, from 0.
#[derive(Drop)]
pub struct Hosts {
    known: IndexMap<Name, Addresses>,
    ranges: Vec<Range>,
}

impl Model for Hosts {
    ghost use Rattle.std.specs.Prelude.{List};
    ghost use Rattle.host_net.specs.Host.{Host};
    ghost use Rattle.host_net.specs.inner.Hosts.{IsHosts};
    ghost use Rattle.host_net.specs.inner.HostsView.{hosts_view};
    ghost use Rattle.host_net.specs.inner.Ranges.{AreRanges};

    ghost Value = { List Host };

    ghost view = { λ hosts. hosts_view hosts.known.entries };

    ghost invariant = { λ hosts. IsHosts (hosts_view hosts.known.entries) × AreRanges (hosts_view hosts.known.entries) hosts.ranges.items };
}

impl Hosts {
    /// Returns an empty list of hosts.
    pub fn new(alloc: Global) -> Hosts
        ensures { result ≡ [] }
    {
        Hosts {
            known: IndexMap::new(alloc),
            ranges: Vec::new(alloc),
        }
    }

    /// Appends a host and returns its number.
    ///
    /// The host owns the addresses that its prefixes `at` cover. With `rest` set and no prefixes,
    /// it owns the addresses that no prefix covers. Each prefix must be exact and have a length of
    /// at least 1.
    pub fn add(&mut self, name: &[u8], at: &[Prefix], rest: bool) -> Result<u16, HostRefusal>
        requires { IsTrue (list_all is_network at.now) }

        // The first cause is returned. Without a cause, only allocation can fail.
        ensures refused { (why : HostRefusal) → refusal_of self.old name.now at.now rest ≡ Some why → result ≡ Err why }
        ensures accepted { refusal_of self.old name.now at.now rest ≡ None →
            MatchResult result (λ number. number ≡ length self.old) (λ why. why ≡ HostRefusal.Memory) }
        ensures added { OnOk result (self.new ≡ self.old ++ record { name = name.now; prefixes = at.now; rest = rest } ∷ []) }
        ensures unchanged { OnErr result (self.new ≡ self.old) }

        // The prefix at `item` overlaps one of host `other`, and no prefix before it overlaps an
        // earlier one.
        ensures overlaps { (item other : ℕ) → result ≡ Err (HostRefusal.Overlap item other) → IsFirstOverlap self.old at.now item other }
    {
        if let Some(why) = self.refusal(name, at, rest) {
            return Err(why);
        }
        let number = self.count();
        self.push(Name::of(name), at, rest)?;
        Ok(number)
    }

    /// Returns the first cause to refuse a host.
    #[tactic(auto, unfolding(crate::specs::inner::Refusal::refusal_of))]
    fn refusal(&self, name: &[u8], at: &[Prefix], rest: bool) -> Option<HostRefusal>
        ensures { result ≡ refusal_of self.now name.now at.now rest }
    {
        if self.is_full(at.len()) {
            return Some(HostRefusal::TooMany);
        }
        bad_name(name)
            .or(self.duplicate(name))
            .or(no_address(at, rest))
            .or(self.two_rests(rest))
            .or(self.overlap(at))
    }

    fn is_full(&self, prefixes: usize) -> bool
        ensures { result ≡ is_full self.now prefixes }
    {
        let hosts = self.known.values().as_slice();
        hosts.len() >= HOST_LIMIT || prefixes > PREFIX_LIMIT - prefix_count(hosts)
    }

    fn duplicate(&self, name: &[u8]) -> Option<HostRefusal>
        ensures { result ≡ duplicate self.now name.now }
    {
        match self.find(name) {
            Some(other) => Some(HostRefusal::Duplicate { other }),
            None => None,
        }
    }

    fn two_rests(&self, rest: bool) -> Option<HostRefusal>
        ensures { result ≡ two_rests self.now rest }
    {
        match self.rest() {
            Some(other) if rest => Some(HostRefusal::TwoRests { other }),
            _ => None,
        }
    }

    fn overlap(&self, at: &[Prefix]) -> Option<HostRefusal>
        requires { length at.now < 2 ^ 16 }
        ensures { result ≡ overlap self.now at.now }
    {
        overlap(self.known.values().as_slice(), at)
    }

    /// Appends a host that has no cause to be refused, like `add`.
    pub fn push(&mut self, name: Name, at: &[Prefix], rest: bool) -> Result<(), AllocError>
        requires cause { refusal_of self.old name at.now rest ≡ None }
        requires networks { IsTrue (list_all is_network at.now) }
        ensures added { OnOk result (self.new ≡ self.old ++ record { name = name; prefixes = at.now; rest = rest } ∷ []) }
        ensures unchanged { OnErr result (self.new ≡ self.old) }
    {
        let host = self.count();
        let alloc = *self.known.allocator();
        let ranges = with_host(alloc, &self.ranges, at, host)?;
        let prefixes = Vec::from_slice(alloc, at)?;
        self.known.insert(name, Addresses { prefixes, rest })?;
        self.ranges = ranges;
        Ok(())
    }

    /// Returns the number of hosts.
    pub fn count(&self) -> u16
        ensures value { result ≡ length self.now }
        ensures hosts { IsHosts self.now }
    {
        self.known.len() as u16
    }

    /// Returns the name of host `host`.
    pub fn name(&self, host: u16) -> Name
        requires { host < length self.now }
        ensures { option_map (λ h. h.name) (slice_get self.now host) ≡ Some result }
    {
        self.known.keys().as_slice()[host as usize]
    }

    /// Returns the prefixes of host `host`.
    pub fn prefixes(&self, host: u16) -> &[Prefix]
        requires { host < length self.now }
        ensures { option_map (λ h. h.prefixes) (slice_get self.now host) ≡ Some result.now }
    {
        let addresses = &self.known.values().as_slice()[host as usize];
        &addresses.prefixes
    }

    /// Returns the rest host, or `None` if there is none.
    pub fn rest(&self) -> Option<u16>
        ensures { result ≡ rest_of self.now }
    {
        number(rest_host(self.known.values().as_slice()))
    }

    /// Returns the host with the name, or `None` if no host has it.
    pub fn find(&self, name: &[u8]) -> Option<u16>
        ensures { result ≡ host_named self.now name.now }
    {
        match Name::new(name) {
            Some(name) => number(self.known.get_index_of(&name)),
            None => None,
        }
    }

    /// Returns the owner of the address, or `None` if it has none.
    #[tactic(auto, unfolding(crate::specs::Host::owner_of))]
    pub fn owner(&self, addr: u32) -> Option<u16>
        ensures exact { result ≡ owner_of self.now addr }

        // At most one host has prefixes that cover the address, and this host owns it.
        ensures sole { (host : ℕ) (h : Host) → slice_get self.now host ≡ Some h → IsTrue (covers_any h.prefixes addr) → result ≡ Some host }

        // If no prefix covers the address, the rest host owns it, or no host.
        ensures unowned { IsFalse (covers_any (all_prefixes self.now) addr) → result ≡ rest_of self.now }
    {
        prefix_owner(&self.ranges, addr).or(self.rest())
    }

    /// Returns the owner of an address, if it has one, and the last address, at most `last`, up to
    /// which the owner is the same.
    #[tactic(auto, unfolding(crate::specs::Host::owner_of))]
    pub fn owner_until(&self, addr: u32, last: u32) -> Held
        requires { addr ≤ last }
        ensures first { addr ≤ result.last }
        ensures last { result.last ≤ last }
        ensures owned { (a : ℕ) → addr ≤ a → a ≤ result.last → owner_of self.now a ≡ result.host }
    {
        let held = holder_until(&self.ranges, addr, last);
        Held {
            host: held.host.or(self.rest()),
            last: held.last,
        }
    }

    /// Returns an address from `first` on and before `last` after which the owner may change, if
    /// there is one. It is near the middle of the candidates, so that repeated bisection takes few
    /// steps.
    pub fn boundary_between(&self, first: u32, last: u32) -> Option<u32>
        ensures { IfSome result (λ at. (first ≤ at) × (at < last)) }
    {
        boundary_between(&self.ranges, first, last)
    }
}

/// Returns the number of the host at an index.
fn number(place: Option<usize>) -> Option<u16>
    requires { ForSome place (λ host. host < 2 ^ 16) }
    ensures { result ≡ place }
{
    match place {
        Some(host) => Some(host as u16),
        None => None,
    }
}

fn bad_name(name: &[u8]) -> Option<HostRefusal>
    ensures { result ≡ bad_name name.now }
{
    if is_name(name) {
        None
    } else {
        Some(HostRefusal::BadName)
    }
}

fn no_address(at: &[Prefix], rest: bool) -> Option<HostRefusal>
    ensures { result ≡ no_address at.now rest }
{
    if at.is_empty() == rest {
        None
    } else {
        Some(HostRefusal::NoAddress)
    }
}
