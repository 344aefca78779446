//! A set of hosts, one bit for each number below 256. It represents a row of a closure, or a list
//! of hosts that must not be reached.

ghost use Rattle.std.specs.Prelude.{◌≡◌, ◌<◌, ◌≤◌, ◌+◌, ◌↔◌, true, IsTrue, IfOk, MatchOption};
ghost use Rattle.std.specs.FinSet as set;
ghost use Rattle.flow_set.specs.HostSet.{hosts_below};
ghost use Rattle.flow_set.specs.inner.Calls.{AreApart, HasNone, IsFirstFrom};
ghost use Rattle.flow_set.specs.inner.HostBits.{is_set, IsFirstBit};

use std::alloc::{AllocError, Global};
use std::marker::Model;

// The number of hosts whose bits one integer has.
const HALF: u16 = 128;

/// A set of hosts with numbers below 256.
#[derive(Drop)]
pub struct HostSet {
    low: u128,
    high: u128,
}

impl Model for HostSet {
    ghost use Rattle.std.specs.Coded.{coded_ℕ};
    ghost use Rattle.std.specs.FinSet as set;
    ghost use Rattle.flow_set.specs.HostSet.{HostNumbers, hosts_below};
    ghost use Rattle.flow_set.specs.inner.HostBits.{is_marked};

    ghost Value = { HostNumbers };

    ghost coded = { set.code coded_ℕ };

    ghost view = { λ s. hosts_below 256 (is_marked s.low s.high) };
}

impl HostSet {
    pub fn empty() -> HostSet
        ensures { result ≡ set.empty }
    {
        HostSet { low: 0, high: 0 }
    }

    /// Returns the hosts with numbers below `count`.
    #[tactic(auto, unfolding(crate::specs::HostSet::hosts_below))]
    pub fn below(count: u16) -> HostSet
        requires { count ≤ 256 }
        ensures { result ≡ hosts_below count (λ _. true) }
    {
        let mut hosts = HostSet::empty();
        for host in 0..count {
            hosts.insert(host);
        }
        hosts
    }

    pub fn has(&self, host: u16) -> bool
        requires { host < 256 }
        ensures { result ≡ set.contains self.now host }
    {
        if host < HALF {
            (self.low >> host) & 1 == 1
        } else {
            (self.high >> (host - HALF)) & 1 == 1
        }
    }

    pub fn insert(&mut self, host: u16)
        requires { host < 256 }
        ensures { self.new ≡ set.insert self.old host }
    {
        if host < HALF {
            self.low |= 1 << host;
        } else {
            self.high |= 1 << (host - HALF);
        }
    }

    pub fn remove(&mut self, host: u16)
        requires { host < 256 }
        ensures { self.new ≡ set.remove self.old host }
    {
        if host < HALF {
            self.low &= !(1 << host);
        } else {
            self.high &= !(1 << (host - HALF));
        }
    }

    /// Returns the first host of the set from `from` on.
    pub fn first_from(&self, from: u16) -> Option<u16>
        ensures { MatchOption result (HasNone (set.contains self.now) from 256) (IsFirstFrom (set.contains self.now) from) }
    {
        if from >= HALF {
            return self.first_upper(from - HALF);
        }
        match first_bit(self.low, from) {
            Some(host) => Some(host),
            None => self.first_upper(0),
        }
    }

    // Returns the first host in the upper half, from this index of the upper half on.
    fn first_upper(&self, from: u16) -> Option<u16>
        ensures { MatchOption result
            (HasNone (set.contains self.now) (128 + from) 256)
            (IsFirstFrom (set.contains self.now) (128 + from)) }
    {
        if from >= HALF {
            return None;
        }
        match first_bit(self.high, from) {
            Some(place) => Some(HALF + place),
            None => None,
        }
    }

    /// Whether the two sets are disjoint.
    pub fn is_apart(&self, other: &HostSet) -> bool
        ensures { IsTrue result ↔ AreApart self.now other.now }
    {
        self.low & other.low == 0 && self.high & other.high == 0
    }

    /// Inserts every host of the other set.
    pub fn insert_all(&mut self, other: &HostSet)
        ensures { self.new ≡ set.union self.old other.now }
    {
        self.low |= other.low;
        self.high |= other.high;
    }

    /// Removes every host of the other set.
    pub fn remove_all(&mut self, other: &HostSet)
        ensures { self.new ≡ set.difference self.old other.now }
    {
        self.low &= !other.low;
        self.high &= !other.high;
    }

    pub fn copy(&self) -> HostSet
        ensures { result ≡ self.now }
    {
        HostSet {
            low: self.low,
            high: self.high,
        }
    }

    /// Returns a copy of each of these sets, in order.
    pub fn copies(alloc: Global, sets: &[HostSet]) -> Result<Vec<HostSet>, AllocError>
        ensures { IfOk result (λ copies. copies.items ≡ sets.now) }
    {
        sets.iter().map(|hosts| hosts.copy()).collect(alloc)
    }

    /// Returns the number of hosts in the set.
    pub fn len(&self) -> u16
        ensures { result ≡ set.len self.now }
    {
        (self.low.count_ones() + self.high.count_ones()) as u16
    }
}

// Returns the index of the first bit that is set, from `from` on.
fn first_bit(bits: u128, from: u16) -> Option<u16>
    requires { from < 128 }
    ensures { MatchOption result (HasNone (is_set bits) from 128) (IsFirstBit bits from) }
{
    let left = bits >> from;
    if left == 0 {
        return None;
    }
    Some(from + left.trailing_zeros() as u16)
}
