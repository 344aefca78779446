//! The services that change for each pair of owners. Only the pairs are searched whose flows or services differ.

ghost use Rattle.std.specs.Prelude.{◌≡◌, ◌++◌, ◌∷◌, [], ◌<◌, IfOk, OnOk, length};
ghost use Rattle.std.specs.List.{All};
ghost use Rattle.header_space.specs.Owners.{GoesBetween};
ghost use Rattle.pass_core.specs.Pairs.{AreListed, AreListedFrom, IsListedFor};
ghost use Rattle.pass_core.specs.inner.Listing.{IsAdded};
ghost use Rattle.change_core.specs.inner.Candidates.{AreOwners, may_change, may_change_from, may_gain, new_hosts, old_hosts, pair_of, some_owners};
ghost use Rattle.change_core.specs.inner.Gaining.{IsGained};
ghost use Rattle.change_core.specs.inner.Naming.{IsNamed, name_of};
ghost use Rattle.change_core.specs.declared.named_owner.NamedOwner.TheVariants.{New};

use crate::gained::Gained;
use crate::named_owner::NamedOwner;
use crate::owner_pair::OwnerPair;
use crate::owners::Owners;
use crate::sharing::row_of;
use header_space::Owned;
use pass_core::{PairServices, PassingRange, services_between};
use std::alloc::{AllocError, Global};

/// The question whether a packet is gained, and which owners have addresses in common.
#[derive(Drop)]
pub(crate) struct Candidates<'a> {
    pub(crate) gained: Gained<'a>,
    /// The owners under both descriptions.
    pub(crate) owners: &'a Owners,
    /// The number of hosts of the new description.
    pub(crate) count: u16,
}

impl<'a> Candidates<'a> {
    /// Returns the services that are gained for each pair of owners, if some packet of the pair is gained.
    pub(crate) fn gained_by_pairs(&self, alloc: Global) -> Result<Vec<PairServices>, AllocError>
        requires owners { AreOwners (new_hosts self.now.gained) (old_hosts self.now.gained) self.now.owners.now }
        requires count { self.now.count ≡ length (new_hosts self.now.gained) }
        ensures { IfOk result (λ list. AreListed (IsGained self.now.gained.lost self.now.gained.held) self.now.owners.now.named.items list.items) }
    {
        let named: &[Owned] = &self.owners.named;
        let mut list = Vec::new(alloc);
        for from in named {
            self.push_from(alloc, &mut list, from, named)?;
        }
        Ok(list)
    }

    /// Lists the pairs of one source owner.
    fn push_from(
        &self,
        alloc: Global,
        list: &mut Vec<PairServices>,
        from: &Owned,
        named: &[Owned],
    ) -> Result<(), AllocError>
        requires owners { AreOwners (new_hosts self.now.gained) (old_hosts self.now.gained) self.now.owners.now }
        requires count { self.now.count ≡ length (new_hosts self.now.gained) }
        requires from { IsNamed (new_hosts self.now.gained) (old_hosts self.now.gained) from.now }
        requires named { All (IsNamed (new_hosts self.now.gained) (old_hosts self.now.gained)) named.now }
        ensures { OnOk result (IsAdded (AreListedFrom (IsGained self.now.gained.lost self.now.gained.held) named.now from.now)
            list.old.items list.new.items) }
    {
        for to in named {
            self.push_pair(alloc, list, from, to)?;
        }
        Ok(())
    }

    /// Lists a pair of owners, if some packet of it is gained.
    fn push_pair(
        &self,
        alloc: Global,
        list: &mut Vec<PairServices>,
        from: &Owned,
        to: &Owned,
    ) -> Result<(), AllocError>
        requires owners { AreOwners (new_hosts self.now.gained) (old_hosts self.now.gained) self.now.owners.now }
        requires count { self.now.count ≡ length (new_hosts self.now.gained) }
        requires from { IsNamed (new_hosts self.now.gained) (old_hosts self.now.gained) from.now }
        requires to { IsNamed (new_hosts self.now.gained) (old_hosts self.now.gained) to.now }
        ensures { OnOk result (IsAdded (IsListedFor (IsGained self.now.gained.lost self.now.gained.held)
            (GoesBetween from.now.ranges.items to.now.ranges.items) from.now.owner to.now.owner) list.old.items list.new.items) }
    {
        if from.ranges.is_empty() || to.ranges.is_empty() || !self.may_change(from, to) {
            return Ok(());
        }
        let ranges = services_between(alloc, &self.gained, &from.ranges, &to.ranges)?;
        push_some(list, from.owner, to.owner, ranges)
    }

    /// Whether some packet between the owners may be gained.
    fn may_change(&self, from: &Owned, to: &Owned) -> bool
        ensures { result ≡ may_change self.now.gained self.now.owners.now.rows.items
            (name_of self.now.count from.now.owner) (name_of self.now.count to.now.owner) }
    {
        let to = NamedOwner::of_number(to.owner, self.count);
        match NamedOwner::of_number(from.owner, self.count) {
            NamedOwner::New(host) => self.may_change_from_new(host, to),
            NamedOwner::Old(host) => self.may_change_from(to, None, Some(host)),
            NamedOwner::Nobody => self.may_change_from(to, None, None),
        }
    }

    /// Whether some packet from a host of the new description to the owner may be gained.
    fn may_change_from_new(&self, host: u16, to: NamedOwner) -> bool
        ensures { result ≡ some_owners self.now.owners.now.rows.items (may_change_from self.now.gained self.now.owners.now.rows.items to) (New host) }
    {
        row_of(&self.owners.rows, host)
            .iter()
            .any(|older| self.may_change_from(to, Some(host), *older))
    }

    /// Whether some packet from an address with these owners under the two descriptions may be gained.
    fn may_change_from(&self, to: NamedOwner, newer: Option<u16>, older: Option<u16>) -> bool
        ensures { result ≡ may_change_from self.now.gained self.now.owners.now.rows.items to newer older }
    {
        match to {
            NamedOwner::New(host) => self.may_change_to_new(host, newer, older),
            NamedOwner::Old(host) => self.may_gain(newer, None, older, Some(host)),
            NamedOwner::Nobody => self.may_gain(newer, None, older, None),
        }
    }

    /// Whether some packet from an address with these owners to a host of the new description may be gained.
    fn may_change_to_new(&self, host: u16, newer: Option<u16>, older: Option<u16>) -> bool
        ensures { result ≡ may_change_from self.now.gained self.now.owners.now.rows.items (New host) newer older }
    {
        row_of(&self.owners.rows, host)
            .iter()
            .any(|old_to| self.may_gain(newer, Some(host), older, *old_to))
    }

    /// Whether a packet may be gained whose addresses have these owners under the new and the old description.
    fn may_gain(
        &self,
        new_from: Option<u16>,
        new_to: Option<u16>,
        old_from: Option<u16>,
        old_to: Option<u16>,
    ) -> bool
        ensures { result ≡ may_gain self.now.gained (pair_of new_from new_to) (pair_of old_from old_to) }
    {
        let newer = OwnerPair {
            from: new_from,
            to: new_to,
        };
        let older = OwnerPair {
            from: old_from,
            to: old_to,
        };
        self.gained.may_gain(newer, older)
    }
}

/// Appends the entry of a pair of owners, if it has ranges.
fn push_some(
    list: &mut Vec<PairServices>,
    from: Option<u16>,
    to: Option<u16>,
    ranges: Vec<PassingRange>,
) -> Result<(), AllocError>
    ensures some { 0 < length ranges.items →
        OnOk result (list.new.items ≡ list.old.items ++ record { from = from; to = to; ranges = ranges } ∷ []) }
    ensures none { length ranges.items ≡ 0 → OnOk result (list.new.items ≡ list.old.items) }
{
    if !ranges.is_empty() {
        list.push(PairServices { from, to, ranges })?;
    }
    Ok(())
}
