//! The owners under an old description of the addresses that each host of a new description owns.

ghost use Rattle.std.specs.Prelude.{◌≡◌, ◌⊎◌, ◌↔◌, ℕ, ◌<◌, ◌^◌, ◌++◌, ◌∷◌, [], Some, IsTrue, IsFalse, IfOk, OnOk, Option, length, filter, if◌then◌else◌};
ghost use Rattle.std.specs.Option.{ForSome};
ghost use Rattle.flow_set.specs.FlowSet.{has};
ghost use Rattle.header_space.specs.Owners.{owners_of};
ghost use Rattle.change_core.specs.inner.Sharing.{AreMarked, AreShared, flow_in, is_marked, row_at};

use flow_set::{Flow, FlowSet, HostSet};
use host_net::Hosts;
use std::alloc::{AllocError, Global};

/// A table of the owners under the old description of the addresses of each host of the new description.
#[derive(Drop)]
struct Sharing {
    /// For each host of the new description, the hosts of the old description that own its addresses.
    hosts: Vec<HostSet>,
    /// The hosts of the new description with an address that no host of the old description owns.
    beyond: HostSet,
}

impl Sharing {
    /// Returns a table with an empty row for each of `count` hosts.
    fn nothing(alloc: Global, count: u16) -> Result<Sharing, AllocError>
        ensures counted { IfOk result (λ sharing. length sharing.hosts.items ≡ count) }
        ensures nothing { IfOk result (λ sharing. (i : ℕ) (o : Option ℕ) → IsFalse (is_marked sharing i o)) }
    {
        let mut hosts = Vec::new(alloc);
        for _ in 0..count {
            hosts.push(HostSet::empty())?;
        }
        Ok(Sharing {
            hosts,
            beyond: HostSet::empty(),
        })
    }

    /// Adds an owner under the old description to the row of a host of the new description, if there is one.
    fn add(&mut self, newer: Option<u16>, older: Option<u16>)
        requires newer { ForSome newer (λ i. (i < length self.old.hosts.items) × (i < 256)) }
        requires older { ForSome older (λ k. k < 256) }
        ensures counted { length self.new.hosts.items ≡ length self.old.hosts.items }
        ensures added { (i : ℕ) (o : Option ℕ) →
            (IsTrue (is_marked self.new i o) ↔ (IsTrue (is_marked self.old i o) ⊎ ((newer ≡ Some i) × (older ≡ o)))) }
    {
        match (newer, older) {
            (Some(host), Some(other)) => {
                let row = &mut self.hosts[host as usize];
                row.insert(other);
            }
            (Some(host), None) => self.beyond.insert(host),
            (None, _) => {}
        }
    }

    /// Returns the row of a host in ascending order. The owners are hosts of `old`, or `None`.
    fn owners(&self, alloc: Global, host: u16, old: &Hosts) -> Result<Vec<Option<u16>>, AllocError>
        requires host { (host < length self.now.hosts.items) × (host < 256) }
        ensures { IfOk result (λ owners. owners.items ≡ filter (is_marked self.now host) (owners_of old.now)) }
    {
        let row = &self.hosts[host as usize];
        let mut owners = Vec::new(alloc);
        for other in 0..old.count() {
            push_if(&mut owners, row.has(other), Some(other))?;
        }
        push_if(&mut owners, self.beyond.has(host), None)?;
        Ok(owners)
    }
}

fn push_if(
    owners: &mut Vec<Option<u16>>,
    wanted: bool,
    owner: Option<u16>,
) -> Result<(), AllocError>
    ensures { OnOk result (owners.new.items ≡ owners.old.items ++ (if wanted then owner ∷ [] else [])) }
{
    if wanted {
        owners.push(owner)?;
    }
    Ok(())
}

/// Returns the table of all addresses, from one pass over the ranges of addresses with the same owners.
fn all_sharing(alloc: Global, new: &Hosts, old: &Hosts) -> Result<Sharing, AllocError>
    ensures { IfOk result (AreMarked new.now old.now (2 ^ 32)) }
{
    let mut sharing = Sharing::nothing(alloc, new.count())?;
    let _ = old.count();
    let mut first = 0;
    loop {
        let newer = new.owner_until(first, u32::MAX);
        let older = old.owner_until(first, newer.last);
        sharing.add(newer.host, older.host);
        if older.last == u32::MAX {
            return Ok(sharing);
        }
        first = older.last + 1;
    }
}

/// Returns for each host of the new description the owners of its addresses under the old description, each
/// once: the hosts by number, then `None`, which owns the addresses of no host.
pub(crate) fn shared_owners(
    alloc: Global,
    new: &Hosts,
    old: &Hosts,
) -> Result<Vec<Vec<Option<u16>>>, AllocError>
    ensures { IfOk result (λ rows. AreShared new.now old.now rows.items) }
{
    let sharing = all_sharing(alloc, new, old)?;
    let mut rows = Vec::new(alloc);
    for host in 0..new.count() {
        let owners = sharing.owners(alloc, host, old)?;
        rows.push(owners)?;
    }
    Ok(rows)
}

/// Returns the row of a host, or an empty row if there is no such host.
pub(crate) fn row_of(rows: &[Vec<Option<u16>>], host: u16) -> &[Option<u16>]
    ensures { result.now ≡ row_at rows.now host }
{
    match rows.get(host as usize) {
        Some(row) => row,
        None => &[],
    }
}

/// Returns the flow from one owner to another, if both are hosts and the set has the flow.
pub(crate) fn flow_in(set: &FlowSet, from: Option<u16>, to: Option<u16>) -> Option<Flow>
    ensures { result ≡ flow_in set.now.flows from to }
{
    match (from, to) {
        (Some(from), Some(to)) => listed(set, Flow { from, to }),
        _ => None,
    }
}

/// Returns the flow, if the set has it. The flow need not be a flow between the hosts of the set.
fn listed(set: &FlowSet, flow: Flow) -> Option<Flow>
    ensures { result ≡ flow_in set.now.flows (Some flow.from) (Some flow.to) }
{
    if has_flow(set, flow) {
        Some(flow)
    } else {
        None
    }
}

/// Whether the set has the flow. The flow need not be a flow between the hosts of the set.
pub(crate) fn has_flow(set: &FlowSet, flow: Flow) -> bool
    ensures { result ≡ has set.now.flows flow }
{
    let size = set.size();
    flow.from < size && flow.to < size && flow.from != flow.to && set.has(flow)
}
