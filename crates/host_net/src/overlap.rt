//! The first prefix of a new host that shares an address with an earlier prefix.

ghost use Rattle.std.specs.Prelude.{◌≡◌, ◌≤◌, ◌<◌, ◌^◌, [], length, map, position, IfSome};
ghost use Rattle.host_net.specs.inner.Hosts.{meets_any};
ghost use Rattle.host_net.specs.inner.Refusal.{meeting, overlap_from};

use crate::addresses::{Addresses, meets_any};
use crate::prefix::Prefix;
use crate::refusal::HostRefusal;

/// Returns the refusal for the first of the prefixes `at` that overlaps a prefix of `hosts`, or an
/// earlier one of `at`.
pub fn overlap(hosts: &[Addresses], at: &[Prefix]) -> Option<HostRefusal>
    requires few { length hosts.now < 2 ^ 16 }
    requires short { length at.now < 2 ^ 16 }
    ensures { result ≡ overlap_from (map (λ h. h.prefixes.items) hosts.now) [] at.now }
{
    for item in 0..at.len() {
        if let Some(other) = neighbour(hosts, &at[..item], &at[item]) {
            return Some(HostRefusal::Overlap {
                item: item as u16,
                other: other as u16,
            });
        }
    }
    None
}

/// Returns the index of the host of the earliest prefix that overlaps `prefix`: a host in `hosts`,
/// or the new host after them, whose earlier prefixes are `own`.
fn neighbour(hosts: &[Addresses], own: &[Prefix], prefix: &Prefix) -> Option<usize>
    ensures place { result ≡ meeting (map (λ h. h.prefixes.items) hosts.now) own.now prefix.now }
    ensures within { IfSome result (λ host. host ≤ length hosts.now) }
{
    match among(hosts, prefix) {
        Some(host) => Some(host),
        None if meets_any(own, prefix) => Some(hosts.len()),
        None => None,
    }
}

fn among(hosts: &[Addresses], prefix: &Prefix) -> Option<usize>
    ensures place { result ≡ position (λ h. meets_any h.prefixes.items prefix.now) hosts.now }
    ensures within { IfSome result (λ host. host < length hosts.now) }
{
    hosts
        .iter()
        .position(|host| meets_any(&host.prefixes, prefix))
}
