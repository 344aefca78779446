//! The addresses of the hosts as sorted ranges. The owner of an address is found by binary search.

ghost use Rattle.std.specs.Prelude.{◌≡◌, ℕ, ◌≤◌, ◌<◌, IsTrue, IfOk, IfSome, OnOk, Some, None, length, take, drop, nat_le, nat_lt, if◌then◌else◌};
ghost use Rattle.std.specs.List.{list_all};
ghost use Rattle.text_core.specs.inner.Pairs.{no_pair};
ghost use Rattle.host_net.specs.Host.{covers_any};
ghost use Rattle.host_net.specs.Prefix.{covers, meets};
ghost use Rattle.host_net.specs.inner.Ranges.{holder_among, holds, is_ordered};

use crate::prefix::Prefix;
use std::alloc::{AllocError, Global};

/// The addresses from the first to the last, and the number of their host.
#[derive(Clone, Copy)]
pub struct Range {
    pub first: u32,
    pub last: u32,
    pub host: u16,
}

/// The owner of an address, if it has one, and the last address up to which the owner is the same.
#[derive(Clone, Copy)]
pub struct Held {
    pub host: Option<u16>,
    pub last: u32,
}

/// Returns the host of the range that contains the address, and an address up to which no other
/// range begins.
pub fn holder_until(ranges: &[Range], addr: u32, last: u32) -> Held
    requires ordered { IsTrue (is_ordered ranges.now) }
    requires last { addr ≤ last }
    ensures first { addr ≤ result.last }
    ensures last { result.last ≤ last }
    ensures held { (a : ℕ) → addr ≤ a → a ≤ result.last → holder_among ranges.now a ≡ result.host }
{
    let begun = begun(ranges, addr);
    let end = free_until(ranges, begun, addr, last);
    match ranges[..begun].last() {
        Some(range) if addr <= range.last => Held {
            host: Some(range.host),
            last: end.min(range.last),
        },
        _ => Held {
            host: None,
            last: end,
        },
    }
}

/// Returns the last address before the range at an index, or `last` if there is no such range or it
/// begins later.
fn free_until(ranges: &[Range], place: usize, addr: u32, last: u32) -> u32
    requires ordered { IsTrue (is_ordered ranges.now) }
    requires last { addr ≤ last }
    requires behind { IsTrue (list_all (λ r. nat_lt addr r.first) (drop place ranges.now)) }
    ensures first { addr ≤ result }
    ensures last { result ≤ last }
    ensures behind { (a : ℕ) → a ≤ result → IsTrue (list_all (λ r. nat_lt a r.first) (drop place ranges.now)) }
{
    match ranges.get(place) {
        None => last,
        Some(next) => last.min(next.first.saturating_sub(1)),
    }
}

/// Returns an address between two others after which the owner may change, if there is one: of the
/// addresses after which a range begins the middle one, otherwise the end of a range.
pub fn boundary_between(ranges: &[Range], first: u32, last: u32) -> Option<u32>
    requires { IsTrue (is_ordered ranges.now) }
    ensures { IfSome result (λ at. (first ≤ at) × (at < last)) }
{
    let (low, high) = (begun(ranges, first), begun(ranges, last));
    let at = if low < high {
        ranges.get(low + (high - low) / 2)?.first.saturating_sub(1)
    } else {
        ranges[..low].last()?.last
    };
    if first <= at && at < last {
        Some(at)
    } else {
        None
    }
}

/// Returns the host of the range that contains the address.
pub fn prefix_owner(ranges: &[Range], addr: u32) -> Option<u16>
    requires { IsTrue (is_ordered ranges.now) }
    ensures { result ≡ holder_among ranges.now addr }
{
    match ranges[..begun(ranges, addr)].last() {
        Some(range) if addr <= range.last => Some(range.host),
        _ => None,
    }
}

/// Returns the ranges together with those of one more host, whose prefixes are `at`.
pub fn with_host(
    alloc: Global,
    ranges: &[Range],
    at: &[Prefix],
    host: u16,
) -> Result<Vec<Range>, AllocError>
    requires ordered { IsTrue (is_ordered ranges.now) }
    requires apart { IsTrue (no_pair meets at.now) }
    requires free { (a : ℕ) → IsTrue (covers_any at.now a) → holder_among ranges.now a ≡ None }
    ensures ordered { IfOk result (λ all. IsTrue (is_ordered all.items)) }
    ensures held { IfOk result (λ all. (a : ℕ) → holder_among all.items a ≡ (if covers_any at.now a then Some host else holder_among ranges.now a)) }
{
    let mut all = Vec::from_slice(alloc, ranges)?;
    for prefix in at {
        put(&mut all, covered(prefix, host))?;
    }
    Ok(all)
}

/// Returns the range of a prefix.
fn covered(prefix: &Prefix, host: u16) -> Range
    ensures some { result.first ≤ result.last }
    ensures held { (a : ℕ) → holds result a ≡ covers prefix.now a }
    ensures host { result.host ≡ host }
{
    Range {
        first: prefix.first(),
        last: prefix.last(),
        host,
    }
}

/// Inserts a range in order.
fn put(ranges: &mut Vec<Range>, range: Range) -> Result<(), AllocError>
    requires ordered { IsTrue (is_ordered ranges.old.items) }
    requires some { range.first ≤ range.last }
    requires free { (a : ℕ) → IsTrue (holds range a) → holder_among ranges.old.items a ≡ None }
    ensures ordered { OnOk result (IsTrue (is_ordered ranges.new.items)) }
    ensures held { OnOk result ((a : ℕ) → holder_among ranges.new.items a ≡ (if holds range a then Some range.host else holder_among ranges.old.items a)) }
{
    let place = begun(ranges, range.first);
    ranges.insert(place, range)?;
    Ok(())
}

/// Returns the number of ranges that begin at the address or before it.
fn begun(ranges: &[Range], addr: u32) -> usize
    requires { IsTrue (is_ordered ranges.now) }
    ensures bound { result ≤ length ranges.now }
    ensures before { IsTrue (list_all (λ r. nat_le r.first addr) (take result ranges.now)) }
    ensures behind { IsTrue (list_all (λ r. nat_lt addr r.first) (drop result ranges.now)) }
{
    ranges.partition_point(|range| range.first <= addr)
}
