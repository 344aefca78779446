//! The refusals of a raw description for its version, its sizes and its hosts.
ghost use Rattle.std.specs.Prelude.{◌≡◌, ◌↔◌, None, map, IfOk};
ghost use Rattle.text_core.specs.FirstMatch.{first_of};
ghost use Rattle.desc_form.specs.inner.RawView.{host_view, raw_view};
ghost use Rattle.desc_form.specs.inner.EntryView.{entry_view};
ghost use Rattle.desc_form.specs.HostConditions.{address_conditions, all_entries, bad_version, host_conditions, no_address};
ghost use Rattle.desc_form.specs.inner.HostFacts.{HasHosts};
ghost use Rattle.host_net.specs.Host.{has_no_address};

use crate::duplicates::{duplicate_host, overlap, two_rests};
use crate::entries::{Entry, all_entries, bad_prefix, host_bits};
use crate::names::bad_name;
use crate::raw::{RawDescription, RawHost};
use crate::refusal::{Place, Refusal, Why};
use crate::sizes::too_many;
use std::alloc::{AllocError, Global};

/// Returns the refusal of the first condition on the version, the sizes, the names and the hosts of
/// a description that applies.
pub fn host_refusal(
    alloc: Global,
    written: &RawDescription<'_>,
) -> Result<Option<Refusal>, AllocError>
    ensures first { IfOk result (λ refused. refused ≡ first_of (host_conditions (raw_view written.now))) }

    // The result is `None` if and only if all of these are valid.
    ensures facts { IfOk result (λ refused. (refused ≡ None) ↔ HasHosts (raw_view written.now)) }
{
    refusal_of(alloc, written)
}

#[tactic(auto, unfolding(crate::specs::HostConditions::all_entries))]
fn refusal_of(alloc: Global, written: &RawDescription<'_>) -> Result<Option<Refusal>, AllocError>
    ensures { IfOk result (λ refused. refused ≡ first_of (host_conditions (raw_view written.now))) }
{
    let entries = all_entries(alloc, &written.hosts)?;
    Ok(first_refusal(written, &entries))
}

/// The same, for the entries of the description. Hosts and entries are compared pairwise only if
/// their numbers are within the limits.
#[tactic(auto, unfolding(crate::specs::HostConditions::host_conditions))]
fn first_refusal(written: &RawDescription<'_>, entries: &[Entry]) -> Option<Refusal>
    requires { map entry_view entries.now ≡ all_entries (raw_view written.now) }
    ensures { result ≡ first_of (host_conditions (raw_view written.now)) }
{
    let version = bad_version(written);
    if version.is_some() {
        return version;
    }
    let size = too_many(written, entries);
    if size.is_some() {
        return size;
    }
    let name = bad_name(written);
    if name.is_some() {
        return name;
    }
    let host = duplicate_host(&written.hosts);
    if host.is_some() {
        return host;
    }
    address_refusal(&written.hosts, entries)
}

/// Returns the refusal of the first condition on prefixes and rest marks.
fn address_refusal(hosts: &[RawHost<'_>], entries: &[Entry]) -> Option<Refusal>
    ensures { result ≡ first_of (address_conditions (map host_view hosts.now) (map entry_view entries.now)) }
{
    let prefix = bad_prefix(entries);
    if prefix.is_some() {
        return prefix;
    }
    let bits = host_bits(entries);
    if bits.is_some() {
        return bits;
    }
    let address = no_address(hosts);
    if address.is_some() {
        return address;
    }
    let rest = two_rests(hosts);
    if rest.is_some() {
        return rest;
    }
    overlap(entries)
}

/// Returns the refusal of a version that is neither 1 nor 2.
#[tactic(auto, unfolding(crate::specs::HostConditions::bad_version))]
fn bad_version(written: &RawDescription<'_>) -> Option<Refusal>
    ensures { result ≡ bad_version written.now.version }
{
    if written.version == 1 || written.version == 2 {
        return None;
    }
    Some(Refusal::at(Why::BadVersion, Place::Document))
}

/// Whether the host has neither a prefix nor the rest mark, or both.
fn has_no_address(host: &RawHost<'_>) -> bool
    ensures { result ≡ has_no_address (host_view host.now).at (host_view host.now).rest }
{
    if host.at.is_empty() {
        !host.rest
    } else {
        host.rest
    }
}

/// Returns the refusal of the first host that has neither a prefix nor the rest mark, or both.
#[tactic(auto, unfolding(crate::specs::HostConditions::no_address))]
fn no_address(hosts: &[RawHost<'_>]) -> Option<Refusal>
    ensures { result ≡ no_address (map host_view hosts.now) }
{
    for (index, host) in hosts.iter().enumerate() {
        if has_no_address(host) {
            return Some(Refusal::at(Why::NoAddress, Place::Host(index as u64 + 1)));
        }
    }
    None
}
