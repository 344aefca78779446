//! The refusals for a host or a prefix that conflicts with an earlier one.
ghost use Rattle.std.specs.Prelude.{◌≡◌, map, option_map};
ghost use Rattle.desc_form.specs.declared.refusal.Place.TheVariants.{Host};
ghost use Rattle.desc_form.specs.declared.refusal.Why.TheVariants.{Overlap};
ghost use Rattle.desc_form.specs.Refusals.{refused_by};
ghost use Rattle.desc_form.specs.inner.Refused.{refused_item_by};
ghost use Rattle.text_core.specs.inner.FirstsView.{pair_seen};
ghost use Rattle.desc_form.specs.inner.RawView.{host_view};
ghost use Rattle.desc_form.specs.inner.EntryView.{entry_view};
ghost use Rattle.desc_form.specs.HostConditions.{duplicate_host, entries_meet, overlap, two_rests};

use crate::entries::Entry;
use crate::raw::RawHost;
use crate::refusal::{Place, Refusal, Why};
use host_net::Prefix;
use text_core::{Conflict, first_conflict};

/// Returns the refusal of a host with the name of an earlier one.
pub(crate) fn duplicate_host(hosts: &[RawHost<'_>]) -> Option<Refusal>
    ensures { result ≡ duplicate_host (map host_view hosts.now) }
{
    let pair = first_conflict(hosts, |later, earlier| later.name == earlier.name);
    duplicate_host_refusal(Why::DuplicateHost, pair)
}

/// Returns the refusal of a second host with the rest mark.
pub(crate) fn two_rests(hosts: &[RawHost<'_>]) -> Option<Refusal>
    ensures { result ≡ two_rests (map host_view hosts.now) }
{
    let pair = first_conflict(hosts, |later, earlier| later.rest && earlier.rest);
    duplicate_host_refusal(Why::TwoRests, pair)
}

/// Returns the refusal of a host that conflicts with an earlier one.
fn duplicate_host_refusal(why: Why, pair: Option<Conflict<'_, RawHost<'_>>>) -> Option<Refusal>
    ensures { result ≡ option_map (λ p. refused_by why (Host p.later.number) p.earlier.number) (option_map pair_seen pair.entry) }
{
    let pair = pair?;
    let refusal = Refusal::at(why, Place::Host(pair.later.number));
    Some(refusal.with_other(pair.earlier.number))
}

/// Returns the refusal of a prefix that shares an address with an earlier one.
pub(crate) fn overlap(entries: &[Entry]) -> Option<Refusal>
    ensures { result ≡ overlap (map entry_view entries.now) }
{
    let pair = first_conflict(
        entries,
        |later, earlier| entries_meet(later.prefix, earlier.prefix),
    );
    met_entry(pair)
}

/// Returns the refusal of a prefix that overlaps an earlier one.
fn met_entry(pair: Option<Conflict<'_, Entry>>) -> Option<Refusal>
    ensures { result ≡ option_map (λ p. refused_item_by Overlap (Host p.later.what.host) p.later.what.item p.earlier.what.host)
        (option_map pair_seen pair.entry) }
{
    let pair = pair?;
    let (later, earlier) = (pair.later.what, pair.earlier.what);
    let refusal = Refusal::at(Why::Overlap, Place::Host(later.host));
    Some(refusal.with_item(later.item).with_other(earlier.host))
}

/// Whether the prefixes of two entries share an address.
fn entries_meet(said: Option<Prefix>, other: Option<Prefix>) -> bool
    ensures { result ≡ entries_meet said other }
{
    match (said, other) {
        (Some(prefix), Some(other)) => prefix.meets(&other),
        _ => false,
    }
}
