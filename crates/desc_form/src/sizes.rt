//! The refusals for a description with too many hosts, prefixes, invariants or templates.
ghost use Rattle.std.specs.Prelude.{◌≡◌, map};
ghost use Rattle.desc_form.specs.inner.RawView.{host_view, invariant_view, template_view, raw_view};
ghost use Rattle.desc_form.specs.declared.refusal.Place.TheVariants.{Host, Invariant, Template};
ghost use Rattle.desc_form.specs.inner.EntryView.{entry_view};
ghost use Rattle.desc_form.specs.HostConditions.{beyond, template_limit, too_many};
ghost use Rattle.host_net.specs.Limits.{invariant_limit, host_limit};

use crate::entries::{Entry, too_many_prefixes};
use crate::raw::{RawDescription, RawHost, RawInvariant, RawTemplate};
use crate::refusal::{Place, Refusal, Why};
use host_net::{HOST_LIMIT, INVARIANT_LIMIT};

/// The greatest number of declared templates.
const TEMPLATE_LIMIT: usize = 16;

/// Returns the refusal of too many hosts, then of too many prefixes, then of too many invariants,
/// then of too many templates.
#[tactic(auto, unfolding(crate::specs::HostConditions::too_many))]
pub(crate) fn too_many(written: &RawDescription<'_>, entries: &[Entry]) -> Option<Refusal>
    ensures { result ≡ too_many (raw_view written.now).hosts (map entry_view entries.now)
        (raw_view written.now).invariants (raw_view written.now).templates }
{
    too_many_hosts(&written.hosts)
        .or(too_many_prefixes(entries))
        .or(too_many_invariants(&written.invariants))
        .or(too_many_templates(&written.templates))
}

/// Returns the refusal if the number of hosts exceeds the limit.
fn too_many_hosts(hosts: &[RawHost<'_>]) -> Option<Refusal>
    ensures { result ≡ beyond host_limit Host (map host_view hosts.now) }
{
    if hosts.len() <= HOST_LIMIT {
        return None;
    }
    Some(Refusal::at(Why::TooMany, Place::Host(HOST_LIMIT as u64 + 1)))
}

/// Returns the refusal if the number of invariants exceeds the limit.
fn too_many_invariants(invariants: &[RawInvariant<'_>]) -> Option<Refusal>
    ensures { result ≡ beyond invariant_limit Invariant (map invariant_view invariants.now) }
{
    if invariants.len() <= INVARIANT_LIMIT {
        return None;
    }
    Some(Refusal::at(Why::TooMany, Place::Invariant(INVARIANT_LIMIT as u64 + 1)))
}

/// Returns the refusal if the number of templates exceeds the limit.
fn too_many_templates(templates: &[RawTemplate<'_>]) -> Option<Refusal>
    ensures { result ≡ beyond template_limit Template (map template_view templates.now) }
{
    if templates.len() <= TEMPLATE_LIMIT {
        return None;
    }
    Some(Refusal::at(Why::TooMany, Place::Template(TEMPLATE_LIMIT as u64 + 1)))
}
