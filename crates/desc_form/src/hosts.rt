//! Construction of the hosts of a raw description.
ghost use Rattle.std.specs.Prelude.{◌≡◌, ◌++◌, ◌∷◌, [], None, filter_map, map, IfOk, IsTrue, OnOk};
ghost use Rattle.std.specs.List.{list_all};
ghost use Rattle.text_core.specs.FirstMatch.{first_of};
ghost use Rattle.desc_form.specs.inner.RawView.{host_view, raw_view};
ghost use Rattle.desc_form.specs.HostConditions.{host_conditions};
ghost use Rattle.desc_form.specs.RawHosts.{network_host, network_hosts};
ghost use Rattle.host_net.specs.inner.Hosts.{is_network};
ghost use Rattle.host_net.specs.Prefix.{prefix_of};
ghost use Rattle.host_net.specs.inner.Refusal.{refusal_of};

use crate::raw::{RawDescription, RawHost};
use host_net::{Hosts, Name, Prefix, read_prefix};
use std::alloc::{AllocError, Global};

/// Returns the hosts of a description that none of the conditions on hosts refuses.
pub fn read_hosts(alloc: Global, written: &RawDescription<'_>) -> Result<Hosts, AllocError>
    requires { first_of (host_conditions (raw_view written.now)) ≡ None }
    ensures { IfOk result (λ hosts. hosts ≡ network_hosts (raw_view written.now)) }
{
    let mut hosts = Hosts::new(alloc);
    for host in &written.hosts {
        add_host(alloc, &mut hosts, host)?;
    }
    Ok(hosts)
}

/// Adds a host that is not refused.
fn add_host(alloc: Global, hosts: &mut Hosts, host: &RawHost<'_>) -> Result<(), AllocError>
    requires networks { let added = network_host (host_view host.now) in IsTrue (list_all is_network added.prefixes) }
    requires accepted { let added = network_host (host_view host.now) in refusal_of hosts.old added.name added.prefixes added.rest ≡ None }
    ensures { OnOk result (hosts.new ≡ hosts.old ++ network_host (host_view host.now) ∷ []) }
{
    let prefixes = prefixes_among(alloc, &host.at)?;
    hosts.push(Name::of(host.name.as_bytes()), &prefixes, host.rest)
}

/// Returns the prefixes that the entries of a host denote.
fn prefixes_among(alloc: Global, entries: &[&str]) -> Result<Vec<Prefix>, AllocError>
    ensures { IfOk result (λ prefixes. prefixes.items ≡ filter_map prefix_of (map (λ entry. entry.now) entries.now)) }
{
    let mut prefixes = Vec::new(alloc);
    for entry in entries {
        if let Some(prefix) = read_prefix(entry.as_bytes()) {
            prefixes.push(prefix)?;
        }
    }
    Ok(prefixes)
}
