//! The forms of entries that a flow table has.

ghost use Rattle.std.specs.Prelude.{◌≡◌, OnOk, Some, map};
ghost use Rattle.host_net.specs.Service.{service_matches};
ghost use Rattle.emit_core.specs.FlowTable.{arp_entry, ip_entry, other_entry, port_of_service, rest_drop, service_entry};
ghost use Rattle.emit_core.specs.inner.KeptEntries.{with_entries};

use crate::entries::Entries;
use crate::narrowing::{has_all_ports, is_whole};
use host_net::{Prefix, Service};
use ofp_rules::{Action, Entry, FrameKind};
use std::alloc::AllocError;

/// Adds the entries that forward the packets of the services, or all packets if there are none.
/// Without a prefix an entry matches every source, or every destination.
pub(crate) fn push_services(
    entries: &mut Entries,
    priority: u16,
    src: Option<Prefix>,
    dst: Option<Prefix>,
    services: &[Service],
) -> Result<(), AllocError>
    ensures { OnOk result (entries.new ≡ with_entries entries.old
        (map (service_entry priority src dst) (service_matches services.now))) }
{
    if is_whole(services) {
        entries.push(service_entry(priority, src, dst, None))?;
        return Ok(());
    }
    push_each_service(entries, priority, src, dst, services)
}

fn push_each_service(
    entries: &mut Entries,
    priority: u16,
    src: Option<Prefix>,
    dst: Option<Prefix>,
    services: &[Service],
) -> Result<(), AllocError>
    ensures { OnOk result (entries.new ≡ with_entries entries.old
        (map (λ service. service_entry priority src dst (Some service)) services.now)) }
{
    for service in services {
        entries.push(service_entry(priority, src, dst, Some(*service)))?;
    }
    Ok(())
}

/// Adds the entry that drops packets between two prefixes, if there is a rest host. Without it they
/// would match the entries of the rest host.
pub(crate) fn push_rest_drop(
    entries: &mut Entries,
    rest: Option<u16>,
    priority: u16,
    source: Prefix,
    destination: Prefix,
) -> Result<(), AllocError>
    ensures { OnOk result (entries.new ≡ with_entries entries.old
        (rest_drop rest priority source destination)) }
{
    if rest.is_some() {
        entries.push(drop_entry(priority, source, destination))?;
    }
    Ok(())
}

fn drop_entry(priority: u16, source: Prefix, destination: Prefix) -> Entry
    ensures { result ≡ ip_entry priority (Some source) (Some destination) Action.Drop }
{
    Entry {
        priority,
        kind: FrameKind::Ip,
        src: Some(source),
        dst: Some(destination),
        proto: None,
        tp_src: None,
        tp_dst: None,
        action: Action::Drop,
    }
}

fn service_entry(
    priority: u16,
    src: Option<Prefix>,
    dst: Option<Prefix>,
    service: Option<Service>,
) -> Entry
    ensures { result ≡ service_entry priority src dst service }
{
    let (proto, tp_dst) = match service {
        None => (None, None),
        Some(service) => (Some(service.proto), port_of(service)),
    };
    Entry {
        priority,
        kind: FrameKind::Ip,
        src,
        dst,
        proto,
        tp_src: None,
        tp_dst,
        action: Action::Normal,
    }
}

/// Returns the port that an entry for the service matches.
fn port_of(service: Service) -> Option<u16>
    ensures { result ≡ port_of_service service }
{
    if has_all_ports(service) {
        None
    } else {
        Some(service.low)
    }
}

/// Returns the entry that forwards ARP frames.
pub(crate) fn arp_entry() -> Entry
    ensures { result ≡ arp_entry }
{
    Entry {
        priority: 20,
        kind: FrameKind::Arp,
        src: None,
        dst: None,
        proto: None,
        tp_src: None,
        tp_dst: None,
        action: Action::Normal,
    }
}

/// Returns the entry that drops all other frames.
pub(crate) fn other_entry() -> Entry
    ensures { result ≡ other_entry }
{
    Entry {
        priority: 0,
        kind: FrameKind::Any,
        src: None,
        dst: None,
        proto: None,
        tp_src: None,
        tp_dst: None,
        action: Action::Drop,
    }
}
