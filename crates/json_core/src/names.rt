//! Appends hosts, flows, services and numbers of invariants to a text.

ghost use Rattle.std.specs.Prelude.{◌≡◌, ◌<◌, ◌++◌, [], length, slice_get, OnOk};
ghost use Rattle.std.specs.List.{range_with_len};
ghost use Rattle.std.specs.Option.{ForSome, option_map_or};
ghost use Rattle.flow_set.specs.Flow.{IsFlow};
ghost use Rattle.flow_set.specs.inner.FlowSetView.{IsFlowSet};
ghost use Rattle.host_net.specs.ServiceText.{ports_text, protocol_text};
ghost use Rattle.json_core.specs.Json.{array_json, flow_json, host_entry_json, host_json, is_rest, number_json, owner_json, prefix_json, separated, service_json, service_ports_text};

use crate::array::{ItemWriter, push_array};
use crate::values::{push, push_bool, push_comma, push_number, push_string};
use flow_set::{Flow, FlowSet};
use host_net::{Hosts, LAST_PORT, Prefix, Service, put_prefix};
use std::alloc::AllocError;

/// Appends a host by its name.
pub fn push_host(text: &mut Vec<u8>, hosts: &Hosts, host: u16) -> Result<(), AllocError>
    requires { host < length hosts.now }
    ensures { OnOk result (text.new.items ≡ text.old.items ++ host_json hosts.now host) }
{
    let name = hosts.name(host);
    push_string(text, name.bytes())
}

/// Appends a host by its name, or null for the addresses that no host owns.
pub fn push_owner(text: &mut Vec<u8>, hosts: &Hosts, owner: Option<u16>) -> Result<(), AllocError>
    requires { ForSome owner (λ host. host < length hosts.now) }
    ensures { OnOk result (text.new.items ≡ text.old.items ++ owner_json hosts.now owner) }
{
    match owner {
        None => push(text, b"null"),
        Some(host) => push_host(text, hosts, host),
    }
}

/// Appends a flow by the names of its hosts.
pub fn push_flow(text: &mut Vec<u8>, hosts: &Hosts, flow: Flow) -> Result<(), AllocError>
    requires { IsFlow (length hosts.now) flow }
    ensures { OnOk result (text.new.items ≡ text.old.items ++ flow_json hosts.now flow) }
{
    push(text, b"[")?;
    push_host(text, hosts, flow.from)?;
    push(text, b",")?;
    push_host(text, hosts, flow.to)?;
    push(text, b"]")
}

/// Appends the flows as an array.
pub fn push_flows(text: &mut Vec<u8>, hosts: &Hosts, flows: &FlowSet) -> Result<(), AllocError>
    requires { IsFlowSet (length hosts.now) flows.now.flows }
    ensures { OnOk result (text.new.items ≡ text.old.items ++ array_json (flow_json hosts.now) flows.now.flows) }
{
    push(text, b"[")?;
    push_each_flow(text, hosts, flows)?;
    push(text, b"]")
}

fn push_each_flow(text: &mut Vec<u8>, hosts: &Hosts, flows: &FlowSet) -> Result<(), AllocError>
    requires { IsFlowSet (length hosts.now) flows.now.flows }
    ensures { OnOk result (text.new.items ≡ text.old.items ++ separated (flow_json hosts.now) flows.now.flows) }
{
    let mut first = true;
    for flow in flows.iter() {
        push_comma(text, first)?;
        push_flow(text, hosts, flow)?;
        first = false;
    }
    Ok(())
}

/// The writer of services.
#[derive(Drop)]
pub struct ServiceWriter;

impl ItemWriter<Service> for ServiceWriter {
    ghost use Rattle.json_core.specs.Json.{service_json};

    ghost fits = { λ _ _. Unit {0} };

    ghost item_json = { λ _ service. service_json service };

    fn push(&self, text: &mut Vec<u8>, item: &Service) -> Result<(), AllocError> {
        push_service(text, *item)
    }
}

fn push_service(text: &mut Vec<u8>, service: Service) -> Result<(), AllocError>
    ensures { OnOk result (text.new.items ≡ text.old.items ++ service_json service) }
{
    push(text, b"\"")?;
    push_protocol(text, service.proto)?;
    push_service_ports(text, service)?;
    push(text, b"\"")
}

fn push_protocol(text: &mut Vec<u8>, protocol: u8) -> Result<(), AllocError>
    ensures { OnOk result (text.new.items ≡ text.old.items ++ protocol_text protocol) }
{
    let mut digits = itoa::Buffer::new();
    match protocol {
        1 => push(text, b"icmp"),
        6 => push(text, b"tcp"),
        17 => push(text, b"udp"),
        _ => push(text, digits.format(protocol).as_bytes()),
    }
}

fn push_service_ports(text: &mut Vec<u8>, service: Service) -> Result<(), AllocError>
    ensures { OnOk result (text.new.items ≡ text.old.items ++ service_ports_text service) }
{
    if service.low == 0 && service.high == LAST_PORT {
        return Ok(());
    }
    push(text, b"/")?;
    push_ports(text, service.low, service.high)
}

fn push_ports(text: &mut Vec<u8>, low: u16, high: u16) -> Result<(), AllocError>
    ensures { OnOk result (text.new.items ≡ text.old.items ++ ports_text low high) }
{
    let mut digits = itoa::Buffer::new();
    push(text, digits.format(low).as_bytes())?;
    if low == high {
        return Ok(());
    }
    let mut last = itoa::Buffer::new();
    push(text, b"-")?;
    push(text, last.format(high).as_bytes())
}

// The writer of prefixes.
#[derive(Drop)]
struct PrefixWriter;

impl ItemWriter<Prefix> for PrefixWriter {
    ghost use Rattle.json_core.specs.Json.{prefix_json};

    ghost fits = { λ _ _. Unit {0} };

    ghost item_json = { λ _ prefix. prefix_json prefix };

    fn push(&self, text: &mut Vec<u8>, item: &Prefix) -> Result<(), AllocError> {
        push_prefix(text, *item)
    }
}

fn push_prefix(text: &mut Vec<u8>, prefix: Prefix) -> Result<(), AllocError>
    ensures { OnOk result (text.new.items ≡ text.old.items ++ prefix_json prefix) }
{
    let mut line = [0; 32];
    let length = put_prefix(&mut line, 0, prefix);
    push_string(text, &line[..length])
}

/// Appends all hosts as an array, each with its prefixes and the mark of the rest host.
pub fn push_hosts(text: &mut Vec<u8>, hosts: &Hosts) -> Result<(), AllocError>
    ensures { OnOk result (text.new.items ≡ text.old.items ++ array_json (host_entry_json hosts.now) (range_with_len 0 (length hosts.now))) }
{
    push(text, b"[")?;
    push_each_host(text, hosts)?;
    push(text, b"]")
}

fn push_each_host(text: &mut Vec<u8>, hosts: &Hosts) -> Result<(), AllocError>
    ensures { OnOk result (text.new.items ≡ text.old.items ++ separated (host_entry_json hosts.now) (range_with_len 0 (length hosts.now))) }
{
    for host in 0..hosts.count() {
        push_comma(text, host == 0)?;
        push_host_entry(text, hosts, host)?;
    }
    Ok(())
}

fn push_host_entry(text: &mut Vec<u8>, hosts: &Hosts, host: u16) -> Result<(), AllocError>
    requires { host < length hosts.now }
    ensures { OnOk result (text.new.items ≡ text.old.items ++ host_entry_json hosts.now host) }
{
    push(text, b"{\"name\":")?;
    push_host(text, hosts, host)?;
    push(text, b",\"at\":")?;
    push_prefixes(text, hosts, host)?;
    push(text, b",\"rest\":")?;
    push_bool(text, is_rest(hosts, host))?;
    push(text, b"}")
}

fn push_prefixes(text: &mut Vec<u8>, hosts: &Hosts, host: u16) -> Result<(), AllocError>
    requires { host < length hosts.now }
    ensures { OnOk result (text.new.items ≡ text.old.items
        ++ array_json prefix_json (option_map_or (λ h. h.prefixes) (slice_get hosts.now host) [])) }
{
    let prefixes = hosts.prefixes(host);
    push_array(text, &PrefixWriter, prefixes)
}

// Whether the host is the rest host.
fn is_rest(hosts: &Hosts, host: u16) -> bool
    ensures { result ≡ is_rest hosts.now host }
{
    match hosts.rest() {
        Some(rest) => rest == host,
        None => false,
    }
}

/// Appends numbers of invariants as an array.
pub fn push_numbers(text: &mut Vec<u8>, numbers: &[u16]) -> Result<(), AllocError>
    ensures { OnOk result (text.new.items ≡ text.old.items ++ array_json number_json numbers.now) }
{
    push_array(text, &NumberWriter, numbers)
}

// The writer of numbers of invariants.
#[derive(Drop)]
struct NumberWriter;

impl ItemWriter<u16> for NumberWriter {
    ghost use Rattle.json_core.specs.Json.{number_json};

    ghost fits = { λ _ _. Unit {0} };

    ghost item_json = { λ _ number. number_json number };

    fn push(&self, text: &mut Vec<u8>, item: &u16) -> Result<(), AllocError> {
        push_number(text, *item)
    }
}
