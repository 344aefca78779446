//! Parsing a service: `icmp`, `tcp`, `udp/53`, `tcp/8000-8080`.

ghost use Rattle.std.specs.Prelude.{◌≡◌, ◌↔◌, Some, None, IfSome, IsNone, if◌then◌else◌, nat_lt};
ghost use Rattle.text_core.specs.inner.Decimal.{number};
ghost use Rattle.host_net.specs.Service.{max_port};
ghost use Rattle.host_net.specs.ServiceText.{service_of};
ghost use Rattle.host_net.specs.inner.ServiceSteps.{ports_of, protocol_of, service_by_parts, with_ports};
ghost use Rattle.host_net.specs.inner.ServiceText.{IsServiceSpelling};
ghost use Rattle.host_net.specs.declared.service.Service.{Service};

use crate::service::Service;
use text_core::{read_number, split_once};

/// The number of the internet control message protocol (RFC 792).
const ICMP: u8 = 1;

/// The number of the transmission control protocol (RFC 9293).
const TCP: u8 = 6;

/// The number of the user datagram protocol (RFC 768).
const UDP: u8 = 17;

/// The greatest port number.
pub const LAST_PORT: u16 = 65535;

/// Parses `icmp`, `tcp` or `udp`, which select all ports; or, after `tcp/` or `udp/`, a port or a
/// range of ports `80-90` whose first is less than its last. Leading zeros are rejected.
pub fn read_service(text: &[u8]) -> Option<Service>
    ensures exact { result ≡ service_of text.now }
    ensures spelled { IfSome result (IsServiceSpelling text.now) }
    ensures read { (s : Service) → IsServiceSpelling text.now s → result ≡ Some s }
    ensures none { IsNone result ↔ ((s : Service) → ¬ IsServiceSpelling text.now s) }
{
    read_parts(text)
}

#[tactic(auto, unfolding(crate::specs::inner::ServiceSteps::service_by_parts))]
fn read_parts(text: &[u8]) -> Option<Service>
    ensures { result ≡ service_by_parts text.now }
{
    match split_once(text, b'/') {
        None => Some(whole(read_protocol(text)?)),
        Some((protocol, ports)) => with_ports(read_protocol(protocol)?, read_ports(ports)?),
    }
}

/// Returns the number of the protocol with this name: `icmp`, `tcp` or `udp`.
pub fn read_protocol(name: &[u8]) -> Option<u8>
    ensures { result ≡ protocol_of name.now }
{
    if name == b"icmp".as_slice() {
        return Some(ICMP);
    }
    if name == b"tcp".as_slice() {
        return Some(TCP);
    }
    if name == b"udp".as_slice() {
        return Some(UDP);
    }
    None
}

#[tactic(auto, unfolding(crate::specs::inner::ServiceSteps::ports_of))]
fn read_ports(text: &[u8]) -> Option<(u16, u16)>
    ensures { result ≡ ports_of text.now }
{
    match split_once(text, b'-') {
        None => {
            let port = read_port(text)?;
            Some((port, port))
        }
        Some((low, high)) => in_order(read_port(low)?, read_port(high)?),
    }
}

/// Parses a port number.
pub fn read_port(text: &[u8]) -> Option<u16>
    ensures { result ≡ number max_port text.now }
{
    Some(read_number(LAST_PORT as u32, text)? as u16)
}

fn in_order(low: u16, high: u16) -> Option<(u16, u16)>
    ensures { result ≡ (if nat_lt low high then Some (low, high) else None) }
{
    if low < high { Some((low, high)) } else { None }
}

/// Returns the service of every packet of a protocol.
fn whole(proto: u8) -> Service
    ensures { result ≡ record { proto = proto; low = 0; high = max_port } }
{
    Service {
        proto,
        low: 0,
        high: LAST_PORT,
    }
}

/// Returns the service with these ports, if the protocol has ports.
fn with_ports(proto: u8, ports: (u16, u16)) -> Option<Service>
    ensures { result ≡ with_ports proto ports }
{
    if proto == TCP || proto == UDP {
        Some(Service {
            proto,
            low: ports.0,
            high: ports.1,
        })
    } else {
        None
    }
}
