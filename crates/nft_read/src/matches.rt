//! Rules that match on a service or a connection state.

ghost use Rattle.std.specs.Prelude.{◌≡◌, ◌≤◌, IfSome, None, Some, length, map};
ghost use Rattle.std.specs.Option.{option_and_then, option_map};
ghost use Rattle.nft_read.specs.inner.ServedView.{parts_of};
ghost use Rattle.nft_read.specs.inner.LineSteps.{match_of, match_with, ports_of, ports_with, protocol_of, served_end, served_meta, served_of, served_ports, served_proto, served_tcp, served_udp, served_with};

use crate::verdict::read_verdict;
use crate::words::after;
use indexmap::IndexSet;
use nft_rules::{End, MatchRule, PortMatch, ServiceMatch};
use text_core::{read_number, split_once};

/// The service of a match, and the rest of its line.
#[derive(Clone, Copy)]
pub(crate) struct Served<'a> {
    pub service: Option<ServiceMatch>,
    pub rest: &'a [u8],
}

/// Parses a rule after the tabs of its line.
pub(crate) fn read_match(names: &IndexSet<Vec<u8>>, text: &[u8]) -> Option<MatchRule>
    requires { length names.now.keys ≤ 100000 }
    ensures { result ≡ match_of (map (λ n. n.items) names.now.keys) text.now }
{
    match after(b"ct state established ", text) {
        Some(rest) => match_with(names, true, read_served(rest)),
        None => match_with(names, false, read_served(text)),
    }
}

fn match_with(
    names: &IndexSet<Vec<u8>>,
    established: bool,
    served: Option<Served<'_>>,
) -> Option<MatchRule>
    requires { length names.now.keys ≤ 100000 }
    ensures { result ≡ option_and_then (match_with (map (λ n. n.items) names.now.keys) established) (option_map parts_of served.entry) }
{
    match served {
        None => None,
        Some(served) => match read_verdict(names, served.rest) {
            None => None,
            Some(verdict) => Some(MatchRule {
                established,
                service: served.service,
                verdict,
            }),
        },
    }
}

/// Parses the service of a match, if there is one.
fn read_served(text: &[u8]) -> Option<Served<'_>>
    ensures { option_map parts_of result ≡ served_of text.now }
{
    match after(b"meta l4proto ", text) {
        Some(rest) => read_protocol(rest),
        None => read_tcp(text),
    }
}

fn read_tcp(text: &[u8]) -> Option<Served<'_>>
    ensures { option_map parts_of result ≡ served_meta text.now None }
{
    match after(b"tcp ", text) {
        Some(rest) => read_ported(6, rest),
        None => read_udp(text),
    }
}

fn read_udp(text: &[u8]) -> Option<Served<'_>>
    ensures { option_map parts_of result ≡ served_tcp text.now None }
{
    match after(b"udp ", text) {
        Some(rest) => read_ported(17, rest),
        None => Some(Served {
            service: None,
            rest: text,
        }),
    }
}

fn read_protocol(text: &[u8]) -> Option<Served<'_>>
    ensures { option_map parts_of result ≡ served_meta text.now (Some text.now) }
{
    let (word, rest) = split_once(text, b' ')?;
    let proto = protocol_of(word)?;
    Some(Served {
        service: Some(ServiceMatch { proto, ports: None }),
        rest,
    })
}

fn protocol_of(text: &[u8]) -> Option<u8>
    ensures { result ≡ protocol_of text.now }
{
    if text == b"icmp".as_slice() {
        return Some(1);
    }
    if text == b"tcp".as_slice() {
        return Some(6);
    }
    if text == b"udp".as_slice() {
        return Some(17);
    }
    None
}

/// Parses a port match of a protocol with ports.
fn read_ported(proto: u8, text: &[u8]) -> Option<Served<'_>>
    ensures { option_map parts_of result ≡ served_with proto text.now }
{
    match after(b"sport ", text) {
        Some(rest) => read_port_match(proto, End::Source, rest),
        None => read_destination(proto, text),
    }
}

fn read_destination(proto: u8, text: &[u8]) -> Option<Served<'_>>
    ensures { option_map parts_of result ≡ served_end proto text.now None }
{
    match after(b"dport ", text) {
        Some(rest) => read_port_match(proto, End::Destination, rest),
        None => None,
    }
}

fn read_port_match(proto: u8, end: End, text: &[u8]) -> Option<Served<'_>>
    ensures { option_map parts_of result ≡ served_ports proto end text.now }
{
    let (word, rest) = split_once(text, b' ')?;
    let ports = ports_of(end, word)?;
    Some(Served {
        service: Some(ServiceMatch {
            proto,
            ports: Some(ports),
        }),
        rest,
    })
}

/// Parses a port, or the first and the last port of a range.
fn ports_of(end: End, text: &[u8]) -> Option<PortMatch>
    ensures { result ≡ ports_of end text.now }
{
    match split_once(text, b'-') {
        None => ports_with(end, read_number(65535, text), read_number(65535, text)),
        Some((low, high)) => ports_with(end, read_number(65535, low), read_number(65535, high)),
    }
}

fn ports_with(end: End, low: Option<u32>, high: Option<u32>) -> Option<PortMatch>
    requires low { IfSome low (λ n. n ≤ 65535) }
    requires high { IfSome high (λ n. n ≤ 65535) }
    ensures { result ≡ ports_with end low high }
{
    match (low, high) {
        (Some(low), Some(high)) => Some(PortMatch {
            end,
            low: low as u16,
            high: high as u16,
        }),
        _ => None,
    }
}
