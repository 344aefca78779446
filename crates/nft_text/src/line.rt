//! Pieces that are whole lines: rules with matches, and the heads of chains and maps.

ghost use Rattle.std.specs.Prelude.{◌≡◌, ◌≤◌, ◌++◌, Some, None, codes, decimal, length, take};
ghost use Rattle.text_core.specs.inner.Line.{cut};
ghost use Rattle.host_net.specs.ServiceText.{ports_text, protocol_text};
ghost use Rattle.nft_text.specs.Text.{chain_head, map_head, match_line, port_word, protocol_match, service_match, state_text};
ghost use Rattle.nft_text.specs.inner.Places.{AreShort};

use crate::element::put_verdict;
use nft_rules::{Chain, End, MatchRule, PortMatch, ServiceMatch};
use text_core::{put, put_number};

/// Writes a rule with matches to the start of the buffer, and returns the length.
pub(crate) fn write_match(chains: &[Chain], rule: MatchRule, buffer: &mut [u8; 256]) -> usize
    requires { AreShort chains.now }
    ensures text { take result buffer.new ≡ match_line chains.now rule }
    ensures within { result ≤ 256 }
{
    let tabs = put(buffer, 0, b"\t\t");
    let state = put_state(buffer, tabs, rule.established);
    let service = put_service(buffer, state, rule.service);
    let verdict = put_verdict(chains, rule.verdict, buffer, service);
    put(buffer, verdict, b"\n")
}

/// Writes the first line of a chain to the start of the buffer, and returns the length.
pub(crate) fn write_head(name: &[u8], buffer: &mut [u8; 256]) -> usize
    requires { length name.now ≤ 128 }
    ensures text { take result buffer.new ≡ chain_head name.now }
    ensures within { result ≤ 256 }
{
    let word = put(buffer, 0, b"\tchain ");
    let name = put(buffer, word, name);
    put(buffer, name, b" {\n")
}

/// Writes a piece to the start of the buffer, and returns the length.
pub(crate) fn write(piece: &[u8], buffer: &mut [u8; 256]) -> usize
    requires { length piece.now ≤ 256 }
    ensures text { take result buffer.new ≡ piece.now }
    ensures within { result ≤ 256 }
{
    put(buffer, 0, piece)
}

/// Writes the beginning of a verdict map to the start of the buffer, and returns the length.
pub(crate) fn write_map_head(end: End, buffer: &mut [u8; 256]) -> usize
    ensures text { take result buffer.new ≡ map_head end }
    ensures within { result ≤ 256 }
{
    match end {
        End::Source => write(b"\t\tip saddr vmap { ", buffer),
        End::Destination => write(b"\t\tip daddr vmap { ", buffer),
    }
}

#[tactic(auto, using(text_core::proofs::LineLaws::nothing_put))]
fn put_state(buffer: &mut [u8; 256], at: usize, established: bool) -> usize
    requires { at ≤ 256 }
    ensures text { take result buffer.new ≡ cut 256 (take at buffer.old ++ state_text established) }
    ensures within { result ≤ 256 }
{
    if established {
        return put(buffer, at, b"ct state established ");
    }
    at
}

#[tactic(auto, using(text_core::proofs::LineLaws::nothing_put))]
fn put_service(buffer: &mut [u8; 256], at: usize, service: Option<ServiceMatch>) -> usize
    requires { at ≤ 256 }
    ensures text { take result buffer.new ≡ cut 256 (take at buffer.old ++ service_match service) }
    ensures short { length (service_match service) ≤ 23 }
    ensures within { result ≤ 256 }
{
    match service {
        None => at,
        Some(ServiceMatch { proto, ports: None }) => put_protocol_match(buffer, at, proto),
        Some(
            ServiceMatch {
                proto,
                ports: Some(ports),
            },
        ) => put_port_match(buffer, at, proto, ports),
    }
}

fn put_protocol_match(buffer: &mut [u8; 256], at: usize, proto: u8) -> usize
    requires { at ≤ 256 }
    ensures text { take result buffer.new ≡ cut 256 (take at buffer.old ++ protocol_match proto None) }
    ensures short { length (protocol_match proto None) ≤ 23 }
    ensures within { result ≤ 256 }
{
    let key = put(buffer, at, b"meta l4proto ");
    let proto = put_protocol(buffer, key, proto);
    put(buffer, proto, b" ")
}

fn put_port_match(buffer: &mut [u8; 256], at: usize, proto: u8, ports: PortMatch) -> usize
    requires { at ≤ 256 }
    ensures text { take result buffer.new ≡ cut 256 (take at buffer.old ++ protocol_match proto (Some ports)) }
    ensures short { length (protocol_match proto (Some ports)) ≤ 23 }
    ensures within { result ≤ 256 }
{
    let proto = put_protocol(buffer, at, proto);
    let end = put_port_word(buffer, proto, ports.end);
    let range = put_ports(buffer, end, ports.low, ports.high);
    put(buffer, range, b" ")
}

#[tactic(auto, using(crate::proofs::LengthLaws::protocol_short))]
fn put_protocol(buffer: &mut [u8; 256], at: usize, proto: u8) -> usize
    requires { at ≤ 256 }
    ensures text { take result buffer.new ≡ cut 256 (take at buffer.old ++ protocol_text proto) }
    ensures short { length (protocol_text proto) ≤ 4 }
    ensures within { result ≤ 256 }
{
    match proto {
        1 => put(buffer, at, b"icmp"),
        6 => put(buffer, at, b"tcp"),
        17 => put(buffer, at, b"udp"),
        _ => put_number(buffer, at, proto as u64),
    }
}

fn put_port_word(buffer: &mut [u8; 256], at: usize, end: End) -> usize
    requires { at ≤ 256 }
    ensures text { take result buffer.new ≡ cut 256 (take at buffer.old ++ port_word end) }
    ensures within { result ≤ 256 }
{
    match end {
        End::Source => put(buffer, at, b" sport "),
        End::Destination => put(buffer, at, b" dport "),
    }
}

#[tactic(auto, using(crate::proofs::LengthLaws::ports_short))]
fn put_ports(buffer: &mut [u8; 256], at: usize, low: u16, high: u16) -> usize
    requires { at ≤ 256 }
    ensures text { take result buffer.new ≡ cut 256 (take at buffer.old ++ ports_text low high) }
    ensures short { length (ports_text low high) ≤ 11 }
    ensures within { result ≤ 256 }
{
    if low == high {
        return put_number(buffer, at, low as u64);
    }
    put_port_range(buffer, at, low, high)
}

fn put_port_range(buffer: &mut [u8; 256], at: usize, low: u16, high: u16) -> usize
    requires { at ≤ 256 }
    ensures text { take result buffer.new ≡ cut 256 (take at buffer.old ++ (decimal low ++ (codes "-" ++ decimal high))) }
    ensures within { result ≤ 256 }
{
    let first = put_number(buffer, at, low as u64);
    let dash = put(buffer, first, b"-");
    put_number(buffer, dash, high as u64)
}
