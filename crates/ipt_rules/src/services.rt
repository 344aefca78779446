//! Writers of the options of a rule line for protocols and ports. Each appends to the content of the buffer.

ghost use Rattle.std.specs.Prelude.{◌≡◌, ◌≤◌, ◌++◌, ◌||◌, take, is_some, codes, decimal, if◌then◌else◌, nat_lt, [], IsTrue, Some};
ghost use Rattle.text_core.specs.inner.Line.{cut};
ghost use Rattle.host_net.specs.ServiceText.{protocol_text};
ghost use Rattle.ipt_rules.specs.inner.RuleParts.{is_rule};
ghost use Rattle.ipt_rules.specs.Text.{module_text, port_text, ports_text, service_text};

use crate::pieces::put_negation;
use crate::rule::{PortMatch, ProtoMatch, Rule};
use text_core::{put, put_number};

/// Appends the protocol and the ports that a rule matches on. A rule matches on ports only together with a
/// protocol.
pub(crate) fn put_service(buffer: &mut [u8; 320], at: usize, rule: &Rule) -> usize
    requires fits { at ≤ 320 }
    requires parts { IsTrue (is_rule rule.now) }
    ensures text { take result buffer.new ≡ cut 320 (take at buffer.old ++ service_text rule.now.proto rule.now.sport rule.now.dport) }
    ensures within { result ≤ 320 }
{
    match rule.proto {
        None => at,
        Some(asked) => put_asked(buffer, at, asked, rule),
    }
}

fn put_asked(buffer: &mut [u8; 320], at: usize, asked: ProtoMatch, rule: &Rule) -> usize
    requires { at ≤ 320 }
    ensures text { take result buffer.new ≡ cut 320 (take at buffer.old ++ service_text (Some asked) rule.now.sport rule.now.dport) }
    ensures within { result ≤ 320 }
{
    let mark = put_negation(buffer, at, asked.negated);
    let option = put(buffer, mark, b" -p ");
    let proto = put_protocol(buffer, option, asked.proto);
    let module = put_module(buffer, proto, asked, asks_for_ports(rule));
    let sport = put_port_part(buffer, module, b" --sport ", rule.sport);
    put_port_part(buffer, sport, b" --dport ", rule.dport)
}

fn asks_for_ports(rule: &Rule) -> bool
    ensures { result ≡ (is_some rule.now.sport || is_some rule.now.dport) }
{
    rule.sport.is_some() || rule.dport.is_some()
}

#[tactic(auto, using(text_core::proofs::LineLaws::nothing_put))]
fn put_module(buffer: &mut [u8; 320], at: usize, asked: ProtoMatch, ports: bool) -> usize
    requires { at ≤ 320 }
    ensures text { take result buffer.new ≡ cut 320 (take at buffer.old ++ module_text (Some asked) ports) }
    ensures within { result ≤ 320 }
{
    if ports {
        let option = put(buffer, at, b" -m ");
        put_protocol(buffer, option, asked.proto)
    } else {
        at
    }
}

fn put_protocol(buffer: &mut [u8; 320], at: usize, proto: u8) -> usize
    requires { at ≤ 320 }
    ensures text { take result buffer.new ≡ cut 320 (take at buffer.old ++ protocol_text proto) }
    ensures within { result ≤ 320 }
{
    match proto {
        1 => put(buffer, at, b"icmp"),
        6 => put(buffer, at, b"tcp"),
        17 => put(buffer, at, b"udp"),
        _ => put_number(buffer, at, proto as u64),
    }
}

#[tactic(auto, using(text_core::proofs::LineLaws::nothing_put))]
fn put_port_part(buffer: &mut [u8; 320], at: usize, option: &[u8], part: Option<PortMatch>) -> usize
    requires { at ≤ 320 }
    ensures text { take result buffer.new ≡ cut 320 (take at buffer.old ++ port_text option.now part) }
    ensures within { result ≤ 320 }
{
    match part {
        None => at,
        Some(asked) => {
            let mark = put_negation(buffer, at, asked.negated);
            let option = put(buffer, mark, option);
            put_ports(buffer, option, asked.low, asked.high)
        }
    }
}

fn put_ports(buffer: &mut [u8; 320], at: usize, low: u16, high: u16) -> usize
    requires { at ≤ 320 }
    ensures text { take result buffer.new ≡ cut 320 (take at buffer.old ++ ports_text low high) }
    ensures within { result ≤ 320 }
{
    let first = put_number(buffer, at, low as u64);
    put_last_port(buffer, first, low, high)
}

#[tactic(auto, using(text_core::proofs::LineLaws::nothing_put))]
fn put_last_port(buffer: &mut [u8; 320], at: usize, low: u16, high: u16) -> usize
    requires { at ≤ 320 }
    ensures text { take result buffer.new ≡ cut 320 (take at buffer.old ++ (if nat_lt low high then codes ":" ++ decimal high else [])) }
    ensures within { result ≤ 320 }
{
    if low < high {
        let colon = put(buffer, at, b":");
        put_number(buffer, colon, high as u64)
    } else {
        at
    }
}
