//! The text of a finding, and the line for too many classes.

ghost use Rattle.std.specs.Prelude.{◌≡◌, ◌<◌, ◌++◌, IfOk, OnOk, codes, decimal};
ghost use Rattle.host_net.specs.Prefix.{address_text, octet};
ghost use Rattle.audit_core.specs.FindingText.{addresses_text, classes_line, numbers_text, packet_line, packet_text, some_line, trace_text, verdict_line};
ghost use Rattle.audit_core.specs.inner.FindingText.{finding_text};

use crate::finding::{Finding, Trace};
use host_net::Packet;
use std::alloc::{AllocError, Global};

/// Returns `equal`, or `differ`, the packets in the order in which they are seen, and whether the rules
/// forward the last one.
pub fn finding_text(alloc: Global, finding: &Finding) -> Result<Vec<u8>, AllocError>
    ensures { IfOk result (λ text. text.items ≡ finding_text finding.now) }
{
    let mut text = Vec::new(alloc);
    push_finding(&mut text, finding)?;
    Ok(text)
}

/// Returns the line that states the number of classes if there are too many.
pub fn classes_line(alloc: Global, count: u128) -> Result<Vec<u8>, AllocError>
    ensures { IfOk result (λ line. line.items ≡ classes_line count) }
{
    let mut digits = itoa::Buffer::new();
    let mut line = Vec::new(alloc);
    line.extend_from_slice(b"topos: not emittable: ")?;
    line.extend_from_slice(digits.format(count).as_bytes())?;
    line.extend_from_slice(b" classes exceed 4000000\n")?;
    Ok(line)
}

fn push_finding(text: &mut Vec<u8>, finding: &Finding) -> Result<(), AllocError>
    ensures { OnOk result (text.new.items ≡ text.old.items ++ finding_text finding.now) }
{
    match finding {
        Finding::Equal => text.extend_from_slice(b"equal\n"),
        Finding::Differ(trace) => push_trace(text, *trace),
    }
}

fn push_trace(text: &mut Vec<u8>, trace: Trace) -> Result<(), AllocError>
    ensures { OnOk result (text.new.items ≡ text.old.items ++ trace_text trace) }
{
    text.extend_from_slice(b"differ\n")?;
    push_packet(text, trace.first)?;
    push_some(text, trace.second)?;
    push_some(text, trace.third)?;
    push_verdict(text, trace.forwards)
}

fn push_verdict(text: &mut Vec<u8>, forwards: bool) -> Result<(), AllocError>
    ensures { OnOk result (text.new.items ≡ text.old.items ++ verdict_line forwards) }
{
    if forwards {
        text.extend_from_slice(b"text forwards\n")
    } else {
        text.extend_from_slice(b"text drops\n")
    }
}

fn push_some(text: &mut Vec<u8>, packet: Option<Packet>) -> Result<(), AllocError>
    ensures { OnOk result (text.new.items ≡ text.old.items ++ some_line packet) }
{
    match packet {
        None => Ok(()),
        Some(packet) => push_packet(text, packet),
    }
}

fn push_packet(text: &mut Vec<u8>, packet: Packet) -> Result<(), AllocError>
    ensures { OnOk result (text.new.items ≡ text.old.items ++ packet_line packet) }
{
    push_packet_text(text, packet)?;
    text.extend_from_slice(b"\n")
}

/// Appends a packet as a line of an event file, without a newline.
pub fn push_packet_text(text: &mut Vec<u8>, packet: Packet) -> Result<(), AllocError>
    ensures { OnOk result (text.new.items ≡ text.old.items ++ packet_text packet) }
{
    text.extend_from_slice(b"packet")?;
    push_addresses(text, packet)?;
    push_numbers(text, packet)
}

fn push_addresses(text: &mut Vec<u8>, packet: Packet) -> Result<(), AllocError>
    ensures { OnOk result (text.new.items ≡ text.old.items ++ addresses_text packet) }
{
    text.extend_from_slice(b" ")?;
    push_address(text, packet.src)?;
    text.extend_from_slice(b" ")?;
    push_address(text, packet.dst)
}

fn push_numbers(text: &mut Vec<u8>, packet: Packet) -> Result<(), AllocError>
    ensures { OnOk result (text.new.items ≡ text.old.items ++ numbers_text packet) }
{
    text.extend_from_slice(b" ")?;
    push_number(text, packet.proto as u32)?;
    text.extend_from_slice(b" ")?;
    push_number(text, packet.sport as u32)?;
    text.extend_from_slice(b" ")?;
    push_number(text, packet.dport as u32)
}

/// Appends an address in dotted form.
#[tactic(auto, unfolding(host_net::specs::Prefix::address_text))]
pub fn push_address(text: &mut Vec<u8>, address: u32) -> Result<(), AllocError>
    ensures { OnOk result (text.new.items ≡ text.old.items ++ address_text address) }
{
    push_number(text, octet(address, 24))?;
    text.extend_from_slice(b".")?;
    push_number(text, octet(address, 16))?;
    text.extend_from_slice(b".")?;
    push_number(text, octet(address, 8))?;
    text.extend_from_slice(b".")?;
    push_number(text, octet(address, 0))
}

#[tactic(auto, unfolding(host_net::specs::Prefix::octet))]
fn octet(address: u32, place: u8) -> u32
    requires { place < 32 }
    ensures { result ≡ octet address place }
{
    (address >> place) % 256
}

fn push_number(text: &mut Vec<u8>, number: u32) -> Result<(), AllocError>
    ensures { OnOk result (text.new.items ≡ text.old.items ++ decimal number) }
{
    let mut digits = itoa::Buffer::new();
    text.extend_from_slice(digits.format(number).as_bytes())
}
