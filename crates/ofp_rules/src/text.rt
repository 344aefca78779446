//! The text of a table, written line by line into a buffer, without allocation.

ghost use Rattle.std.specs.Prelude.{◌≡◌, ◌<◌, ◌≤◌, ◌++◌, length, take, slice_get, Some, codes, decimal};
ghost use Rattle.text_core.specs.inner.Line.{cut};
ghost use Rattle.host_net.specs.Prefix.{prefix_text};
ghost use Rattle.ofp_rules.specs.declared.entry.FrameKind.TheVariants.{Ip};
ghost use Rattle.ofp_rules.specs.inner.Build.{IsTable};
ghost use Rattle.ofp_rules.specs.Text.{action_text, entry_line, field_text, kind_text, text_lines};

use crate::entry::{Action, Entry, FrameKind};
use crate::table::Table;
use host_net::{Prefix, put_prefix};
use text_core::{put, put_number};

impl Table {
    /// Returns the number of lines of the text.
    pub fn lines(&self) -> u32
        ensures count { result ≡ length (text_lines self.now) }
        ensures table { IsTable self.now }
    {
        self.entries.len() as u32
    }

    /// Writes line `i` of the text, 0-based, with its newline to the start of the buffer, and returns its
    /// length. The rest of the buffer is unspecified.
    pub fn write_line(&self, i: u32, buffer: &mut [u8; 256]) -> usize
        requires { i < length (text_lines self.now) }
        ensures line { slice_get (text_lines self.now) i ≡ Some (take result buffer.new) }
        ensures short { result ≤ 124 }
    {
        write_line_at(&self.entries, i, buffer)
    }
}

fn write_line_at(entries: &[Entry], i: u32, buffer: &mut [u8; 256]) -> usize
    requires { i < length (text_lines entries.now) }
    ensures line { slice_get (text_lines entries.now) i ≡ Some (take result buffer.new) }
    ensures short { result ≤ 124 }
{
    write_entry_line(entries[i as usize], buffer)
}

fn write_entry_line(entry: Entry, buffer: &mut [u8; 256]) -> usize
    ensures line { take result buffer.new ≡ entry_line entry }
    ensures short { result ≤ 124 }
{
    let name = put(buffer, 0, b"priority=");
    let priority = put_number(buffer, name, entry.priority as u64);
    let comma = put(buffer, priority, b",");
    let kind = put_kind(buffer, comma, entry.kind, entry.proto);
    let src = put_part(buffer, kind, b"nw_src=", entry.src);
    let dst = put_part(buffer, src, b"nw_dst=", entry.dst);
    let source = put_port(buffer, dst, b"tp_src=", entry.tp_src);
    let target = put_port(buffer, source, b"tp_dst=", entry.tp_dst);
    let action = put_action(buffer, target, entry.action);
    put(buffer, action, b"\n")
}

#[tactic(auto, using(text_core::proofs::LineLaws::nothing_put))]
fn put_kind(buffer: &mut [u8; 256], at: usize, kind: FrameKind, proto: Option<u8>) -> usize
    requires { at ≤ 256 }
    ensures text { take result buffer.new ≡ cut 256 (take at buffer.old ++ kind_text kind proto) }
    ensures within { result ≤ 256 }
{
    match (kind, proto) {
        (FrameKind::Any, _) => at,
        (FrameKind::Arp, _) => put(buffer, at, b"arp,"),
        (FrameKind::Ip, None) => put(buffer, at, b"ip,"),
        (FrameKind::Ip, Some(proto)) => put_protocol(buffer, at, proto),
    }
}

fn put_protocol(buffer: &mut [u8; 256], at: usize, proto: u8) -> usize
    requires { at ≤ 256 }
    ensures text { take result buffer.new ≡ cut 256 (take at buffer.old ++ kind_text Ip (Some proto)) }
    ensures within { result ≤ 256 }
{
    match proto {
        1 => put(buffer, at, b"icmp,"),
        6 => put(buffer, at, b"tcp,"),
        17 => put(buffer, at, b"udp,"),
        _ => put_other_protocol(buffer, at, proto),
    }
}

fn put_other_protocol(buffer: &mut [u8; 256], at: usize, proto: u8) -> usize
    requires { at ≤ 256 }
    ensures text { take result buffer.new ≡ cut 256 (take at buffer.old ++ (codes "ip,nw_proto=" ++ (decimal proto ++ codes ","))) }
    ensures within { result ≤ 256 }
{
    let name = put(buffer, at, b"ip,nw_proto=");
    let number = put_number(buffer, name, proto as u64);
    put(buffer, number, b",")
}

#[tactic(auto, using(text_core::proofs::LineLaws::nothing_put))]
fn put_part(buffer: &mut [u8; 256], at: usize, name: &[u8], part: Option<Prefix>) -> usize
    requires { at ≤ 256 }
    ensures text { take result buffer.new ≡ cut 256 (take at buffer.old ++ field_text name.now prefix_text part) }
    ensures within { result ≤ 256 }
{
    match part {
        None => at,
        Some(prefix) => {
            let name = put(buffer, at, name);
            let prefix = put_prefix(buffer, name, prefix);
            put(buffer, prefix, b",")
        }
    }
}

#[tactic(auto, using(text_core::proofs::LineLaws::nothing_put))]
fn put_port(buffer: &mut [u8; 256], at: usize, name: &[u8], port: Option<u16>) -> usize
    requires { at ≤ 256 }
    ensures text { take result buffer.new ≡ cut 256 (take at buffer.old ++ field_text name.now decimal port) }
    ensures within { result ≤ 256 }
{
    match port {
        None => at,
        Some(port) => {
            let name = put(buffer, at, name);
            let number = put_number(buffer, name, port as u64);
            put(buffer, number, b",")
        }
    }
}

fn put_action(buffer: &mut [u8; 256], at: usize, action: Action) -> usize
    requires { at ≤ 256 }
    ensures text { take result buffer.new ≡ cut 256 (take at buffer.old ++ action_text action) }
    ensures within { result ≤ 256 }
{
    match action {
        Action::Normal => put(buffer, at, b"actions=NORMAL"),
        Action::Drop => put(buffer, at, b"actions=drop"),
    }
}
