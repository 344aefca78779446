//! One flow line: its fields, its action, and the entry that they encode.

ghost use Rattle.std.specs.Prelude.{◌≡◌, true, false, Option, List, ℕ, IfErr, IfOk, position};
ghost use Rattle.std.specs.Option.{option_map_or};
ghost use Rattle.text_core.specs.Lines.{words, is_blank};
ghost use Rattle.host_net.specs.Service.{has_ports};
ghost use Rattle.ofp_rules.specs.Matching.{asks_of_ip};
ghost use Rattle.ofp_read.specs.Grammar.{Writes, is_separator};
ghost use Rattle.ofp_read.specs.Unwritten.{IsUnwritten};
ghost use Rattle.ofp_read.specs.inner.FlowLine.{action_of, entry_of, nothing_given, with_action};
ghost use Rattle.ofp_read.specs.inner.Cut.{IsCut, begins_action};

use crate::fault::OfpWhy;
use crate::field::with_piece;
use crate::given::Given;
use ofp_rules::{Action, Entry, FrameKind};
use text_core::Words;

const EMPTY_FIELDS: Given = Given {
    priority: None,
    table: false,
    kind: None,
    src: None,
    dst: None,
    proto: None,
    tp_src: None,
    tp_dst: None,
};

fn is_separator(byte: u8) -> bool
    ensures { result ≡ is_separator byte }
{
    byte == b',' || byte == b' ' || byte == b'\t'
}

fn begins_action(text: &[u8]) -> bool
    ensures { result ≡ begins_action text.now }
{
    text.starts_with(b"actions=")
}

/// Returns the text before the first separator, and the text behind it.
fn cut_piece(text: &[u8]) -> (&[u8], &[u8])
    ensures { IsCut text.now result.0.now result.1.now }
{
    match place_of_separator(text) {
        Some(at) => (&text[..at], &text[at + 1..]),
        None => (text, &[]),
    }
}

fn place_of_separator(text: &[u8]) -> Option<usize>
    ensures { result ≡ position is_separator text.now }
{
    text.iter().position(|byte| is_separator(*byte))
}

/// Returns the action of a text that consists of one known token beginning with `actions=`.
fn read_action(text: &[u8]) -> Option<Action>
    ensures { result ≡ action_of (words text.now) }
{
    let mut words = Words::new(text);
    let word = words.next_word()?;
    if words.next_word().is_some() {
        return None;
    }
    if word == b"actions=NORMAL".as_slice() || word == b"actions=normal".as_slice() {
        return Some(Action::Normal);
    }
    if word == b"actions=drop".as_slice() {
        return Some(Action::Drop);
    }
    None
}

fn entry_of(given: Given, action: Action) -> Entry
    ensures { result ≡ entry_of given action }
{
    Entry {
        priority: given.priority.unwrap_or(32768),
        kind: given.kind.unwrap_or(FrameKind::Any),
        src: given.src,
        dst: given.dst,
        proto: given.proto,
        tp_src: given.tp_src,
        tp_dst: given.tp_dst,
        action,
    }
}

fn with_action(given: Given, action: Option<Action>) -> Result<Entry, OfpWhy>
    ensures { result ≡ with_action given action }
{
    let Some(action) = action else {
        return Err(OfpWhy::UnknownAction);
    };
    let entry = entry_of(given, action);
    if asks_of_ip(entry) {
        Ok(entry)
    } else {
        Err(OfpWhy::NeedsIp)
    }
}

/// Whether the entry matches only on fields that its frames have: addresses and a protocol only for
/// IPv4 frames, and ports only for a protocol with ports.
fn asks_of_ip(entry: Entry) -> bool
    ensures { result ≡ asks_of_ip entry }
{
    let of_ip = entry.src.is_some() || entry.dst.is_some() || entry.proto.is_some();
    let ports = entry.tp_src.is_some() || entry.tp_dst.is_some();
    (entry.kind == FrameKind::Ip || !of_ip) && (has_ports(entry.proto) || !ports)
}

fn has_ports(proto: Option<u8>) -> bool
    ensures { result ≡ option_map_or has_ports proto false }
{
    matches!(proto, Some(6 | 17))
}

/// Parses the entry of a line. Its fields are checked from left to right, then its action.
pub(crate) fn read_flow(line: &[u8]) -> Result<Entry, OfpWhy>
    ensures ok { IfOk result (Writes line.now) }
    ensures err { IfErr result (IsUnwritten line.now) }
{
    let mut given = EMPTY_FIELDS;
    let mut rest = line;
    while !rest.is_empty() {
        if begins_action(rest) {
            return with_action(given, read_action(rest));
        }
        let (piece, behind) = cut_piece(rest);
        given = with_piece(given, piece)?;
        rest = behind;
    }
    Err(OfpWhy::BadLine)
}
