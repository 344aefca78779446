//! One field of a flow line, by the table of fields.

ghost use Rattle.std.specs.Prelude.{◌≡◌};
ghost use Rattle.ofp_read.specs.inner.FieldTable.{frame_type, is_given, key_named, kind_named, part_of, with_field, with_key, with_kind, with_parts, with_piece, with_table, with_value};

use crate::fault::OfpWhy;
use crate::given::{Given, Key};
use host_net::{read_port, read_prefix};
use ofp_rules::FrameKind;
use text_core::{read_number, split_once};

#[tactic(auto, unfolding(crate::specs::inner::FieldTable::key_named))]
fn key_named(name: &[u8]) -> Option<Key>
    ensures { result ≡ key_named name.now }
{
    if name == b"priority".as_slice() {
        return Some(Key::Priority);
    }
    if name == b"table".as_slice() {
        return Some(Key::Table);
    }
    if name == b"dl_type".as_slice() {
        return Some(Key::FrameType);
    }
    if name == b"nw_src".as_slice() {
        return Some(Key::Source);
    }
    if name == b"nw_dst".as_slice() {
        return Some(Key::Destination);
    }
    if name == b"nw_proto".as_slice() {
        return Some(Key::Protocol);
    }
    if name == b"tp_src".as_slice() {
        return Some(Key::SourcePort);
    }
    if name == b"tp_dst".as_slice() {
        return Some(Key::DestinationPort);
    }
    None
}

/// Returns the frame kind of a name without a value, and the protocol that it names.
#[tactic(auto, unfolding(crate::specs::inner::FieldTable::kind_named))]
fn kind_named(name: &[u8]) -> Option<(FrameKind, Option<u8>)>
    ensures { result ≡ kind_named name.now }
{
    if name == b"ip".as_slice() {
        return Some((FrameKind::Ip, None));
    }
    if name == b"arp".as_slice() {
        return Some((FrameKind::Arp, None));
    }
    if name == b"icmp".as_slice() {
        return Some((FrameKind::Ip, Some(1)));
    }
    if name == b"tcp".as_slice() {
        return Some((FrameKind::Ip, Some(6)));
    }
    if name == b"udp".as_slice() {
        return Some((FrameKind::Ip, Some(17)));
    }
    None
}

fn is_given(given: Given, key: Key) -> bool
    ensures { result ≡ is_given given (part_of key) }
{
    match key {
        Key::Priority => given.priority.is_some(),
        Key::Table => given.table,
        Key::FrameType => given.kind.is_some(),
        Key::Source => given.src.is_some(),
        Key::Destination => given.dst.is_some(),
        Key::Protocol => given.proto.is_some(),
        Key::SourcePort => given.tp_src.is_some(),
        Key::DestinationPort => given.tp_dst.is_some(),
    }
}

#[tactic(auto, unfolding(crate::specs::inner::FieldTable::frame_type))]
fn frame_type(value: &[u8]) -> Option<FrameKind>
    ensures { result ≡ frame_type value.now }
{
    if value == b"0x0800".as_slice() || value == b"0x800".as_slice() {
        return Some(FrameKind::Ip);
    }
    if value == b"0x0806".as_slice() || value == b"0x806".as_slice() {
        return Some(FrameKind::Arp);
    }
    None
}

fn with_table(given: Given, value: &[u8]) -> Option<Given>
    ensures { result ≡ with_table given value.now }
{
    if value == b"0".as_slice() {
        Some(Given {
            table: true,
            ..given
        })
    } else {
        None
    }
}

/// Returns the partial entry with the value of a field, or `None` if the value is invalid.
#[tactic(auto, unfolding(crate::specs::inner::FieldTable::with_value))]
fn with_value(given: Given, key: Key, value: &[u8]) -> Option<Given>
    ensures { result ≡ with_value given key value.now }
{
    match key {
        Key::Priority => {
            let priority = Some(read_number(65535, value)? as u16);
            Some(Given { priority, ..given })
        }
        Key::Table => with_table(given, value),
        Key::FrameType => {
            let kind = Some(frame_type(value)?);
            Some(Given { kind, ..given })
        }
        Key::Source => {
            let src = Some(read_prefix(value)?);
            Some(Given { src, ..given })
        }
        Key::Destination => {
            let dst = Some(read_prefix(value)?);
            Some(Given { dst, ..given })
        }
        Key::Protocol => {
            let proto = Some(read_number(255, value)? as u8);
            Some(Given { proto, ..given })
        }
        Key::SourcePort => {
            let tp_src = Some(read_port(value)?);
            Some(Given { tp_src, ..given })
        }
        Key::DestinationPort => {
            let tp_dst = Some(read_port(value)?);
            Some(Given { tp_dst, ..given })
        }
    }
}

/// Adds the value of a named field: its name is checked first, then repetition, then its value.
fn with_key(given: Given, value: &[u8], key: Option<Key>) -> Result<Given, OfpWhy>
    ensures { result ≡ with_key given value.now key }
{
    let Some(key) = key else {
        return Err(OfpWhy::UnknownField);
    };
    if is_given(given, key) {
        return Err(OfpWhy::BadLine);
    }
    match with_value(given, key, value) {
        Some(now) => Ok(now),
        None => Err(OfpWhy::BadValue),
    }
}

/// Adds a frame kind and a protocol of IPv4 frames.
fn with_kind(given: Given, named: Option<(FrameKind, Option<u8>)>) -> Result<Given, OfpWhy>
    ensures { result ≡ with_kind given named }
{
    let Some((kind, proto)) = named else {
        return Err(OfpWhy::UnknownField);
    };
    let kind = Some(kind);
    match proto {
        None if given.kind.is_some() => Err(OfpWhy::BadLine),
        None => Ok(Given { kind, ..given }),
        Some(_) if given.kind.is_some() || given.proto.is_some() => Err(OfpWhy::BadLine),
        Some(_) => Ok(Given {
            kind,
            proto,
            ..given
        }),
    }
}

fn with_field(given: Given, text: &[u8]) -> Result<Given, OfpWhy>
    ensures { result ≡ with_field given text.now }
{
    match split_once(text, b'=') {
        Some((name, value)) => with_key(given, value, key_named(name)),
        None => with_kind(given, kind_named(text)),
    }
}

/// Adds a field, unless the text is empty.
pub(crate) fn with_piece(given: Given, text: &[u8]) -> Result<Given, OfpWhy>
    ensures { result ≡ with_piece given text.now }
{
    match text {
        [_, ..] => with_field(given, text),
        [] => Ok(given),
    }
}
