//! Appends ranges of services and packets to a text.

ghost use Rattle.std.specs.Prelude.{◌≡◌, ◌++◌, OnOk};
ghost use Rattle.pass_core.specs.Passing.{is_wholly};
ghost use Rattle.range_json.specs.RangeJson.{header_json, header_or_null, range_json, service_number_json};

use audit_core::push_address;
use host_net::Packet;
use json_core::{push, push_bool, push_decimal};
use pass_core::PassingRange;
use std::alloc::AllocError;

/// Appends the first members of an object, for a range of services.
pub fn push_range(text: &mut Vec<u8>, range: PassingRange) -> Result<(), AllocError>
    ensures { OnOk result (text.new.items ≡ text.old.items ++ range_json range) }
{
    push(text, b"{\"low\":")?;
    push_service_number(text, range.low)?;
    push(text, b",\"high\":")?;
    push_service_number(text, range.high)?;
    push(text, b",\"whole\":")?;
    push_bool(text, is_wholly(range))
}

// Whether all packets of each service of the range change.
fn is_wholly(range: PassingRange) -> bool
    ensures { result ≡ is_wholly range }
{
    range.stays.is_none()
}

// Appends a service, which is numbered `65536 * protocol + port`.
fn push_service_number(text: &mut Vec<u8>, number: u32) -> Result<(), AllocError>
    ensures { OnOk result (text.new.items ≡ text.old.items ++ service_number_json number) }
{
    push(text, b"[")?;
    push_decimal(text, number / 65536)?;
    push(text, b",")?;
    push_decimal(text, number % 65536)?;
    push(text, b"]")
}

/// Appends a packet, or null.
pub fn push_header_or_null(text: &mut Vec<u8>, packet: Option<Packet>) -> Result<(), AllocError>
    ensures { OnOk result (text.new.items ≡ text.old.items ++ header_or_null packet) }
{
    match packet {
        None => push(text, b"null"),
        Some(packet) => push_header(text, packet),
    }
}

/// Appends a packet by its fields.
pub fn push_header(text: &mut Vec<u8>, packet: Packet) -> Result<(), AllocError>
    ensures { OnOk result (text.new.items ≡ text.old.items ++ header_json packet) }
{
    push(text, b"{\"src\":\"")?;
    push_address(text, packet.src)?;
    push(text, b"\",\"dst\":\"")?;
    push_address(text, packet.dst)?;
    push(text, b"\",\"proto\":")?;
    push_decimal(text, packet.proto as u32)?;
    push(text, b",\"sport\":")?;
    push_decimal(text, packet.sport as u32)?;
    push(text, b",\"dport\":")?;
    push_decimal(text, packet.dport as u32)?;
    push(text, b"}")
}
