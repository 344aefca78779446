//! Appends single JSON values to a text.

ghost use Rattle.std.specs.Prelude.{◌≡◌, ◌++◌, OnOk, decimal};
ghost use Rattle.std.specs.List.{flat_map};
ghost use Rattle.json_core.specs.Json.{bool_json, comma, escaped_byte, escaped_json, is_escaped, number_json, string_json};

use std::alloc::AllocError;

/// Appends bytes.
pub fn push(text: &mut Vec<u8>, bytes: &[u8]) -> Result<(), AllocError>
    ensures { OnOk result (text.new.items ≡ text.old.items ++ bytes.now) }
{
    text.extend_from_slice(bytes)
}

/// Appends a boolean.
pub fn push_bool(text: &mut Vec<u8>, value: bool) -> Result<(), AllocError>
    ensures { OnOk result (text.new.items ≡ text.old.items ++ bool_json value) }
{
    if value {
        push(text, b"true")
    } else {
        push(text, b"false")
    }
}

/// Appends a string of bytes that need no escape.
pub fn push_string(text: &mut Vec<u8>, bytes: &[u8]) -> Result<(), AllocError>
    ensures { OnOk result (text.new.items ≡ text.old.items ++ string_json bytes.now) }
{
    push(text, b"\"")?;
    push(text, bytes)?;
    push(text, b"\"")
}

/// Appends the number of an invariant, counted from 1.
pub fn push_number(text: &mut Vec<u8>, number: u16) -> Result<(), AllocError>
    ensures { OnOk result (text.new.items ≡ text.old.items ++ number_json number) }
{
    push_rule_number(text, number as u32)
}

/// Appends the separator before an item of an array.
pub(crate) fn push_comma(text: &mut Vec<u8>, first: bool) -> Result<(), AllocError>
    ensures { OnOk result (text.new.items ≡ text.old.items ++ comma first) }
{
    if first { Ok(()) } else { push(text, b",") }
}

/// Appends a number.
pub fn push_decimal(text: &mut Vec<u8>, number: u32) -> Result<(), AllocError>
    ensures { OnOk result (text.new.items ≡ text.old.items ++ decimal number) }
{
    let mut digits = itoa::Buffer::new();
    push(text, digits.format(number).as_bytes())
}

/// Appends the number of a rule or of an entry, counted from 1.
pub fn push_rule_number(text: &mut Vec<u8>, number: u32) -> Result<(), AllocError>
    ensures { OnOk result (text.new.items ≡ text.old.items ++ number_json number) }
{
    let mut digits = itoa::Buffer::new();
    let place = number as usize;
    push(text, digits.format(place + 1).as_bytes())
}

/// Appends a string of printing bytes.
pub fn push_escaped(text: &mut Vec<u8>, bytes: &[u8]) -> Result<(), AllocError>
    ensures { OnOk result (text.new.items ≡ text.old.items ++ escaped_json bytes.now) }
{
    push(text, b"\"")?;
    push_escaped_bytes(text, bytes)?;
    push(text, b"\"")
}

fn push_escaped_bytes(text: &mut Vec<u8>, bytes: &[u8]) -> Result<(), AllocError>
    ensures { OnOk result (text.new.items ≡ text.old.items ++ flat_map escaped_byte bytes.now) }
{
    for byte in bytes {
        push_escaped_byte(text, *byte)?;
    }
    Ok(())
}

fn push_escaped_byte(text: &mut Vec<u8>, byte: u8) -> Result<(), AllocError>
    ensures { OnOk result (text.new.items ≡ text.old.items ++ escaped_byte byte) }
{
    if is_escaped(byte) {
        push(text, &[b'\\', byte])
    } else {
        push(text, &[byte])
    }
}

fn is_escaped(byte: u8) -> bool
    ensures { result ≡ is_escaped byte }
{
    byte == b'"' || byte == b'\\'
}
