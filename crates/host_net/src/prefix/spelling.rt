//! Parsing a prefix, `a.b.c.d/len`.

ghost use Rattle.std.specs.Prelude.{◌≡◌, ℕ, ◌<◌, ◌≤◌, ◌+◌, ◌*◌, ◌^◌, Some, IfSome};
ghost use Rattle.host_net.specs.Prefix.{address_text, prefix_of, prefix_with};
ghost use Rattle.host_net.specs.PrefixView.{IsSpelling};
ghost use Rattle.host_net.specs.inner.PrefixSteps.{address_of, prefix_by_parts};
ghost use Rattle.host_net.specs.declared.prefix.Prefix.{Prefix};

use crate::prefix::Prefix;
use text_core::{read_number, split_once};

/// Parses `a.b.c.d/len` or `a.b.c.d`, whose length is 32. Leading zeros are rejected. Bits after
/// the length may be set.
pub fn read_prefix(text: &[u8]) -> Option<Prefix>
    ensures exact { result ≡ prefix_of text.now }
    ensures spelled { IfSome result (IsSpelling text.now) }
    ensures read { (p : Prefix) → p.addr < 2 ^ 32 → IsSpelling text.now p → result ≡ Some p }
{
    read_parts(text)
}

#[tactic(auto, unfolding(crate::specs::inner::PrefixSteps::prefix_by_parts))]
fn read_parts(text: &[u8]) -> Option<Prefix>
    ensures { result ≡ prefix_by_parts text.now }
{
    match split_once(text, b'/') {
        None => Some(prefix_with(read_address(text)?, 32)),
        Some((address, len)) => Some(prefix_with(read_address(address)?, read_number(32, len)?)),
    }
}

/// Parses `a.b.c.d`, four numbers of at most 255, without leading zeros.
pub fn read_address(text: &[u8]) -> Option<u32>
    ensures exact { result ≡ address_of text.now }
    ensures said { IfSome result (λ a. text.now ≡ address_text a) }
    ensures read { (a : ℕ) → a < 2 ^ 32 → text.now ≡ address_text a → result ≡ Some a }
{
    read_octets(text)
}

#[tactic(auto, unfolding(crate::specs::inner::PrefixSteps::address_of))]
fn read_octets(text: &[u8]) -> Option<u32>
    ensures { result ≡ address_of text.now }
{
    let (first, rest) = split_once(text, b'.')?;
    let (second, rest) = split_once(rest, b'.')?;
    let (third, fourth) = split_once(rest, b'.')?;
    Some(address_with(
        read_number(255, first)?,
        read_number(255, second)?,
        read_number(255, third)?,
        read_number(255, fourth)?,
    ))
}

fn address_with(a: u32, b: u32, c: u32, d: u32) -> u32
    requires { (a < 256) × (b < 256) × (c < 256) × (d < 256) }
    ensures { result ≡ a * 2 ^ 24 + b * 2 ^ 16 + c * 2 ^ 8 + d }
{
    (a << 24) + (b << 16) + (c << 8) + d
}

fn prefix_with(addr: u32, len: u32) -> Prefix
    requires { len ≤ 32 }
    ensures { result ≡ prefix_with addr len }
{
    Prefix {
        addr,
        len: len as u8,
    }
}
