//! Intervals of addresses: an address, a prefix, or the first and the last address.

ghost use Rattle.std.specs.Prelude.{◌≡◌, ◌<◌, ◌≤◌, ◌++◌, None, Some, codes, decimal, take};
ghost use Rattle.text_core.specs.inner.Line.{cut};
ghost use Rattle.host_net.specs.Prefix.{address_text, octet, prefix_with};
ghost use Rattle.nft_text.specs.Text.{has_addresses, interval_text, range_prefix, range_text};

use header_space::AddressRange;
use host_net::{Prefix, put_prefix};
use text_core::{put, put_number};

/// Writes an interval after the first `at` bytes, and returns the end of the text.
#[tactic(auto, unfolding(crate::specs::Text::range_text))]
pub(crate) fn put_range(buffer: &mut [u8; 256], at: usize, range: AddressRange) -> usize
    requires { at ≤ 256 }
    ensures text { take result buffer.new ≡ cut 256 (take at buffer.old ++ range_text range) }
    ensures within { result ≤ 256 }
{
    match range_prefix(range) {
        None => put_interval(buffer, at, range),
        Some(prefix) => put_shortest(buffer, at, range, prefix),
    }
}

fn put_interval(buffer: &mut [u8; 256], at: usize, range: AddressRange) -> usize
    requires { at ≤ 256 }
    ensures text { take result buffer.new ≡ cut 256 (take at buffer.old ++ interval_text range None) }
    ensures within { result ≤ 256 }
{
    let first = put_address(buffer, at, range.first);
    let dash = put(buffer, first, b"-");
    put_address(buffer, dash, range.last)
}

/// Writes a prefix, and a single address without a length.
fn put_shortest(buffer: &mut [u8; 256], at: usize, range: AddressRange, prefix: Prefix) -> usize
    requires { at ≤ 256 }
    ensures text { take result buffer.new ≡ cut 256 (take at buffer.old ++ interval_text range (Some prefix)) }
    ensures within { result ≤ 256 }
{
    if prefix.len() == 32 {
        return put_address(buffer, at, prefix.addr());
    }
    put_prefix(buffer, at, prefix)
}

#[tactic(auto, unfolding(host_net::specs::Prefix::address_text))]
fn put_address(buffer: &mut [u8; 256], at: usize, address: u32) -> usize
    requires { at ≤ 256 }
    ensures text { take result buffer.new ≡ cut 256 (take at buffer.old ++ address_text address) }
    ensures within { result ≤ 256 }
{
    let first = put_octet(buffer, at, address, 24);
    let second = put_octet(buffer, first, address, 16);
    let third = put_octet(buffer, second, address, 8);
    put_number(buffer, third, octet(address, 0))
}

/// Writes the octet whose lowest bit is bit `place`, and a dot.
fn put_octet(buffer: &mut [u8; 256], at: usize, address: u32, place: u8) -> usize
    requires at { at ≤ 256 }
    requires place { place < 32 }
    ensures text { take result buffer.new ≡ cut 256 (take at buffer.old ++ (decimal (octet address place) ++ codes ".")) }
    ensures within { result ≤ 256 }
{
    let number = put_number(buffer, at, octet(address, place));
    put(buffer, number, b".")
}

#[tactic(auto, unfolding(host_net::specs::Prefix::octet))]
fn octet(address: u32, place: u8) -> u64
    requires { place < 32 }
    ensures { result ≡ octet address place }
{
    ((address >> place) % 256) as u64
}

/// Returns the prefix that has exactly the addresses of the range.
#[tactic(auto, using(crate::proofs::RangeLaws::prefix_here, crate::proofs::RangeLaws::prefix_later))]
fn range_prefix(range: AddressRange) -> Option<Prefix>
    ensures { result ≡ range_prefix range }
{
    for len in 0..33 {
        let prefix = prefix_with(range.first, len);
        if has_addresses(range, prefix) {
            return Some(prefix);
        }
    }
    None
}

fn has_addresses(range: AddressRange, prefix: Prefix) -> bool
    ensures { result ≡ has_addresses range prefix }
{
    prefix.first() == range.first && prefix.last() == range.last
}

fn prefix_with(address: u32, len: u8) -> Prefix
    requires { len ≤ 32 }
    ensures { result ≡ prefix_with address len }
{
    Prefix::new(address, len).unwrap()
}
