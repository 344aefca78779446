//! Formatting a prefix into a buffer. All emitted rules use these calls.

ghost use Rattle.std.specs.Prelude.{◌≡◌, ◌<◌, ◌≤◌, ◌++◌, take};
ghost use Rattle.text_core.specs.inner.Line.{cut};
ghost use Rattle.host_net.specs.Prefix as spelled;

use crate::prefix::Prefix;
use text_core::{put, put_number};

/// Writes a prefix as `a.b.c.d/len` into `buffer` from index `at` on, and returns the index after
/// it.
#[tactic(auto, unfolding(crate::specs::Prefix::prefix_text))]
pub fn put_prefix<const N: usize>(buffer: &mut [u8; N], at: usize, prefix: Prefix) -> usize
    requires { at ≤ N }
    ensures text { take result buffer.new ≡ cut N (take at buffer.old ++ spelled.prefix_text prefix) }
    ensures within { result ≤ N }
{
    let address = put_address(buffer, at, prefix.addr);
    let slash = put(buffer, address, b"/");
    put_number(buffer, slash, prefix.len as u64)
}

fn put_address<const N: usize>(buffer: &mut [u8; N], at: usize, address: u32) -> usize
    requires { at ≤ N }
    ensures text { take result buffer.new ≡ cut N (take at buffer.old ++ spelled.address_text address) }
    ensures within { result ≤ N }
{
    let first = put_number(buffer, at, octet(address, 24));
    let dot = put(buffer, first, b".");
    let second = put_number(buffer, dot, octet(address, 16));
    let dot = put(buffer, second, b".");
    let third = put_number(buffer, dot, octet(address, 8));
    let dot = put(buffer, third, b".");
    put_number(buffer, dot, octet(address, 0))
}

#[tactic(auto, unfolding(crate::specs::Prefix::octet))]
fn octet(address: u32, place: u8) -> u64
    requires { place < 32 }
    ensures { result ≡ spelled.octet address place }
{
    ((address >> place) % 256) as u64
}
