//! The prefixes of which an interval of addresses consists.

ghost use Rattle.std.specs.Prelude.{◌≡◌, ◌≤◌, ◌+◌, ◌^◌, ◌++◌, IfOk, OnOk};
ghost use Rattle.host_net.specs.Prefix.{prefix_with};
ghost use Rattle.nft_chains.specs.Translation.{cover, is_outside, is_within, prefixes_of};

use header_space::AddressRange;
use host_net::Prefix;
use std::alloc::{AllocError, Global};

/// Returns the prefixes, in ascending order.
pub fn prefixes_of(alloc: Global, range: AddressRange) -> Result<Vec<Prefix>, AllocError>
    ensures { IfOk result (λ prefixes. prefixes.items ≡ prefixes_of range) }
{
    let mut prefixes = Vec::new(alloc);
    push_cover(&mut prefixes, 32, 0, range)?;
    Ok(prefixes)
}

/// Appends the prefixes of the part of the interval in the block of 2 ^ `bits` addresses from `first`
/// on.
#[tactic(auto, using(crate::proofs::CoverLaws::cover_none, crate::proofs::CoverLaws::cover_one))]
fn push_cover(
    prefixes: &mut Vec<Prefix>,
    bits: u8,
    first: u32,
    range: AddressRange,
) -> Result<(), AllocError>
    requires bits { bits ≤ 32 }
    requires block { first + 2 ^ bits ≤ 2 ^ 32 }
    ensures { OnOk result (prefixes.new.items ≡ prefixes.old.items ++ cover bits first range) }
{
    if is_within(bits, first, range) {
        prefixes.push(prefix_with(first, 32 - bits))?;
        return Ok(());
    }
    if bits == 0 || is_outside(bits, first, range) {
        return Ok(());
    }
    push_cover(prefixes, bits - 1, first, range)?;
    push_cover(prefixes, bits - 1, first + (1 << (bits - 1)), range)?;
    Ok(())
}

/// Whether all addresses of the block lie in the interval.
#[tactic(auto, using(std::proofs::lemmas::Nat::one_shl))]
fn is_within(bits: u8, first: u32, range: AddressRange) -> bool
    requires { bits ≤ 32 }
    ensures { result ≡ is_within bits first range }
{
    range.first <= first && first as u64 + (1u64 << bits) <= range.last as u64 + 1
}

/// Whether no address of the block lies in the interval.
#[tactic(auto, using(std::proofs::lemmas::Nat::one_shl))]
fn is_outside(bits: u8, first: u32, range: AddressRange) -> bool
    requires { bits ≤ 32 }
    ensures { result ≡ is_outside bits first range }
{
    first as u64 + (1u64 << bits) <= range.first as u64 || range.last < first
}

fn prefix_with(address: u32, len: u8) -> Prefix
    requires { len ≤ 32 }
    ensures { result ≡ prefix_with address len }
{
    Prefix::new(address, len).unwrap()
}
