//! The address ranges of each owner: of each host, and of `None`, which owns the addresses of no host.

ghost use Rattle.std.specs.Prelude.{◌≡◌, ◌++◌, ◌∷◌, [], IfOk, OnOk, if◌then◌else◌};
ghost use Rattle.std.specs.Bool.{Decides};
ghost use Rattle.header_space.specs.Owners.{AreOwned, HaveAddresses};

use crate::address_range::AddressRange;
use host_net::Hosts;
use std::alloc::{AllocError, Global};

/// An owner and the ranges of its addresses. `None` owns the addresses that no host owns.
#[derive(Drop)]
pub struct Owned {
    pub owner: Option<u16>,
    pub ranges: Vec<AddressRange>,
}

/// Returns the hosts in order, and then the owner of all other addresses. The ranges of each owner are
/// in ascending order.
pub fn all_owned(alloc: Global, hosts: &Hosts) -> Result<Vec<Owned>, AllocError>
    ensures { IfOk result (λ owned. AreOwned hosts.now owned.items) }
{
    let mut owned = Vec::new(alloc);
    for host in 0..hosts.count() {
        let ranges = ranges_of(alloc, hosts, Some(host))?;
        owned.push(Owned {
            owner: Some(host),
            ranges,
        })?;
    }
    let ranges = ranges_of(alloc, hosts, None)?;
    owned.push(Owned {
        owner: None,
        ranges,
    })?;
    Ok(owned)
}

/// Returns the address ranges of an owner, in ascending order.
pub fn ranges_of(
    alloc: Global,
    hosts: &Hosts,
    owner: Option<u16>,
) -> Result<Vec<AddressRange>, AllocError>
    ensures { IfOk result (λ ranges. HaveAddresses hosts.now owner ranges.items) }
{
    let mut ranges = Vec::new(alloc);
    let mut first = 0;
    loop {
        let held = hosts.owner_until(first, u32::MAX);
        let range = AddressRange {
            first,
            last: held.last,
        };
        push_if(&mut ranges, is_same(held.host, owner), range)?;
        if held.last == u32::MAX {
            return Ok(ranges);
        }
        first = held.last + 1;
    }
}

/// Whether the two owners are equal.
fn is_same(left: Option<u16>, right: Option<u16>) -> bool
    ensures { Decides result (left ≡ right) }
{
    left == right
}

fn push_if(
    ranges: &mut Vec<AddressRange>,
    wanted: bool,
    range: AddressRange,
) -> Result<(), AllocError>
    ensures { OnOk result (ranges.new.items ≡ ranges.old.items ++ (if wanted then range ∷ [] else [])) }
{
    if wanted {
        ranges.push(range)?;
    }
    Ok(())
}
