//! The ranges of addresses of each owner under two descriptions.

ghost use Rattle.std.specs.Prelude.{◌≡◌, ◌++◌, ◌∷◌, [], ◌<◌, length, IfOk, OnOk, if◌then◌else◌};
ghost use Rattle.change_core.specs.inner.Naming.{AreNamed, HaveNamed, IsNamed, name_of};

use crate::named_owner::{NamedOwner, named_until};
use header_space::{AddressRange, Owned};
use host_net::Hosts;
use std::alloc::{AllocError, Global};

/// Returns all owners under a new and an old description, with the ranges of their addresses in ascending
/// order: the hosts of the new description, then the hosts of the old description, then nobody. The owners
/// are numbered in this order.
pub(crate) fn all_named(alloc: Global, new: &Hosts, old: &Hosts) -> Result<Vec<Owned>, AllocError>
    ensures { IfOk result (λ owned. AreNamed new.now old.now owned.items) }
{
    let mut owned = Vec::new(alloc);
    for number in 0..new.count() + old.count() {
        owned.push(named_by(alloc, new, old, Some(number))?)?;
    }
    owned.push(named_by(alloc, new, old, None)?)?;
    Ok(owned)
}

/// Returns the owner with the number, and its ranges.
fn named_by(
    alloc: Global,
    new: &Hosts,
    old: &Hosts,
    number: Option<u16>,
) -> Result<Owned, AllocError>
    ensures number { IfOk result (λ owned. owned.owner ≡ number) }
    ensures ranges { IfOk result (IsNamed new.now old.now) }
{
    let owner = NamedOwner::of_number(number, new.count());
    let ranges = ranges_of(alloc, new, old, owner)?;
    Ok(Owned {
        owner: number,
        ranges,
    })
}

/// Returns the ranges of the addresses of an owner.
fn ranges_of(
    alloc: Global,
    new: &Hosts,
    old: &Hosts,
    owner: NamedOwner,
) -> Result<Vec<AddressRange>, AllocError>
    ensures { IfOk result (λ ranges. HaveNamed new.now old.now owner ranges.items) }
{
    let mut ranges = Vec::new(alloc);
    let mut first = 0;
    loop {
        let held = named_until(new, old, first);
        let range = AddressRange {
            first,
            last: held.last,
        };
        push_if(&mut ranges, held.owner.is(owner), range)?;
        if held.last == u32::MAX {
            return Ok(ranges);
        }
        first = held.last + 1;
    }
}

fn push_if(
    ranges: &mut Vec<AddressRange>,
    wanted: bool,
    range: AddressRange,
) -> Result<(), AllocError>
    ensures { OnOk result (ranges.new.items ≡ ranges.old.items ++ (if wanted then range ∷ [] else [])) }
{
    if wanted {
        ranges.push(range)?;
    }
    Ok(())
}
