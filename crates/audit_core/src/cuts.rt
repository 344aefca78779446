//! The cuts of ranges, which divide addresses and ports into classes, and the protocols.

ghost use Rattle.std.specs.Prelude.{◌≡◌, ◌++◌, ◌^◌, OnOk};
ghost use Rattle.audit_core.specs.Classes.{is_among};
ghost use Rattle.rules_space.specs.Numbers.{numbers_where};
ghost use Rattle.audit_core.specs.Ranges.{range_cuts};

use std::alloc::AllocError;

/// Appends the cuts of a range of addresses.
pub(crate) fn push_addresses(cuts: &mut Vec<u32>, first: u32, last: u32) -> Result<(), AllocError>
    ensures { OnOk result (cuts.new.items ≡ cuts.old.items ++ range_cuts (2 ^ 32) first last) }
{
    cuts.push(first)?;
    if last < u32::MAX {
        cuts.push(last + 1)?;
    }
    Ok(())
}

/// Appends the cuts of a range of ports.
pub(crate) fn push_ports(cuts: &mut Vec<u16>, low: u16, high: u16) -> Result<(), AllocError>
    ensures { OnOk result (cuts.new.items ≡ cuts.old.items ++ range_cuts (2 ^ 16) low high) }
{
    cuts.push(low)?;
    if high < u16::MAX {
        cuts.push(high + 1)?;
    }
    Ok(())
}

/// Sorts the addresses and removes duplicates.
pub(crate) fn sort_addresses(numbers: &mut Vec<u32>)
    ensures { numbers.new.items ≡ numbers_where (is_among numbers.old.items) (2 ^ 32) }
{
    numbers.sort_unstable();
    numbers.dedup();
}

/// Sorts the protocols and removes duplicates.
pub(crate) fn sort_protocols(numbers: &mut Vec<u8>)
    ensures { numbers.new.items ≡ numbers_where (is_among numbers.old.items) (2 ^ 8) }
{
    numbers.sort_unstable();
    numbers.dedup();
}

/// Sorts the ports and removes duplicates.
pub(crate) fn sort_ports(numbers: &mut Vec<u16>)
    ensures { numbers.new.items ≡ numbers_where (is_among numbers.old.items) (2 ^ 16) }
{
    numbers.sort_unstable();
    numbers.dedup();
}
